// Making the kernel's single steps.
ghost use Rattle.std.specs.Prelude.{◌≡◌, ℕ, length, All, OnOk, OnErr};
ghost use Rattle.pm_words.specs.Memory.{IsAddress};
ghost use Rattle.kern_model.specs.Inner.{made, made_all, IsCut, HasAddress};

use kern_model::{Inner, NO_THREAD};
use pm_words::{NoMemory, Words};

/// Makes the step. An error leaves the memory as it was.
pub fn make(words: &mut Words, event: Inner) -> Result<(), NoMemory>
    requires { HasAddress (length words.old) event }
    ensures ok { OnOk result (words.new ≡ made words.old event) }
    ensures err { OnErr result (words.new ≡ words.old) }
    ensures len { length words.new ≡ length words.old }
{
    match event {
        Inner::Store { addr, value } => words.store(addr, value),
        Inner::Flush { addr } => words.flush(NO_THREAD, addr),
        Inner::Fence => {
            words.fence(NO_THREAD);
            Ok(())
        }
    }
}

/// Makes the steps in their order. An error leaves the memory as it is after some number of them.
pub fn make_all(words: &mut Words, events: &[Inner]) -> Result<(), NoMemory>
    requires { All (λ e. HasAddress (length words.old) e) events.now }
    ensures ok { OnOk result (words.new ≡ made_all events.now words.old) }
    ensures err { OnErr result (IsCut events.now words.old words.new) }
    ensures len { length words.new ≡ length words.old }
{
    for &event in events {
        make(words, event)?;
    }
    Ok(())
}
