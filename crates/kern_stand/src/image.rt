// Images of 64 pages with words stored by hand.
ghost use Rattle.std.specs.Prelude.{◌≡◌, [], length, IfOk, OnOk};
ghost use Rattle.zo_layout.specs.Layout.{committed_word};
ghost use Rattle.pm_words.specs.Memory.{word_at, HasPages};
ghost use Rattle.kern_model.specs.KernelRules.{IsSoundKernel};

use crate::RowFault;
use kern_journal::new_image;
use kern_view::first_fault;
use pm_words::{Image, NoMemory, Words};
use std::alloc::Global;

/// Bytes of 64 pages.
const BYTES: u64 = 262_144;

fn put(words: &mut Words, pairs: &[(u64, u64)]) -> Result<(), NoMemory>
    requires { length words.old ≡ 32768 }
    ensures { length words.new ≡ length words.old }
{
    for &(addr, word) in pairs {
        if addr % 8 == 0 && addr < BYTES {
            words.store(addr, word)?;
        }
    }
    Ok(())
}

// Stores these words, first the one list and then the other. No rule of the kernel's pages fails then.
fn put_both(
    alloc: Global,
    words: &mut Words,
    first: &[(u64, u64)],
    then: &[(u64, u64)],
) -> Result<(), RowFault>
    requires { length words.old ≡ 32768 }
    ensures { OnOk result (IsSoundKernel words.new) }
{
    put(words, first)?;
    put(words, then)?;
    match first_fault(alloc, words)? {
        None => Ok(()),
        Some(place) => Err(RowFault::Unsound(place)),
    }
}

/// A new image of 64 pages with these words stored over it, by their byte addresses, first the one list and
/// then the other. `Unsound` where a rule of the kernel's pages fails.
pub fn image_with(
    alloc: Global,
    first: &[(u64, u64)],
    then: &[(u64, u64)],
) -> Result<Words, RowFault>
    ensures { IfOk result IsSoundKernel }
{
    let mut words = new_image(alloc, 64)?;
    put_both(alloc, &mut words, first, then)?;
    Ok(words)
}

/// The words of an image, each durable.
pub(crate) fn at_rest(alloc: Global, image: Image) -> Result<Words, NoMemory>
    requires { HasPages (length image) }
    ensures { IfOk result (λ words. (word_at words committed_word).older ≡ []) }
{
    Words::of_image(alloc, image)
}
