// The kernel over the words of an image.
ghost use Rattle.std.specs.Prelude.{◌≡◌, ◌≢◌, ◌⊎◌, ℕ, [], length, slice_index, OnOk, IfOk};
ghost use Rattle.std.specs.Result.{IsErrOf};
ghost use Rattle.zo_layout.specs.Layout.{committed_word};
ghost use Rattle.pm_words.specs.Memory.{word_at};
ghost use Rattle.kern_model.specs.Journal.{committed_count};
ghost use Rattle.kern_model.specs.KernelRules.{IsFirstFault, IsSoundKernel};
ghost use Rattle.kern_model.specs.Inner.{made_all, IsCut};
ghost use Rattle.kern_model.specs.Inner.{redo_events};
ghost use Rattle.kern_model.specs.JournalLaws.{IsDurable};
ghost use Rattle.kern_model.specs.KernelCalls.{Callers};
ghost use Rattle.kern_model.specs.Commits.{AreDurable, HasSteadyTables};
ghost use Rattle.kern_pages.specs.Owners.{owners_of};
ghost use Rattle.kern_model.specs.KernelView.{pages_of};
ghost use Rattle.kern_calls.specs.Calls.{KernelView, IsMounted, KnowsOwners};
ghost use Rattle.kern_calls.specs.Standing.{coffer_or_none};

use crate::kernel::{Kernel, coffer_or_none};
use kern_journal::{redo, view_law};
use kern_pages::{Owners, owners_law};
use kern_view::first_fault;
use page_rights::Tables;
use pm_words::{NoMemory, Words};
use std::alloc::{AllocError, Global};
use thiserror::Error;

/// Why the kernel doesn't take an image.
#[derive(Clone, Copy, Debug, PartialEq, Eq, Error)]
pub enum MountFault {
    /// The byte address at which the first rule of the kernel's pages fails.
    #[error("the kernel's pages are damaged at {0}")]
    BadKernel(u64),
    #[error("out of memory")]
    NoMemory,
}

impl From<AllocError> for MountFault {
    ghost use Rattle.kern_calls.specs.declared.mount.MountFault.TheVariants.{NoMemory};

    ghost from_gives = { λ _ fault. fault ≡ NoMemory };

    fn from(_: AllocError) -> MountFault {
        MountFault::NoMemory
    }
}

impl Kernel {
    /// Puts the kernel over an image of any content, and finishes what is committed in it.
    ///
    /// `BadKernel` comes where a rule of the kernel's pages fails, with the place of the first one. Such
    /// an image keeps its words, also where memory runs out. That nothing is committed after is durable
    /// where something was, or where it was durable before. Over durable words a crash can change nothing of
    /// the kernel's pages then. `NoMemory` leaves the words as they are
    /// after some number of the inner events that finish the committed pairs.
    pub fn mount(alloc: Global, words: &mut Words) -> Result<Kernel, MountFault>
        ensures ok { OnOk result (words.new ≡ made_all (redo_events words.old) words.old) }
        ensures sound { OnOk result (IsSoundKernel words.old) }
        ensures finished { OnOk result (committed_count words.new ≡ 0) }
        ensures durable { OnOk result ((committed_count words.old ≢ 0) ⊎ ((word_at words.old committed_word).older ≡ []) → IsDurable words.new committed_word 0) }
        ensures sound_after { OnOk result (IsSoundKernel words.new) }
        ensures bad { (place : ℕ) → IsErrOf result (MountFault.BadKernel place) → IsFirstFault words.old place }
        ensures refuses { (place : ℕ) → IsFirstFault words.old place → IsErrOf result (MountFault.BadKernel place) ⊎ IsErrOf result MountFault.NoMemory }
        ensures unchanged { (place : ℕ) → IsErrOf result (MountFault.BadKernel place) → words.new ≡ words.old }
        ensures untouched { (place : ℕ) → IsFirstFault words.old place → words.new ≡ words.old }
        ensures no_memory { IsErrOf result MountFault.NoMemory → IsCut (redo_events words.old) words.old words.new }
        ensures fresh { IfOk result (λ kernel. (kernel.callers ≡ record { processes = []; threads = [] }) × (kernel.holders ≡ [])) }
        ensures told { IfOk result (λ kernel. KnowsOwners kernel words.new) }
        ensures mounted { IfOk result (λ kernel. IsDurable words.new committed_word 0 → IsMounted kernel words.new) }
        ensures steady { OnOk result (AreDurable words.old → HasSteadyTables words.new) }
        ensures len { length words.new ≡ length words.old }
    {
        match first_fault(alloc, words)? {
            None => {}
            Some(place) => return Err(MountFault::BadKernel(place)),
        }
        // Finishing the pairs changes nothing of what the kernel reads.
        view_law();
        redo(alloc, words)?;
        let kernel = Kernel::over(alloc, words)?;
        Ok(kernel)
    }

    // Over words of which no rule of the kernel's pages fails, with nothing started.
    fn over(alloc: Global, words: &Words) -> Result<Kernel, NoMemory>
        requires { IsSoundKernel words.now }
        ensures { IfOk result (λ kernel. kernel ≡ record { callers = record { processes = []; threads = [] }; holders = []; owners = owners_of words.now }) }
    {
        owners_law();
        let owners = Owners::of_words(alloc, words)?;
        let tables = new_tables(alloc, words, &owners)?;
        Ok(Kernel {
            alloc,
            processes: Vec::new(alloc),
            tables,
            owners,
        })
    }
}

// Tables of rights with nothing started, in which each page stands under its coffer.
fn new_tables(alloc: Global, words: &Words, owners: &Owners) -> Result<Tables, NoMemory>
    requires { length owners.now ≡ pages_of words.now }
    ensures threads { IfOk result (λ tables. tables.threads ≡ []) }
    ensures holders { IfOk result (λ tables. tables.holders ≡ []) }
    ensures count { IfOk result (λ tables. length tables.owners ≡ length owners.now) }
    ensures stands { IfOk result (λ tables. (page : ℕ) → slice_index tables.owners page ≡ coffer_or_none (slice_index owners.now page)) }
{
    let mut tables = Tables::new(alloc, words.pages())?;
    for page in 0..words.pages() {
        tables.add_pages(coffer_or_none(owners.owner(page)), &[page])?;
    }
    Ok(tables)
}
