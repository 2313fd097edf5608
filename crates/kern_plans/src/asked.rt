// What a row is made from.
ghost use Rattle.std.specs.Prelude.{◌≡◌, ◌≤◌, length, take, IfOk};
ghost use Rattle.kern_model.specs.KernelRules.{IsSoundKernel};
ghost use Rattle.kern_model.specs.Kernel as kernel;
ghost use Rattle.kern_model.specs.KernelCalls as calls;
ghost use Rattle.kern_plans.specs.Asked.{IsKnown};

use kern_model::NOBODY;
use kern_pages::{Owners, owners_law};
use page_rights::Tables;
use pm_words::{NoMemory, Words};
use std::marker::Model;
use tr_types::Cred;

/// What the row of a call is made from: the memory, over which no rule of the kernel's pages fails, and
/// whose each page is; who holds which coffer; the calling thread with its process's credentials; and
/// the tick.
#[derive(Drop)]
pub struct Asked<'a> {
    pub(crate) words: &'a Words,
    pub(crate) owners: &'a Owners,
    pub(crate) tables: &'a Tables,
    pub(crate) cred: Cred,
    pub(crate) thread: u16,
    pub(crate) tick: u32,
}

impl<'a> Model for Asked<'a> {
    ghost use Rattle.kern_plans.specs.Asked.{AskedView, IsKnown};

    ghost Value = { AskedView };

    ghost view = { λ a. record { words = a.words.now; holders = a.tables.now.holders; cred = a.cred; thread = a.thread; tick = a.tick } };

    ghost invariant = { λ a. IsKnown a.words.now a.owners.now };
}

impl<'a> Asked<'a> {
    pub fn new(
        words: &'a Words,
        owners: &'a Owners,
        tables: &'a Tables,
        cred: Cred,
        thread: u16,
        tick: u32,
    ) -> Asked<'a>
        requires { IsKnown words.now owners.now }
        ensures { result ≡ record { words = words.now; holders = tables.now.holders; cred = cred; thread = thread; tick = tick } }
    {
        Asked {
            words,
            owners,
            tables,
            cred,
            thread,
            tick,
        }
    }

    /// The memory, over which no rule of the kernel's pages fails.
    pub(crate) fn words(&self) -> &Words
        ensures words { result.now ≡ self.now.words }
        ensures sound { IsSoundKernel self.now.words }
    {
        self.words
    }

    /// The credentials of the calling thread's process.
    pub(crate) fn cred(&self) -> Cred
        ensures { result ≡ self.now.cred }
    {
        self.cred
    }

    /// The number of the calling thread.
    pub(crate) fn thread(&self) -> u16
        ensures { result ≡ self.now.thread }
    {
        self.thread
    }

    /// Whether the caller holds a coffer for writing.
    pub(crate) fn holds_for_writing(&self, id: u16) -> bool
        ensures { result ≡ calls.holds_for_writing self.now.thread id self.now.holders }
    {
        self.tables.holds_for_writing(self.thread, id)
    }

    /// Whether the caller holds a coffer for itself alone, as its owner.
    pub(crate) fn holds_as_owner(&self, id: u16) -> bool
        ensures { result ≡ calls.holds_as_owner self.now.thread id self.now.holders }
    {
        self.tables.holds_as_owner(self.thread, id)
    }

    /// How many pages are nobody's.
    pub(crate) fn free(&self) -> u32
        ensures { result ≡ length (kernel.spare_pages self.now.words) }
    {
        owners_law();
        self.owners.count(NOBODY)
    }

    /// The least pages that are nobody's, so many, or all where there are fewer.
    pub(crate) fn first_free(&self, most: u32) -> Result<Vec<u32>, NoMemory>
        ensures { IfOk result (λ pages. pages.items ≡ take most (kernel.spare_pages self.now.words)) }
    {
        owners_law();
        self.owners.first(NOBODY, most)
    }

    /// The pages of a coffer of 1 to 256, the least first.
    pub(crate) fn pages_of(&self, id: u16) -> Result<Vec<u32>, NoMemory>
        requires { id ≤ 256 }
        ensures { IfOk result (λ pages. pages.items ≡ kernel.coffer_pages self.now.words id) }
    {
        owners_law();
        self.owners.pages(id)
    }
}
