// What the kernel keeps beside the words, brought up to date once a call's words are stored.
ghost use Rattle.std.specs.Prelude.{◌≡◌, ℕ, ◌≤◌, ◌<◌, length, slice_index, slice_set, OnOk, OnErr, IfSome};
ghost use Rattle.kern_model.specs.KernelView.{pages_of};
ghost use Rattle.kern_model.specs.KernelRules.{IsSoundKernel};
ghost use Rattle.kern_pages.specs.Owners.{owners_of};
ghost use Rattle.kern_model.specs.Commits.{IsOuter};
ghost use Rattle.kern_calls.specs.Steps.{IsPageAt, KnowsUpTo, FollowsWord, with_owners, with_holders, holders_left};

use crate::kernel::Kernel;
use kern_owner::owner;
use kern_pages::owners_law;
use pm_words::{NoMemory, Words};
use tr_types::Kcall;
use zo_layout::{kernel_pages, owner_table, page_at};

impl Kernel {
    /// Passes each page whose owner word was stored to whom it is now. The kernel's own pages stay.
    pub(crate) fn follow(&mut self, words: &Words, pairs: &[(u64, u64)]) -> Result<(), NoMemory>
        requires sound { IsSoundKernel words.now }
        requires known { KnowsUpTo words.now pairs.now self.old.owners }
        ensures { OnOk result (self.new ≡ with_owners (owners_of words.now) self.old) }
    {
        owners_law();
        for &(addr, _) in pairs {
            self.follow_word(words, addr)?;
        }
        Ok(())
    }

    // Passes the page whose owner word stands at an address, if there is one.
    fn follow_word(&mut self, words: &Words, addr: u64) -> Result<(), NoMemory>
        requires sound { IsSoundKernel words.now }
        requires count { length self.old.owners ≡ pages_of words.now }
        requires outer { (page : ℕ) → IsOuter words.now page → slice_index self.old.owners page ≤ 256 }
        ensures { OnOk result (FollowsWord words.now addr self.old self.new) }
    {
        match page_with(words.pages(), addr) {
            Some(page) => self.pass(page, owner(words, page)),
            None => Ok(()),
        }
    }

    // A page that isn't the kernel's comes to another owner.
    fn pass(&mut self, page: u32, owner: u16) -> Result<(), NoMemory>
        requires inside { page < length self.old.owners }
        requires outer { slice_index self.old.owners page ≤ 256 }
        requires owner { owner ≤ 256 }
        ensures { OnOk result (self.new ≡ with_owners (slice_set self.old.owners page owner) self.old) }
    {
        self.owners.pass(page, owner)?;
        self.tables.take_pages(&[page]);
        self.tables.add_pages(owner, &[page])?;
        Ok(())
    }

    /// Ends all maps of a coffer that is gone.
    pub(crate) fn end_maps(&mut self, call: &Kcall)
        ensures { self.new ≡ with_holders (holders_left call.now self.old.holders) self.old }
    {
        match call {
            Kcall::Delete { id, .. } => self.tables.drop_coffer(*id),
            Kcall::Merge { child, .. } => self.tables.drop_coffer(*child),
            _ => {}
        }
    }
}

// The page, of those that aren't the kernel's, whose owner word stands at an address.
fn page_with(pages: u32, addr: u64) -> Option<u32>
    requires { pages ≤ 16384 }
    ensures found { IfSome result (IsPageAt pages addr) }
    ensures only { (page : ℕ) → IsPageAt pages addr page → result ≡ Some page }
{
    let start = page_at(owner_table(pages));
    if addr < start {
        return None;
    }
    let place = addr - start;
    let page = place / 8;
    if place % 8 != 0 || page < u64::from(kernel_pages(pages)) || u64::from(pages) <= page {
        return None;
    }
    Some(page as u32)
}
