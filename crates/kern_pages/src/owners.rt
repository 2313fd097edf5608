// The pages of each owner.
ghost use Rattle.std.specs.Prelude.{◌≡◌, ◌<◌, ◌≤◌, length, take, slice_index, slice_set, IfOk, OnOk, OnErr};
ghost use Rattle.kern_model.specs.KernelRules.{IsSoundKernel};
ghost use Rattle.kern_pages.specs.Owners.{owners_of, pages_with};

use crate::sets::PageSets;
use kern_model::LAST_COFFER;
use kern_owner::owner;
use pm_words::{NoMemory, Words};
use std::alloc::Global;
use std::marker::Model;

/// The pages of each owner: 0 nobody, 1 to 256 a coffer by its number, 65,535 the kernel.
#[derive(Drop)]
pub struct Owners {
    alloc: Global,
    // The owner of each page.
    owners: Vec<u16>,
    // The pages of nobody and of each coffer.
    sets: PageSets,
}

impl Model for Owners {
    ghost use Rattle.std.specs.Prelude.{ℕ, List, ◌≤◌, length};
    ghost use Rattle.kern_pages.specs.Sets.{AreSetsOf};

    ghost Value = { List ℕ };

    ghost view = { λ o. o.owners.items };

    // An image has at most 16,384 pages, and the sets say what the list says.
    ghost invariant = { λ o. (length o.owners.items ≤ 16384) × AreSetsOf o.owners.items o.sets };
}

impl Owners {
    /// The owners of all pages, as the owner table says them. No rule of the kernel's pages fails.
    pub fn of_words(alloc: Global, words: &Words) -> Result<Owners, NoMemory>
        requires { IsSoundKernel words.now }
        ensures { IfOk result (λ owners. owners ≡ owners_of words.now) }
    {
        let mut owners = Vec::new(alloc);
        let mut sets = PageSets::blank(alloc)?;
        for page in 0..words.pages() {
            let whose = owner(words, page);
            owners.push(whose)?;
            if whose <= LAST_COFFER {
                sets.insert(whose, page)?;
            }
        }
        Ok(Owners {
            alloc,
            owners,
            sets,
        })
    }

    /// Whose a page of the image is. Takes no memory.
    pub fn owner(&self, page: u32) -> u16
        requires { page < length self.now }
        ensures { result ≡ slice_index self.now page }
    {
        self.owners[page as usize]
    }

    /// How many pages nobody (0) or a coffer (1 to 256) has. Takes no memory.
    pub fn count(&self, owner: u16) -> u32
        requires { owner ≤ 256 }
        ensures { result ≡ length (pages_with owner self.now) }
    {
        self.sets.count(owner) as u32
    }

    /// The least pages of nobody or of a coffer, `most` of them where it has as many. It costs by the
    /// pages that it answers.
    pub fn first(&self, owner: u16, most: u32) -> Result<Vec<u32>, NoMemory>
        requires { owner ≤ 256 }
        ensures { IfOk result (λ pages. pages.items ≡ take most (pages_with owner self.now)) }
    {
        self.sets.first(self.alloc, owner, most)
    }

    /// The pages of nobody or of a coffer, the least first.
    pub fn pages(&self, owner: u16) -> Result<Vec<u32>, NoMemory>
        requires { owner ≤ 256 }
        ensures { IfOk result (λ pages. pages.items ≡ pages_with owner self.now) }
    {
        self.first(owner, self.count(owner))
    }

    /// A page that isn't the kernel's becomes nobody's or a coffer's. An error changes nothing.
    pub fn pass(&mut self, page: u32, owner: u16) -> Result<(), NoMemory>
        requires inside { page < length self.old }
        requires outer { slice_index self.old page ≤ 256 }
        requires owner { owner ≤ 256 }
        ensures ok { OnOk result (self.new ≡ slice_set self.old page owner) }
        ensures err { OnErr result (self.new ≡ self.old) }
        ensures len { length self.new ≡ length self.old }
    {
        let from = self.owner(page);
        if from == owner {
            return Ok(());
        }
        self.sets.insert(owner, page)?;
        self.sets.remove(from, page);
        self.owners[page as usize] = owner;
        Ok(())
    }
}
