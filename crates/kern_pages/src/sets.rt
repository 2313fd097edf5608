// The pages of nobody and of each coffer, a set for each.
ghost use Rattle.std.specs.Prelude.{◌≡◌, ◌<◌, length, take, slice_set, IfOk, OnOk, OnErr};
ghost use Rattle.std.specs.Ordering.{nat_cmp};
ghost use Rattle.std.specs.BTreeMap.{is_at};
ghost use Rattle.std.specs.BTreeSet.{insert_key};
ghost use Rattle.std.specs.Set.{remove_key};
ghost use Rattle.kern_pages.specs.Sets.{AreEmpty, set_of};

use kern_model::LAST_COFFER;
use pm_words::NoMemory;
use std::alloc::Global;
use std::collections::BTreeSet;
use std::marker::Model;

// The pages of nobody and of each coffer, by its number.
#[derive(Drop)]
pub struct PageSets {
    sets: Vec<BTreeSet<u32>>,
}

impl Model for PageSets {
    ghost use Rattle.std.specs.Prelude.{ℕ, List, map};
    ghost use Rattle.std.specs.BTreeSet.{keys};

    ghost Value = { List (List ℕ) };

    ghost view = { λ s. map keys s.sets.items };
}

impl PageSets {
    // Nobody and no coffer has a page.
    pub fn blank(alloc: Global) -> Result<PageSets, NoMemory>
        ensures { IfOk result AreEmpty }
    {
        let mut sets = Vec::new(alloc);
        for _ in 0..=LAST_COFFER {
            sets.push(BTreeSet::new(alloc))?;
        }
        Ok(PageSets { sets })
    }

    // How many pages an owner has.
    pub fn count(&self, owner: u16) -> usize
        requires { owner < length self.now }
        ensures { result ≡ length (set_of self.now owner) }
    {
        self.sets[usize::from(owner)].len()
    }

    // The least pages of an owner, `most` of them where it has as many: it looks no further.
    pub fn first(&self, alloc: Global, owner: u16, most: u32) -> Result<Vec<u32>, NoMemory>
        requires { owner < length self.now }
        ensures { IfOk result (λ pages. pages.items ≡ take most (set_of self.now owner)) }
    {
        least(alloc, &self.sets[usize::from(owner)], most)
    }

    // An owner has one page more.
    pub fn insert(&mut self, owner: u16, page: u32) -> Result<(), NoMemory>
        requires { owner < length self.old }
        ensures ok { OnOk result (self.new ≡ slice_set self.old owner (insert_key nat_cmp (set_of self.old owner) page)) }
        ensures err { OnErr result (self.new ≡ self.old) }
        ensures len { length self.new ≡ length self.old }
    {
        self.sets[usize::from(owner)].insert(page)?;
        Ok(())
    }

    // An owner has a page no longer.
    pub fn remove(&mut self, owner: u16, page: u32)
        requires { owner < length self.old }
        ensures removed { self.new ≡ slice_set self.old owner (remove_key (is_at (nat_cmp page)) (set_of self.old owner)) }
        ensures len { length self.new ≡ length self.old }
    {
        self.sets[usize::from(owner)].remove(&page);
    }
}

// The least pages of a set, `most` of them where it has as many: it looks no further.
fn least(alloc: Global, set: &BTreeSet<u32>, most: u32) -> Result<Vec<u32>, NoMemory>
    ensures { IfOk result (λ pages. pages.items ≡ take most set.now.keys) }
{
    set.iter().copied().take(most as usize).collect(alloc)
}
