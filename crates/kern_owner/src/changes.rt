// Giving pages to a coffer, and taking pages back.
ghost use Rattle.std.specs.Prelude.{◌≡◌, ◌<◌, ◌≤◌, length, take, nat_eq, All, IfOk, IfErr};
ghost use Rattle.std.specs.List.{IsDistinct};
ghost use Rattle.zo_layout.specs.Layout as layout;
ghost use Rattle.kern_model.specs.KernelView as view;
ghost use Rattle.kern_model.specs.Kernel as kernel;
ghost use Rattle.kern_model.specs.KernelRules.{IsSoundKernel};
ghost use Rattle.kern_owner.specs.Owners as spec;
ghost use Rattle.kern_owner.specs.Refusal.{IsRefused};

use crate::handed::{Grant, OwnerFault, Pairs};
use crate::owners::{first_pages, free_up_to};
use kern_model::NOBODY;
use pm_words::{NoMemory, Words};
use sqlite_items::Items;
use std::alloc::Global;
use zo_layout::owner_word;

/// The least free pages, so many, for a coffer of 1 to 256, and the pairs that make them the coffer's.
///
/// `NoPages` exactly where fewer are free.
pub fn grant(alloc: Global, words: &Words, id: u16, count: u32) -> Result<Grant, OwnerFault>
    requires sound { IsSoundKernel words.now }
    requires least { 1 ≤ id }
    requires most { id ≤ 256 }
    ensures pages { IfOk result (λ given. given.pages ≡ take count (kernel.spare_pages words.now)) }
    ensures pairs { IfOk result (λ given. given.pairs ≡ spec.owner_pairs (view.pages_of words.now) id given.pages) }
    ensures enough { IfOk result (λ _. count ≤ length (kernel.spare_pages words.now)) }
    ensures refused { IfErr result (IsRefused count (length (kernel.spare_pages words.now))) }
{
    let free = free_up_to(words, count);
    if free < count {
        return Err(OwnerFault::NoPages { asked: count, free });
    }
    let pages = first_pages(alloc, words, NOBODY, count)?;
    let pairs = owner_pairs(alloc, words, id, &pages)?;
    Ok(Grant { pages, pairs })
}

/// The pairs that make pages nobody's. The pages differ, in any order, and none is the kernel's.
pub fn take_back(alloc: Global, words: &Words, pages: &[u32]) -> Result<Pairs, NoMemory>
    requires inside { All (λ page. page < view.pages_of words.now) pages.now }
    requires differ { IsDistinct nat_eq pages.now }
    requires coffers { All (λ page. layout.kernel_pages (view.pages_of words.now) ≤ page) pages.now }
    ensures { IfOk result (λ pairs. pairs ≡ spec.owner_pairs (view.pages_of words.now) 0 (spec.in_order (view.pages_of words.now) pages.now)) }
{
    let mut list = Vec::from_slice(alloc, pages)?;
    list.sort()?;
    owner_pairs(alloc, words, NOBODY, &list)
}

/// For each page of a list, the pair that makes it the owner's.
fn owner_pairs(alloc: Global, words: &Words, owner: u16, list: &[u32]) -> Result<Pairs, NoMemory>
    requires inside { All (λ page. page < view.pages_of words.now) list.now }
    ensures { IfOk result (λ pairs. pairs ≡ spec.owner_pairs (view.pages_of words.now) owner list.now) }
{
    let image = words.pages();
    let mut pairs = Vec::with_capacity(alloc, list.len())?;
    for &page in list {
        pairs.push((owner_word(image, page), u64::from(owner)))?;
    }
    Ok(Items::from_vec(pairs))
}
