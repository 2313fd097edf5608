// A coffer goes into its parent.
ghost use Rattle.std.specs.Prelude.{◌≡◌, ◌<◌, All, IfOk, OnOk};
ghost use Rattle.kern_model.specs.KernelCalls.{Callers};
ghost use Rattle.kern_model.specs.KernelCalls as calls;
ghost use Rattle.kern_plans.specs.Plans.{Plans};
ghost use Rattle.kern_plans.specs.Asked.{HasCred};
ghost use Rattle.kern_model.specs.KernelView.{pages_of};
ghost use Rattle.kern_model.specs.Journal.{kernel_word};
ghost use Rattle.kern_model.specs.Kernel.{coffer_pages};
ghost use Rattle.kern_model.specs.PathMap.{dropped_pairs};
ghost use Rattle.kern_plans.specs.Links.{link_of, guard_of};
ghost use Rattle.kern_plans.specs.Refusals.{TellsFirstDue};
ghost use Rattle.kern_plans.specs.Stored.{merged_pairs};

use crate::asked::Asked;
use crate::checks::{check_leaving, check_linking, count_each, count_of};
use crate::giving::pass_pages;
use crate::linking::{Link, Linking};
use crate::owning::named_root;
use crate::planned::Planned;
use kern_model::NOBODY;
use kern_roots::{RootsFault, drop_entry};
use pm_words::Words;
use std::alloc::{AllocError, Global};
use tr_types::{KernAnswer, Pages};

/// A coffer goes into its parent: the listed pages become the parent's, its others are free.
pub fn merge(
    alloc: Global,
    asked: &Asked,
    child: u16,
    parent: u16,
    pages: &Pages,
    link: (u64, u64, u64),
    guard: (u64, u64),
) -> Result<Planned, KernAnswer>
    ensures { (callers : Callers) → HasCred callers asked.now
        → Plans (calls.merge_row callers asked.now.words asked.now.holders asked.now.thread asked.now.tick child parent pages.now link guard) result }
{
    let pages = pages.as_slice();
    let linking = Linking::new(link, guard);
    check_merge(alloc, asked, child, parent, pages, linking)?;
    match merged(alloc, asked, child, parent, pages, linking.link) {
        Ok(pairs) => Ok(Planned {
            answer: KernAnswer::Done,
            granted: Vec::new(alloc),
            pairs,
        }),
        Err(_) => Err(KernAnswer::NoMemory),
    }
}

// What refuses a merge. Where nothing does, the listed pages are pages of the image.
fn check_merge(
    alloc: Global,
    asked: &Asked,
    child: u16,
    parent: u16,
    pages: &[u32],
    linking: Linking,
) -> Result<(), KernAnswer>
    ensures refused { (callers : Callers) → HasCred callers asked.now
        → TellsFirstDue (calls.merge_row callers asked.now.words asked.now.holders asked.now.thread asked.now.tick child parent pages.now (link_of linking.link) (guard_of linking.guard)).refusals result }
    ensures inside { OnOk result (All (λ page. page < pages_of asked.now.words) pages.now) }
{
    check_leaving(alloc, asked, child, parent)?;
    let kept = [named_root(asked, child).control];
    check_linking(alloc, asked, parent, linking, child, &kept, pages)
}

// The words by which a coffer goes into its parent: the listed pages become the parent's, its others
// nobody's, its entry goes, and the link is stored.
fn merged(
    alloc: Global,
    asked: &Asked,
    child: u16,
    parent: u16,
    pages: &[u32],
    link: Link,
) -> Result<Vec<(u64, u64)>, RootsFault>
    requires { All (λ page. page < pages_of asked.now.words) pages.now }
    ensures { IfOk result (λ pairs. pairs.items ≡ merged_pairs asked.now.words parent pages.now (calls.unlisted pages.now (coffer_pages asked.now.words child))
        (dropped_pairs (pages_of asked.now.words) (kernel_word asked.now.words) child) (link_of link)) }
{
    let words = asked.words();
    let dropped = drop_entry(alloc, words, child)?;
    let owned = asked.pages_of(child)?;
    let others = unlisted(alloc, pages, &owned)?;
    Ok(merged_pairs(
        alloc,
        words,
        parent,
        pages,
        &others,
        dropped.as_slice(),
        link,
    )?)
}

// The words where these other pages become nobody's, and these words of the coffer's entry are stored.
fn merged_pairs(
    alloc: Global,
    words: &Words,
    parent: u16,
    pages: &[u32],
    others: &[u32],
    dropped: &[(u64, u64)],
    link: Link,
) -> Result<Vec<(u64, u64)>, AllocError>
    requires listed { All (λ page. page < pages_of words.now) pages.now }
    requires others { All (λ page. page < pages_of words.now) others.now }
    ensures { IfOk result (λ pairs. pairs.items ≡ merged_pairs words.now parent pages.now others.now dropped.now (link_of link)) }
{
    let mut pairs = Vec::new(alloc);
    pass_pages(&mut pairs, words, pages, parent)?;
    pass_pages(&mut pairs, words, others, NOBODY)?;
    pairs.extend_from_slice(dropped)?;
    pairs.push(link.pair())?;
    Ok(pairs)
}

// Those of some pages that aren't listed.
fn unlisted(alloc: Global, listed: &[u32], pages: &[u32]) -> Result<Vec<u32>, AllocError>
    ensures { IfOk result (λ rest. rest.items ≡ calls.unlisted listed.now pages.now) }
{
    let counts = count_each(alloc, listed)?;
    let mut rest = Vec::new(alloc);
    for &page in pages {
        if count_of(&counts, page) == 0 {
            rest.push(page)?;
        }
    }
    Ok(rest)
}
