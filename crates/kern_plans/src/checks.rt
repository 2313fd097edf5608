// What refuses more than one call: pages that aren't a coffer's, a guard, a link, and maps that are
// missing. A check gives nothing, or the refusal that is due; memory may run out.
ghost use Rattle.std.specs.Prelude.{◌≡◌, ◌<◌, ◌/◌, ◌^◌, ℕ, length, true, not, ◌==◌, ◌&&◌, ◌||◌, nat_eq, nat_lt, unwrap_or, count_by, find, [], ◌∷◌, ◌++◌, IfOk, IfErr};
ghost use Rattle.std.specs.List.{list_any};
ghost use Rattle.std.specs.HashMap.{get};
ghost use Rattle.pm_words.specs.Memory.{IsAddress};
ghost use Rattle.kern_model.specs.Kernel.{coffers};
ghost use Rattle.kern_model.specs.PathMap.{coffer_above, coffer_with, is_coffer};
ghost use Rattle.kern_model.specs.KernelCalls as calls;
ghost use Rattle.kern_model.specs.KernelCalls.{Callers};
ghost use Rattle.tr_types.specs.declared.kernel_call.KernAnswer.TheVariants as answer;
ghost use Rattle.kern_roots.specs.Reading.{IsRefused};
ghost use Rattle.kern_plans.specs.Asked.{HasCred};
ghost use Rattle.kern_plans.specs.Links.{link_of, guard_of};
ghost use Rattle.kern_plans.specs.Refusals.{TellsFirstDue, refusal_of, linking_refusals};

use crate::asked::Asked;
use crate::linking::{Guard, Link, Linking};
use crate::owning::owned;
use kern_roots::{RootsFault, above, children, entry_of, path_of};
use std::alloc::{AllocError, Global};
use std::collections::HashMap;
use tr_types::{KernAnswer, Path};
use zo_layout::{PAGE_BYTES, WORD_BYTES};

/// The most bytes of a coffer's path.
const MOST_PATH_BYTES: usize = kern_model::LONGEST_PATH as usize;

/// Refuses where the test holds.
pub(crate) fn refuse_where(refused: bool, refusal: KernAnswer) -> Result<(), KernAnswer>
    ensures { TellsFirstDue (calls.refused_where refused refusal ∷ []) result }
{
    if refused { Err(refusal) } else { Ok(()) }
}

/// Whether the coffer owns the page.
pub(crate) fn owns_page(asked: &Asked, id: u16, page: u64) -> bool
    ensures { result ≡ calls.owns_page asked.now.words id page }
{
    if u64::from(asked.words.pages()) <= page {
        return false;
    }
    asked.owners.owner(page as u32) == id
}

/// Whether the address is a word of a page of the coffer.
pub(crate) fn is_word_of(asked: &Asked, id: u16, addr: u64) -> bool
    ensures { result ≡ calls.is_word_of asked.now.words id addr }
{
    if addr % WORD_BYTES != 0 {
        return false;
    }
    owns_page(asked, id, addr / PAGE_BYTES)
}

/// The page of the first address that is no word of the coffer's.
pub(crate) fn bad_address_page(asked: &Asked, id: u16, addrs: &[u64]) -> Option<u64>
    ensures { result ≡ calls.bad_address_page asked.now.words id addrs.now }
{
    for &addr in addrs {
        if !is_word_of(asked, id, addr) {
            return Some(addr / PAGE_BYTES);
        }
    }
    None
}

/// How often each page is listed.
pub(crate) fn count_each(alloc: Global, pages: &[u32]) -> Result<HashMap<u32, u64>, AllocError>
    ensures { IfOk result (λ counts. (page : ℕ) → unwrap_or (get nat_eq counts page) 0 ≡ count_by (λ p. p == page) pages.now) }
{
    let mut counts = HashMap::new(alloc);
    for page in pages {
        *counts.entry(*page)?.or_insert(0) += 1;
    }
    Ok(counts)
}

/// How often the page is listed.
pub(crate) fn count_of(counts: &HashMap<u32, u64>, page: u32) -> u64
    ensures { result ≡ unwrap_or (get nat_eq counts.now page) 0 }
{
    counts.get(&page).copied().unwrap_or(0)
}

/// Whether the page, listed so many times, isn't the coffer's, is one of those that it keeps, or is
/// listed twice.
fn is_bad_page(asked: &Asked, id: u16, kept: &[u32], count: u64, page: u32) -> bool
    ensures { result ≡ (not (calls.owns_page asked.now.words id page) || list_any (λ p. p == page) kept.now || nat_lt 1 count) }
{
    let owned = owns_page(asked, id, u64::from(page));
    let is_kept = kept.contains(&page);
    !owned || is_kept || count > 1
}

/// The control page and the root page of a coffer, or 0 and 0 where there is no such coffer.
pub(crate) fn control_and_root(asked: &Asked, id: u16) -> [u32; 2]
    ensures { result ≡ calls.control_and_root asked.now.words id }
{
    match entry_of(asked.words(), id) {
        Some(root) => [root.control, root.root],
        None => [0, 0],
    }
}

/// The first listed page that isn't the coffer's, is one of those that it keeps, or is listed twice.
pub(crate) fn first_bad_page(
    alloc: Global,
    asked: &Asked,
    id: u16,
    kept: &[u32],
    pages: &[u32],
) -> Result<Option<u32>, AllocError>
    ensures { IfOk result (λ bad. bad ≡ find (calls.is_bad_page asked.now.words id kept.now pages.now) pages.now) }
{
    let counts = count_each(alloc, pages)?;
    for &page in pages {
        if is_bad_page(asked, id, kept, count_of(&counts, page), page) {
            return Ok(Some(page));
        }
    }
    Ok(None)
}

/// The addresses are words of the parent's, and the listed pages those of a coffer, none of them one
/// that it keeps, and none listed twice. Else `NotYours` with the first page that isn't so.
pub(crate) fn check_pages(
    alloc: Global,
    asked: &Asked,
    parent: u16,
    addrs: &[u64],
    id: u16,
    kept: &[u32],
    pages: &[u32],
) -> Result<(), KernAnswer>
    ensures { TellsFirstDue (calls.pages_refused asked.now.words parent addrs.now id kept.now pages.now ∷ []) result }
{
    if let Some(page) = bad_address_page(asked, parent, addrs) {
        return Err(KernAnswer::NotYours(page));
    }
    match first_bad_page(alloc, asked, id, kept, pages) {
        Ok(None) => Ok(()),
        Ok(Some(page)) => Err(KernAnswer::NotYours(u64::from(page))),
        Err(_) => Err(KernAnswer::NoMemory),
    }
}

/// Whether the tick of a lease, which is its bits 32 to 63, lies before this one. 0 is no lease.
fn is_expired(tick: u32, lease: u64) -> bool
    ensures { result ≡ (not (lease == 0) && nat_lt (lease / 2 ^ 32) tick) }
{
    lease != 0 && lease >> 32 < u64::from(tick)
}

/// The guard's word is the one that is given, and no lease that has expired.
pub(crate) fn check_guard(asked: &Asked, guard: Guard) -> Result<(), KernAnswer>
    requires { IsAddress (length asked.now.words) guard.addr }
    ensures { TellsFirstDue (calls.guard_refused asked.now.words asked.now.tick (guard_of guard) ∷ []) result }
{
    let addr = guard.addr;
    let word = asked.words().load(addr);
    let fails = word != guard.word || is_expired(asked.tick, word);
    refuse_where(fails, KernAnswer::GuardFailed { addr, word })
}

/// The link's word is the one that is given.
pub(crate) fn check_link(asked: &Asked, link: Link) -> Result<(), KernAnswer>
    requires { IsAddress (length asked.now.words) link.addr }
    ensures { TellsFirstDue (calls.link_refused asked.now.words (link_of link) ∷ []) result }
{
    let addr = link.addr;
    let word = asked.words().load(addr);
    refuse_where(word != link.old, KernAnswer::LinkDiffers { addr, word })
}

/// The link's and the guard's words are in pages of the parent's, the listed pages are as in
/// `check_pages`, and both words are the ones that are given.
pub(crate) fn check_linking(
    alloc: Global,
    asked: &Asked,
    parent: u16,
    linking: Linking,
    id: u16,
    kept: &[u32],
    pages: &[u32],
) -> Result<(), KernAnswer>
    ensures { TellsFirstDue (linking_refusals asked.now.words asked.now.tick parent linking id kept.now pages.now) result }
{
    let addrs = [linking.link.addr, linking.guard.addr];
    check_pages(alloc, asked, parent, &addrs, id, kept, pages)?;
    check_guard(asked, linking.guard)?;
    check_link(asked, linking.link)
}

/// Whether the path of a new coffer is bad: it is `/`, or has over 440 bytes, or its directory lies in
/// another coffer than the parent.
pub(crate) fn is_bad_new_path(asked: &Asked, parent: u16, path: &Path) -> bool
    requires { calls.IsPathText path.now }
    ensures { result ≡ calls.is_bad_new_path asked.now.words parent path.now }
{
    let len = path.as_bytes().len();
    if len < 2 || MOST_PATH_BYTES < len {
        return true;
    }
    // What lies above a path is what its directory lies in.
    above(asked.words(), path) != Some(parent)
}

/// Whether the parent is the coffer that a coffer lies directly under.
fn is_parent(alloc: Global, asked: &Asked, id: u16, parent: u16) -> Result<bool, RootsFault>
    ensures ok { IfOk result (λ is. is ≡ is_coffer parent (coffer_above (coffers asked.now.words) (calls.named asked.now.words id).path)) }
    ensures err { IfErr result (IsRefused (coffer_with (coffers asked.now.words) id)) }
{
    let path = path_of(alloc, asked.words(), id)?;
    Ok(above(asked.words(), &path) == Some(parent))
}

/// Whether coffers lie directly under a coffer.
fn has_children(alloc: Global, asked: &Asked, id: u16) -> Result<bool, RootsFault>
    ensures ok { IfOk result (λ any. any ≡ calls.has_children asked.now.words id) }
    ensures err { IfErr result (IsRefused (coffer_with (coffers asked.now.words) id)) }
{
    let ids = children(alloc, asked.words(), id)?;
    Ok(!ids.is_empty())
}

/// What is answered where the coffer table gives none.
pub(crate) fn refusal_of(fault: RootsFault) -> KernAnswer
    ensures { result ≡ refusal_of fault }
{
    match fault {
        RootsFault::Taken => KernAnswer::Taken,
        RootsFault::TooMany => KernAnswer::TooMany,
        RootsFault::NoCoffer => KernAnswer::NoCoffer,
        RootsFault::NoMemory => KernAnswer::NoMemory,
    }
}

/// A coffer may leave the parent that it lies directly under: the caller has the right Own on it, holds
/// it as its owner, for itself alone, and holds the parent for writing; and no coffer lies under it.
pub(crate) fn check_leaving(
    alloc: Global,
    asked: &Asked,
    id: u16,
    parent: u16,
) -> Result<(), KernAnswer>
    ensures { (callers : Callers) → HasCred callers asked.now → TellsFirstDue (calls.owner_refused callers asked.now.words asked.now.thread id
        ++ (calls.refused_where (not (calls.holds_both asked.now.words asked.now.holders asked.now.thread id parent)) answer.NotHeld
        ∷ calls.refused_where (calls.has_children asked.now.words id) answer.NotEmptyList ∷ [])) result }
{
    owned(asked, id)?;
    let under = is_parent(alloc, asked, id, parent).map_err(refusal_of)?;
    let own = asked.holds_as_owner(id);
    let writes = asked.holds_for_writing(parent);
    refuse_where(!(own && under && writes), KernAnswer::NotHeld)?;
    let any = has_children(alloc, asked, id).map_err(refusal_of)?;
    refuse_where(any, KernAnswer::NotEmptyList)
}
