// A coffer is split off another.
ghost use Rattle.std.specs.Prelude.{◌≡◌, ◌<◌, length, ◌++◌, [], ◌∷◌, All, IfOk, OnOk};
ghost use Rattle.kern_model.specs.KernelCalls.{Callers, IsPathText};
ghost use Rattle.kern_model.specs.KernelCalls as calls;
ghost use Rattle.kern_plans.specs.Plans.{Plans};
ghost use Rattle.kern_plans.specs.Asked.{HasCred};
ghost use Rattle.kern_model.specs.KernelView.{pages_of};
ghost use Rattle.kern_plans.specs.Links.{link_of};
ghost use Rattle.kern_plans.specs.Refusals.{TellsFirstDue, entry_refusals, piece_refusals};
ghost use Rattle.kern_plans.specs.Stored.{piece_pairs, piece_plan};

use crate::asked::Asked;
use crate::checks::{check_linking, is_bad_new_path, refuse_where};
use crate::giving::{page_of, pass_pages};
use crate::linking::{Link, Linking};
use crate::naming::new_entry;
use crate::owning::held_and_owned;
use crate::planned::Planned;
use kern_roots::{Root, RootState};
use pm_words::Words;
use std::alloc::{AllocError, Global};
use tr_types::{KernAnswer, Pages, Path, Perm};
use zo_layout::{page_at, page_kind, word_of};

/// What the kind of a directory is.
const DIRECTORY: u64 = 0;

/// Listed pages of a coffer become a coffer of their own, with the same owner and group and this mode.
pub fn split(
    alloc: Global,
    asked: &Asked,
    id: u16,
    path: &Path,
    pages: &Pages,
    mode: u16,
    link: (u64, u64, u64),
    guard: (u64, u64),
) -> Result<Planned, KernAnswer>
    requires path { IsPathText path.now }
    requires pages { 0 < length pages.now }
    ensures { (callers : Callers) → HasCred callers asked.now
        → Plans (calls.split_row callers asked.now.words asked.now.holders asked.now.thread asked.now.tick id path.now pages.now mode link guard) result }
{
    let whole = held_and_owned(asked, id)?;
    if whole.perm.mode == mode {
        return Ok(Planned {
            answer: KernAnswer::Same,
            granted: Vec::new(alloc),
            pairs: Vec::new(alloc),
        });
    }
    let pages = pages.as_slice();
    let linking = Linking::new(link, guard);
    check_piece(alloc, asked, id, &whole, path, pages, linking)?;
    let perm = Perm { mode, ..whole.perm };
    piece(alloc, asked, path, perm, pages, linking.link)
}

// What refuses a split before it is tried whether there is room for a new coffer: its path, and the
// pages, the guard and the link, where the root page and the control page of the whole stay.
fn check_piece(
    alloc: Global,
    asked: &Asked,
    id: u16,
    whole: &Root,
    path: &Path,
    pages: &[u32],
    linking: Linking,
) -> Result<(), KernAnswer>
    requires { calls.IsPathText path.now }
    ensures { TellsFirstDue (piece_refusals asked.now.words asked.now.tick id path.now (whole.now.control ∷ whole.now.root ∷ []) pages.now linking) result }
{
    refuse_where(is_bad_new_path(asked, id, path), KernAnswer::BadPath)?;
    let kept = [whole.control, whole.root];
    check_linking(alloc, asked, id, linking, id, &kept, pages)
}

// The plan by which the listed pages, and the least free page as the control page, become a coffer of
// this path and permission. `Taken`, `TooMany`, or `NoPages` where no page is free.
fn piece(
    alloc: Global,
    asked: &Asked,
    path: &Path,
    perm: Perm,
    pages: &[u32],
    link: Link,
) -> Result<Planned, KernAnswer>
    requires listed { All (λ page. page < pages_of asked.now.words) pages.now }
    requires some { 0 < length pages.now }
    ensures refused { TellsFirstDue (entry_refusals asked.now.words path.now ++ calls.pages_short asked.now.words 1 ∷ []) result }
    ensures plan { IfOk result (λ plan. plan ≡ piece_plan asked.now.words path.now perm pages.now (link_of link)) }
{
    let Ok(granted) = asked.first_free(1) else {
        return Err(KernAnswer::NoMemory);
    };
    let root = Root {
        perm,
        state: RootState::Standing,
        kind: 0,
        control: page_of(&granted, 0),
        root: page_of(pages, 0),
    };
    let words = asked.words();
    let (id, added) = new_entry(alloc, words, path, &root)?;
    if granted.is_empty() {
        return Err(KernAnswer::NoPages { asked: 1, free: 0 });
    }
    match piece_pairs(alloc, words, id, pages, &granted, added.as_slice(), link) {
        Ok(pairs) => Ok(Planned {
            answer: KernAnswer::Made(id),
            granted,
            pairs,
        }),
        Err(_) => Err(KernAnswer::NoMemory),
    }
}

// The words that are stored where a coffer of this number is split off, with these words of its entry.
fn piece_pairs(
    alloc: Global,
    words: &Words,
    id: u16,
    pages: &[u32],
    granted: &[u32],
    added: &[(u64, u64)],
    link: Link,
) -> Result<Vec<(u64, u64)>, AllocError>
    requires listed { All (λ page. page < pages_of words.now) pages.now }
    requires some { 0 < length pages.now }
    requires free { All (λ page. page < pages_of words.now) granted.now }
    ensures { IfOk result (λ pairs. pairs.items ≡ piece_pairs words.now id pages.now granted.now added.now (link_of link)) }
{
    let mut pairs = Vec::new(alloc);
    pass_pages(&mut pairs, words, pages, id)?;
    pass_pages(&mut pairs, words, granted, id)?;
    pairs.extend_from_slice(added)?;
    clear_directory(&mut pairs, words, page_of(pages, 0))?;
    pairs.push(link.pair())?;
    Ok(pairs)
}

// Adds zeros for words 1 to 3 of a directory's page, and nothing for one of another kind.
fn clear_directory(pairs: &mut Vec<(u64, u64)>, words: &Words, page: u32) -> Result<(), AllocError>
    requires { page < pages_of words.now }
    ensures { OnOk result (pairs.new.items ≡ pairs.old.items ++ calls.cleared_words words.now page) }
{
    let start = page_at(page);
    if words.load(page_kind(start)) != DIRECTORY {
        return Ok(());
    }
    pairs.extend_from_slice(&[
        (word_of(start, 1), 0),
        (word_of(start, 2), 0),
        (word_of(start, 3), 0),
    ])?;
    Ok(())
}
