// A new coffer comes.
ghost use Rattle.std.specs.Prelude.{◌≡◌, ◌<◌, ◌++◌, not, [], ◌∷◌, All, IfOk};
ghost use Rattle.kern_model.specs.KernelCalls.{Callers, IsPathText};
ghost use Rattle.kern_model.specs.KernelCalls as calls;
ghost use Rattle.kern_plans.specs.Plans.{Plans};
ghost use Rattle.kern_plans.specs.Asked.{HasCred};
ghost use Rattle.kern_model.specs.KernelView.{pages_of};
ghost use Rattle.tr_types.specs.declared.kernel_call.KernAnswer.TheVariants as answer;
ghost use Rattle.kern_plans.specs.Links.{link_of};
ghost use Rattle.kern_plans.specs.Refusals.{TellsFirstDue, entry_refusals, linking_refusals};
ghost use Rattle.kern_plans.specs.Stored.{fresh_pairs, fresh_plan};

use crate::asked::Asked;
use crate::checks::{check_linking, is_bad_new_path, refuse_where};
use crate::giving::{page_of, pass_pages};
use crate::linking::{Link, Linking};
use crate::naming::new_entry;
use crate::planned::Planned;
use kern_roots::{Root, RootState};
use pm_words::Words;
use std::alloc::{AllocError, Global};
use tr_types::{KernAnswer, Path, Perm};
use zo_layout::{page_at, page_kind};

/// The pages of a new coffer: its control page and its root page.
const NEW_PAGES: u32 = 2;

/// A new coffer of two pages, with the caller's uid and gid and this mode, linked in its parent.
pub fn new(
    alloc: Global,
    asked: &Asked,
    parent: u16,
    path: &Path,
    kind: u8,
    mode: u16,
    link: (u64, u64, u64),
    guard: (u64, u64),
) -> Result<Planned, KernAnswer>
    requires { IsPathText path.now }
    ensures { (callers : Callers) → HasCred callers asked.now
        → Plans (calls.new_row callers asked.now.words asked.now.holders asked.now.thread asked.now.tick parent path.now kind mode link guard) result }
{
    let linking = Linking::new(link, guard);
    check_new(alloc, asked, parent, path, linking)?;
    let cred = asked.cred();
    let perm = Perm {
        uid: cred.uid,
        gid: cred.gid,
        mode,
    };
    fresh(alloc, asked, path, perm, kind, linking.link)
}

// The caller holds the parent for writing, the path is one of a new coffer there, and both the link's and
// the guard's words are in pages of the parent's and the ones that are given.
fn check_new(
    alloc: Global,
    asked: &Asked,
    parent: u16,
    path: &Path,
    linking: Linking,
) -> Result<(), KernAnswer>
    requires { calls.IsPathText path.now }
    ensures { TellsFirstDue (calls.refused_where (not (calls.holds_for_writing asked.now.thread parent asked.now.holders)) answer.NotHeld
        ∷ calls.refused_where (calls.is_bad_new_path asked.now.words parent path.now) answer.BadPath
        ∷ linking_refusals asked.now.words asked.now.tick parent linking parent [] []) result }
{
    let held = asked.holds_for_writing(parent);
    refuse_where(!held, KernAnswer::NotHeld)?;
    let bad = is_bad_new_path(asked, parent, path);
    refuse_where(bad, KernAnswer::BadPath)?;
    check_linking(alloc, asked, parent, linking, parent, &[], &[])
}

// The plan by which the two least free pages, as the control page and the root page, become a coffer of
// this path and permission, whose root page is of this kind. `Taken`, `TooMany`, or `NoPages` where
// fewer are free.
fn fresh(
    alloc: Global,
    asked: &Asked,
    path: &Path,
    perm: Perm,
    kind: u8,
    link: Link,
) -> Result<Planned, KernAnswer>
    ensures refused { TellsFirstDue (entry_refusals asked.now.words path.now ++ calls.pages_short asked.now.words 2 ∷ []) result }
    ensures plan { IfOk result (λ plan. plan ≡ fresh_plan asked.now.words path.now perm kind (link_of link)) }
{
    let Ok(granted) = asked.first_free(NEW_PAGES) else {
        return Err(KernAnswer::NoMemory);
    };
    let root = Root {
        perm,
        state: RootState::Standing,
        kind: 0,
        control: page_of(&granted, 0),
        root: page_of(&granted, 1),
    };
    let words = asked.words();
    let (id, added) = new_entry(alloc, words, path, &root)?;
    let free = granted.len() as u32;
    if free < NEW_PAGES {
        return Err(KernAnswer::NoPages {
            asked: NEW_PAGES,
            free,
        });
    }
    match fresh_pairs(alloc, words, id, &granted, added.as_slice(), kind, link) {
        Ok(pairs) => Ok(Planned {
            answer: KernAnswer::Made(id),
            granted,
            pairs,
        }),
        Err(_) => Err(KernAnswer::NoMemory),
    }
}

// The words that are stored where a coffer of this number comes, with these words of its entry.
fn fresh_pairs(
    alloc: Global,
    words: &Words,
    id: u16,
    granted: &[u32],
    added: &[(u64, u64)],
    kind: u8,
    link: Link,
) -> Result<Vec<(u64, u64)>, AllocError>
    requires { All (λ page. page < pages_of words.now) granted.now }
    ensures { IfOk result (λ pairs. pairs.items ≡ fresh_pairs words.now id granted.now added.now kind (link_of link)) }
{
    let mut pairs = Vec::new(alloc);
    pass_pages(&mut pairs, words, granted, id)?;
    pairs.extend_from_slice(added)?;
    pairs.push((page_kind(page_at(page_of(granted, 1))), u64::from(kind)))?;
    pairs.push(link.pair())?;
    Ok(pairs)
}
