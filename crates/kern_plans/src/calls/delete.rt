// A coffer goes.
ghost use Rattle.std.specs.Prelude.{◌≡◌, ◌<◌, ◌≤◌, ◌++◌, [], ◌∷◌, IfOk};
ghost use Rattle.kern_model.specs.KernelCalls.{Callers};
ghost use Rattle.kern_model.specs.KernelCalls as calls;
ghost use Rattle.kern_plans.specs.Plans.{Plans};
ghost use Rattle.kern_plans.specs.Asked.{HasCred};
ghost use Rattle.kern_model.specs.Kernel.{coffer_pages};
ghost use Rattle.kern_plans.specs.Links.{link_of, guard_of};
ghost use Rattle.kern_plans.specs.Refusals.{TellsFirstDue};

use crate::asked::Asked;
use crate::checks::{check_leaving, check_linking, refusal_of};
use crate::giving::pass_pages;
use crate::linking::{Link, Linking};
use crate::planned::Planned;
use kern_model::NOBODY;
use kern_roots::drop_entry;
use std::alloc::{AllocError, Global};
use tr_types::KernAnswer;

/// A coffer goes: its pages are free, and the link is stored.
pub fn delete(
    alloc: Global,
    asked: &Asked,
    id: u16,
    parent: u16,
    link: (u64, u64, u64),
    guard: (u64, u64),
) -> Result<Planned, KernAnswer>
    ensures { (callers : Callers) → HasCred callers asked.now
        → Plans (calls.delete_row callers asked.now.words asked.now.holders asked.now.thread asked.now.tick id parent link guard) result }
{
    let linking = Linking::new(link, guard);
    check_delete(alloc, asked, id, parent, linking)?;
    let dropped = drop_entry(alloc, asked.words(), id).map_err(refusal_of)?;
    match delete_pairs(alloc, asked, id, dropped.as_slice(), linking.link) {
        Ok(pairs) => Ok(Planned {
            answer: KernAnswer::Done,
            granted: Vec::new(alloc),
            pairs,
        }),
        Err(_) => Err(KernAnswer::NoMemory),
    }
}

// The coffer may leave its parent, and both the link's and the guard's words are in pages of the parent's
// and the ones that are given.
fn check_delete(
    alloc: Global,
    asked: &Asked,
    id: u16,
    parent: u16,
    linking: Linking,
) -> Result<(), KernAnswer>
    ensures { (callers : Callers) → HasCred callers asked.now
        → TellsFirstDue (calls.delete_row callers asked.now.words asked.now.holders asked.now.thread asked.now.tick id parent (link_of linking.link) (guard_of linking.guard)).refusals result }
{
    check_leaving(alloc, asked, id, parent)?;
    check_linking(alloc, asked, parent, linking, parent, &[], &[])
}

// The pairs of a Delete: the coffer's pages become nobody's, its entry is dropped by `dropped`, and the
// link is stored.
fn delete_pairs(
    alloc: Global,
    asked: &Asked,
    id: u16,
    dropped: &[(u64, u64)],
    link: Link,
) -> Result<Vec<(u64, u64)>, AllocError>
    requires { id ≤ 256 }
    ensures { IfOk result (λ pairs. pairs.items ≡ calls.owner_pairs asked.now.words 0 (coffer_pages asked.now.words id) ++ (dropped.now ++ calls.link_pair (link_of link) ∷ [])) }
{
    let pages = asked.pages_of(id)?;
    let mut pairs = Vec::new(alloc);
    pass_pages(&mut pairs, asked.words(), &pages, NOBODY)?;
    pairs.extend_from_slice(dropped)?;
    pairs.push(link.pair())?;
    Ok(pairs)
}
