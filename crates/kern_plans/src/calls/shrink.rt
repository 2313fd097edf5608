// A coffer gives pages back.
ghost use Rattle.std.specs.Prelude.{◌≡◌, IfOk, ◌<◌, All};
ghost use Rattle.kern_model.specs.KernelCalls as calls;
ghost use Rattle.kern_plans.specs.Plans.{Plans};
ghost use Rattle.kern_plans.specs.Links.{guard_of};
ghost use Rattle.kern_plans.specs.Refusals.{TellsFirstDue};
ghost use Rattle.kern_model.specs.KernelView.{pages_of};

use crate::asked::Asked;
use crate::checks::{check_guard, check_pages, control_and_root, refuse_where};
use crate::giving::pass_pages;
use crate::linking::Guard;
use crate::planned::Planned;
use kern_model::NOBODY;
use std::alloc::{AllocError, Global};
use tr_types::{KernAnswer, Pages};

/// Pages of the coffer become free. `NotHeld` where the caller doesn't hold it for writing; `NotYours`
/// with the first page that isn't the coffer's, of the guard's and the listed ones, where a listed one
/// mustn't be its control page or root page, nor stand twice; `GuardFailed`.
pub fn shrink(
    alloc: Global,
    asked: &Asked,
    id: u16,
    pages: &Pages,
    guard: (u64, u64),
) -> Result<Planned, KernAnswer>
    ensures { Plans (calls.shrink_row asked.now.words asked.now.holders asked.now.thread asked.now.tick id pages.now guard) result }
{
    let pages = pages.as_slice();
    let guard = Guard::new(guard);
    check_shrink(alloc, asked, id, pages, guard)?;
    match freed(alloc, asked, pages) {
        Ok(pairs) => Ok(Planned {
            answer: KernAnswer::Done,
            granted: Vec::new(alloc),
            pairs,
        }),
        Err(_) => Err(KernAnswer::NoMemory),
    }
}

// The caller holds the coffer for writing, the guard's word is in one of its pages, the listed pages are
// others of its pages, each listed once, and the guard's word is the one that is given.
fn check_shrink(
    alloc: Global,
    asked: &Asked,
    id: u16,
    pages: &[u32],
    guard: Guard,
) -> Result<(), KernAnswer>
    ensures { TellsFirstDue (calls.shrink_row asked.now.words asked.now.holders asked.now.thread asked.now.tick id pages.now (guard_of guard)).refusals result }
{
    let held = asked.holds_for_writing(id);
    refuse_where(!held, KernAnswer::NotHeld)?;
    let kept = control_and_root(asked, id);
    check_pages(alloc, asked, id, &[guard.addr], id, &kept, pages)?;
    check_guard(asked, guard)
}

// The pairs by which these pages become nobody's.
fn freed(alloc: Global, asked: &Asked, pages: &[u32]) -> Result<Vec<(u64, u64)>, AllocError>
    requires { All (λ page. page < pages_of asked.now.words) pages.now }
    ensures { IfOk result (λ pairs. pairs.items ≡ calls.owner_pairs asked.now.words 0 pages.now) }
{
    let mut pairs = Vec::new(alloc);
    pass_pages(&mut pairs, asked.words(), pages, NOBODY)?;
    Ok(pairs)
}
