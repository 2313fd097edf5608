// A coffer is given free pages.
ghost use Rattle.std.specs.Prelude.{◌≡◌, ◌≤◌, ◌==◌, ◌||◌, nat_lt, IfOk};
ghost use Rattle.kern_model.specs.KernelCalls as calls;
ghost use Rattle.kern_plans.specs.Plans.{Plans};
ghost use Rattle.kern_plans.specs.Stored.{plan_of};

use crate::asked::Asked;
use crate::giving::pass_pages;
use crate::planned::Planned;
use kern_model::MOST_GIVEN;
use sqlite_items::Items;
use std::alloc::{AllocError, Global};
use tr_types::{KernAnswer, Pages};

/// The least free pages, so many, become the coffer's. `NotHeld` where the caller doesn't hold it for
/// writing, `BadCount` where the count isn't 1 to 1,024, `NoPages` where fewer are free.
pub fn enlarge(alloc: Global, asked: &Asked, id: u16, count: u32) -> Result<Planned, KernAnswer>
    ensures { Plans (calls.enlarge_row asked.now.words asked.now.holders asked.now.thread id count) result }
{
    if !asked.holds_for_writing(id) {
        return Err(KernAnswer::NotHeld);
    }
    if is_bad_count(count) {
        return Err(KernAnswer::BadCount);
    }
    let free = asked.free();
    if free < count {
        return Err(KernAnswer::NoPages { asked: count, free });
    }
    match enlarged(alloc, asked, id, count) {
        Ok(plan) => Ok(plan),
        Err(_) => Err(KernAnswer::NoMemory),
    }
}

// Whether no call gives so many pages.
fn is_bad_count(count: u32) -> bool
    ensures { result ≡ ((count == 0) || nat_lt 1024 count) }
{
    count == 0 || MOST_GIVEN < count
}

// The plan that makes so many free pages the coffer's.
fn enlarged(alloc: Global, asked: &Asked, id: u16, count: u32) -> Result<Planned, AllocError>
    requires { count ≤ 1024 }
    ensures { IfOk result (λ plan. plan ≡ plan_of (calls.enlarge_row asked.now.words asked.now.holders asked.now.thread id count)) }
{
    let granted = asked.first_free(count)?;
    let mut pairs = Vec::new(alloc);
    pass_pages(&mut pairs, asked.words(), &granted, id)?;
    let answer = KernAnswer::Pages(Items::from_slice(alloc, &granted)?);
    Ok(Planned {
        answer,
        granted,
        pairs,
    })
}
