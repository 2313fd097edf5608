// A coffer gets another mode.
ghost use Rattle.kern_model.specs.KernelCalls.{Callers};
ghost use Rattle.kern_model.specs.KernelCalls as calls;
ghost use Rattle.kern_plans.specs.Plans.{Plans};
ghost use Rattle.kern_plans.specs.Asked.{HasCred};

use crate::asked::Asked;
use crate::owning::owned;
use crate::planned::{Planned, stores};
use kern_roots::set_perm;
use std::alloc::Global;
use tr_types::{KernAnswer, Perm};

/// The coffer has this mode. `NoCoffer` where there is none, `Denied` to all but its owner and uid 0,
/// `NotHeld` where the caller doesn't hold it exclusively as its owner.
pub fn mode(alloc: Global, asked: &Asked, id: u16, mode: u16) -> Result<Planned, KernAnswer>
    ensures { (callers : Callers) → HasCred callers asked.now → Plans (calls.mode_row callers asked.now.words asked.now.holders asked.now.thread id mode) result }
{
    let root = owned(asked, id)?;
    if !asked.holds_as_owner(id) {
        return Err(KernAnswer::NotHeld);
    }
    let perm = Perm { mode, ..root.perm };
    match set_perm(alloc, asked.words(), id, &perm) {
        Ok(pairs) => stores(alloc, pairs.as_slice()),
        Err(_) => Err(KernAnswer::NoMemory),
    }
}
