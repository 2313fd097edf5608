// The recovery says how a coffer stands.
ghost use Rattle.kern_model.specs.KernelCalls as calls;
ghost use Rattle.kern_plans.specs.Plans.{Plans};

use crate::asked::Asked;
use crate::planned::{Planned, stores};
use kern_roots::{RootState, RootsFault, set_state};
use std::alloc::Global;
use tr_types::KernAnswer;

/// The number under which the recovery calls.
const RECOVERY: u16 = kern_model::NO_THREAD;

/// The coffer is ready, or quarantined. `NotHeld` to all but the recovery, `NoCoffer` where there is no
/// such coffer.
pub fn recover(alloc: Global, asked: &Asked, id: u16, ready: bool) -> Result<Planned, KernAnswer>
    ensures { Plans (calls.recover_row asked.now.words asked.now.holders asked.now.thread id ready) result }
{
    if asked.thread() != RECOVERY {
        return Err(KernAnswer::NotHeld);
    }
    let state = if ready {
        RootState::Standing
    } else {
        RootState::Quarantined
    };
    match set_state(alloc, asked.words(), id, state) {
        Ok(pairs) => stores(alloc, pairs.as_slice()),
        Err(RootsFault::NoCoffer) => Err(KernAnswer::NoCoffer),
        Err(_) => Err(KernAnswer::NoMemory),
    }
}
