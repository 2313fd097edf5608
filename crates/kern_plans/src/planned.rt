// A call's plan.
ghost use Rattle.kern_model.specs.KernelCalls.{Row};
ghost use Rattle.kern_plans.specs.Plans.{Plans};
ghost use Rattle.kern_plans.specs.Stored.{OnlyStores};

use std::alloc::Global;
use std::marker::Model;
use tr_types::KernAnswer;

/// What a call does that isn't refused: its answer, the pages that it gives, which come zeroed, and the
/// words that it stores, each by its byte address, in the order of the row's text.
#[derive(Debug, Drop)]
pub struct Planned {
    pub answer: KernAnswer,
    pub granted: Vec<u32>,
    pub pairs: Vec<(u64, u64)>,
}

impl Model for Planned {
    ghost use Rattle.kern_plans.specs.Plans.{Plan};

    ghost Value = { Plan };

    ghost view = { λ p. record { answer = p.answer; granted = p.granted.items; pairs = p.pairs.items } };
}

/// The plan of a call that only stores words.
pub(crate) fn stores(alloc: Global, pairs: &[(u64, u64)]) -> Result<Planned, KernAnswer>
    ensures { (row : Row) → OnlyStores row pairs.now → Plans row result }
{
    match Vec::from_slice(alloc, pairs) {
        Ok(pairs) => Ok(Planned {
            answer: KernAnswer::Done,
            granted: Vec::new(alloc),
            pairs,
        }),
        Err(_) => Err(KernAnswer::NoMemory),
    }
}
