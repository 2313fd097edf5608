// Why a core refuses what it is asked.
ghost use Rattle.std.specs.Prelude.{◌≡◌};
ghost use Rattle.tr_core.specs.declared.fault.CoreFault.TheVariants.{NoMemory};

use std::alloc::AllocError;
use thiserror::Error;

/// Why a call of a core is refused. Each but `NoMemory` leaves the core as it was.
#[derive(Clone, Copy, Debug, PartialEq, Eq, Error)]
pub enum CoreFault {
    #[error("the thread or process was never started")]
    NoThread,
    #[error("the thread has no call")]
    Idle,
    #[error("the thread has a call")]
    Running,
    /// The trace has no room for a further entry.
    #[error("the trace is full")]
    Full,
    /// From then on each call that can fail fails so.
    #[error("no memory")]
    NoMemory,
}

impl From<AllocError> for CoreFault {
    ghost from_gives = { λ _ fault. fault ≡ NoMemory };

    fn from(_: AllocError) -> CoreFault {
        CoreFault::NoMemory
    }
}
