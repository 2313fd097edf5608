// Why a run stops before its end.
ghost use Rattle.std.specs.Prelude.{◌≡◌};
ghost use Rattle.tr_top.specs.Ending.{stop_for};
ghost use Rattle.tr_top.specs.declared.stop.Stop.TheVariants.{NoMemory, OutFailed};

use std::alloc::AllocError;
use thiserror::Error;
use tr_core::CoreFault;
use tr_outside::WriteFault;

/// Why a run stops before its end.
#[derive(Clone, Copy, Debug, PartialEq, Eq, Error)]
pub(crate) enum Stop {
    /// The trace has no room for the entry that is due.
    #[error("the trace is full")]
    Full,
    #[error("no memory")]
    NoMemory,
    /// `out` failed.
    #[error("a write failed")]
    OutFailed,
}

impl From<AllocError> for Stop {
    ghost from_gives = { λ _ stop. stop ≡ NoMemory };

    fn from(_: AllocError) -> Stop {
        Stop::NoMemory
    }
}

impl From<WriteFault> for Stop {
    ghost from_gives = { λ _ stop. stop ≡ OutFailed };

    fn from(_: WriteFault) -> Stop {
        Stop::OutFailed
    }
}

/// A script names no thread that wasn't started, and gives no call within another, so that no other fault comes than a
/// full trace and want of memory.
impl From<CoreFault> for Stop {
    ghost from_gives = { λ fault stop. stop ≡ stop_for fault };

    fn from(fault: CoreFault) -> Stop {
        match fault {
            CoreFault::Full => Stop::Full,
            _ => Stop::NoMemory,
        }
    }
}
