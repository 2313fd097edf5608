// Why the machine doesn't do what it is asked.
ghost use Rattle.std.specs.Prelude.{◌≡◌};
ghost use Rattle.bus_machine.specs.declared.fault.BusFault.TheVariants.{NoMemory};

use std::alloc::AllocError;
use thiserror::Error;

/// Why the machine doesn't do what it is asked. A fault leaves it as it was, but for want of memory.
#[derive(Clone, Copy, Debug, PartialEq, Eq, Error)]
pub enum BusFault {
    #[error("no such thread was started")]
    NoThread,
    #[error("no such process was started")]
    NoProcess,
    /// The number was started before.
    #[error("it was started before")]
    Started,
    /// The process has ended, or the thread's process; or the machine is down, and nothing can be started.
    #[error("it has ended, or the machine is down")]
    Dead,
    /// Memory ran out, in this call or an earlier one. Each later call answers the same.
    #[error("out of memory")]
    NoMemory,
}

impl From<AllocError> for BusFault {
    ghost from_gives = { λ _ r. r ≡ NoMemory };

    fn from(_: AllocError) -> BusFault {
        BusFault::NoMemory
    }
}
