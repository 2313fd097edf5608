// Why there is nothing to test.
use kern_calls::MountFault;
use kern_lines::LineFault;
use std::alloc::AllocError;
use thiserror::Error;

#[derive(Clone, Copy, Debug, PartialEq, Eq, Error)]
pub enum RowFault {
    #[error("a rule fails at {0}")]
    Unsound(u64),
    #[error("that is no line of a table")]
    NoLine,
    #[error("the thread was not started")]
    NoThread,
    #[error("out of memory")]
    NoMemory,
}

impl From<AllocError> for RowFault {
    fn from(_: AllocError) -> RowFault {
        RowFault::NoMemory
    }
}

impl From<LineFault> for RowFault {
    fn from(fault: LineFault) -> RowFault {
        match fault {
            LineFault::NoMemory => RowFault::NoMemory,
            _ => RowFault::NoLine,
        }
    }
}

impl From<MountFault> for RowFault {
    fn from(fault: MountFault) -> RowFault {
        match fault {
            MountFault::BadKernel(place) => RowFault::Unsound(place),
            MountFault::NoMemory => RowFault::NoMemory,
        }
    }
}
