// Why a line is no call.
use std::alloc::AllocError;
use thiserror::Error;

#[derive(Clone, Copy, Debug, PartialEq, Eq, Error)]
pub enum LineFault {
    #[error("that is no path")]
    NoPath,
    #[error("that is no line of a table")]
    NoLine,
    #[error("out of memory")]
    NoMemory,
}

impl From<AllocError> for LineFault {
    fn from(_: AllocError) -> LineFault {
        LineFault::NoMemory
    }
}
