// One atomic step of a thread, and how the machine answers it.
use crate::{Kcall, KernAnswer};
use sqlite_items::Boxed;

/// What a thread does in one step. Addresses are in bytes.
#[derive(Debug, Drop)]
pub enum Action {
    Load(u64),
    /// An address and the new word.
    Store(u64, u64),
    Cas { addr: u64, old: u64, new: u64 },
    Flush(u64),
    Fence,
    Pkru(u32),
    Kernel(Boxed<Kcall>),
}

/// Why an access is refused: the page isn't mapped, is mapped for reading alone, or its key is closed.
#[derive(Clone, Copy, Debug, PartialEq, Eq)]
pub enum FaultKind {
    NotMapped,
    NotWritable,
    KeyDenied,
}

/// What the machine answers to an action.
#[derive(Debug, Drop)]
pub enum Answer {
    Word(u64),
    Done,
    Fault(FaultKind),
    Kern(Boxed<KernAnswer>),
}
