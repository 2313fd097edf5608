// Where and why the reading of a text stopped.
ghost use Rattle.std.specs.Prelude.{◌≤◌};

use std::alloc::{AllocError, AllocFailed};

/// A place in a text: its line and its byte column, both counted from 1.
#[derive(Clone, Copy, PartialEq, Eq, PartialOrd, Ord)]
pub struct Place {
    pub line: u32,
    pub column: u32,
    ghost line_from_1: { 1 ≤ line },
    ghost column_from_1: { 1 ≤ column },
}

/// Why reading stopped.
#[derive(Drop)]
pub enum Fault {
    /// The word that stands or is missing there can't be so.
    Bad(Place),
    NoMemory,
}

impl From<AllocError> for Fault {
    ghost use Rattle.std.specs.Prelude.{◌≡◌};
    ghost use Rattle.tr_script.specs.declared.reader.place.Fault.TheVariants.{NoMemory};

    ghost from_gives = { λ _ e. e ≡ NoMemory };

    fn from(_e: AllocError) -> Fault {
        Fault::NoMemory
    }
}

impl<T: Drop> From<AllocFailed<T>> for Fault {
    ghost use Rattle.std.specs.Prelude.{◌≡◌};
    ghost use Rattle.tr_script.specs.declared.reader.place.Fault.TheVariants.{NoMemory};

    ghost from_gives = { λ _ e. e ≡ NoMemory };

    fn from(_e: AllocFailed<T>) -> Fault {
        Fault::NoMemory
    }
}
