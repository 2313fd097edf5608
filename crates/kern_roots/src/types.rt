// What the calls on the coffer table take and answer.
ghost use Rattle.std.specs.Prelude.{◌≡◌};
ghost use Rattle.kern_roots.specs.Reading.{state_word, state_named};
ghost use Rattle.kern_roots.specs.declared.types.RootsFault.TheVariants.{NoMemory};

use sqlite_items::Items;
use std::alloc::AllocError;
use thiserror::Error;
use tr_types::Perm;

/// Words to be stored: the byte address of each, and the word that goes there.
pub type Pairs = Items<(u64, u64)>;

/// The coffer that a path lies in: whether the path is the coffer's own, and the length of the coffer's
/// path in bytes.
#[derive(Clone, Copy, Debug, PartialEq, Eq)]
pub struct Found {
    pub id: u16,
    pub exact: bool,
    pub path_len: u16,
}

/// The state of a coffer. One that isn't there has none.
#[derive(Clone, Copy, Debug, PartialEq, Eq)]
pub enum RootState {
    Standing,
    Quarantined,
}

impl RootState {
    /// The word by which an entry says it.
    pub(crate) fn word(self) -> u64
        ensures { result ≡ state_word self }
    {
        match self {
            RootState::Standing => 1,
            RootState::Quarantined => 2,
        }
    }

    /// The state that the word of a coffer's entry says.
    pub(crate) fn named(word: u64) -> RootState
        ensures { result ≡ state_named word }
    {
        if word == 2 {
            RootState::Quarantined
        } else {
            RootState::Standing
        }
    }
}

/// What a coffer's entry says, but its path. `control` and `root` are page numbers.
#[derive(Clone, Copy, Debug, PartialEq, Eq)]
pub struct Root {
    pub perm: Perm,
    pub state: RootState,
    pub kind: u8,
    pub control: u32,
    pub root: u32,
}

/// Why a call on the coffer table has no answer.
#[derive(Clone, Copy, Debug, PartialEq, Eq, Error)]
pub enum RootsFault {
    #[error("a coffer has this path")]
    Taken,
    #[error("there are 256 coffers")]
    TooMany,
    #[error("there is no such coffer")]
    NoCoffer,
    #[error("out of memory")]
    NoMemory,
}

impl From<AllocError> for RootsFault {
    ghost from_gives = { λ _ fault. fault ≡ NoMemory };

    fn from(_: AllocError) -> RootsFault {
        RootsFault::NoMemory
    }
}
