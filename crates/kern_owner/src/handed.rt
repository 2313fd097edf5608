// What is handed out: pairs of words, granted pages, and why none are.
ghost use Rattle.std.specs.Prelude.{◌≡◌};
ghost use Rattle.kern_owner.specs.declared.handed.OwnerFault.TheVariants.{NoMemory};

use sqlite_items::Items;
use std::alloc::AllocError;
use std::marker::Model;
use thiserror::Error;

/// Words to store, each by its byte address, in order of address.
pub type Pairs = Items<(u64, u64)>;

/// Pages for a coffer, by their numbers, the least first, and what makes them the coffer's.
#[derive(Debug, Drop)]
pub struct Grant {
    pub pages: Vec<u32>,
    pub pairs: Pairs,
}

impl Model for Grant {
    ghost use Rattle.kern_owner.specs.Owners.{Granted};

    ghost Value = { Granted };

    ghost view = { λ g. record { pages = g.pages.items; pairs = g.pairs } };
}

/// Why no pages are given.
#[derive(Clone, Copy, Debug, PartialEq, Eq, Error)]
pub enum OwnerFault {
    /// So many pages were asked for, and only so many are free.
    #[error("{asked} pages asked for, {free} free")]
    NoPages { asked: u32, free: u32 },
    #[error("out of memory")]
    NoMemory,
}

impl From<AllocError> for OwnerFault {
    ghost from_gives = { λ _ fault. fault ≡ NoMemory };

    fn from(_: AllocError) -> OwnerFault {
        OwnerFault::NoMemory
    }
}
