// Who calls, in which coffer, and where its leases stand.
ghost use Rattle.std.specs.Prelude.{◌<◌, ◌^◌};

use tr_types::Mapped;
use zo_layout::{dir_lease, page_at, pool_head, pool_lease};
use zo_lease::{LeaseAt, TRIES};

/// Pools of a coffer: each thread draws from one of them.
const POOLS: u16 = 8;

/// A thread that calls, and the coffer that it has mapped.
#[derive(Clone, Copy, Debug)]
pub(crate) struct Caller {
    pub(crate) mapped: Mapped,
    pub(crate) thread: u16,
    ghost known: { thread < 256 },
}

/// How many tries for a lease have failed: fewer than all that a call may make.
#[derive(Clone, Copy, Debug)]
pub(crate) struct Tries {
    pub(crate) failed: u8,
    ghost few: { failed < 16 },
}

impl Caller {
    ghost use Rattle.std.specs.Prelude.{◌≡◌, ◌↔◌, ◌⊎◌, ◌%◌, IsTrue};
    ghost use Rattle.zo_calls.specs.Places as spec;

    /// The address of the coffer's control page.
    pub(crate) fn control(&self) -> u64
        ensures is { result ≡ spec.control_of self.now }
        ensures near { result < 2 ^ 60 }
    {
        page_at(self.mapped.control)
    }

    /// The lease of the root directory.
    pub(crate) fn dir_lease(&self) -> LeaseAt
        ensures { result.addr ≡ spec.dir_lease_of self.now }
    {
        LeaseAt {
            addr: dir_lease(page_at(self.mapped.root)),
        }
    }

    /// The lease of the pool from which this thread draws.
    pub(crate) fn pool_lease(&self) -> LeaseAt
        ensures { result.addr ≡ spec.pool_lease_of self.now }
    {
        LeaseAt {
            addr: pool_lease(self.control(), self.pool()),
        }
    }

    /// The address of that pool's head.
    pub(crate) fn pool_head(&self) -> u64
        ensures { result ≡ spec.pool_head_of self.now }
    {
        pool_head(self.control(), self.pool())
    }

    fn pool(&self) -> u8
        ensures is { result ≡ self.now.thread % 8 }
        ensures few { result < 8 }
    {
        (self.thread % POOLS) as u8
    }

    /// Whether the call stands on the page of this number: the root directory's, or the control page.
    pub(crate) fn stands_on(&self, page: u32) -> bool
        ensures { IsTrue result ↔ ((page ≡ self.now.mapped.root) ⊎ (page ≡ self.now.mapped.control)) }
    {
        page == self.mapped.root || page == self.mapped.control
    }
}

impl Tries {
    ghost use Rattle.std.specs.Prelude.{◌≡◌, ◌+◌, MatchOption};

    pub(crate) fn none() -> Tries
        ensures { result.failed ≡ 0 }
    {
        Tries { failed: 0 }
    }

    /// So many have failed, of a machine that goes on.
    pub(crate) fn of(failed: u8) -> Tries
        ensures { failed < 16 → result.failed ≡ failed }
    {
        if failed < TRIES {
            Tries { failed }
        } else {
            Tries { failed: TRIES - 1 }
        }
    }

    /// One more has failed, unless it was the last.
    pub(crate) fn and_one(self) -> Option<Tries>
        ensures { MatchOption result (self.failed ≡ 15) (λ tries. tries.failed ≡ self.failed + 1) }
    {
        if self.failed < TRIES - 1 {
            Some(Tries {
                failed: self.failed + 1,
            })
        } else {
            None
        }
    }
}
