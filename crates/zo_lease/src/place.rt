// Where a lease stands, and who wants it.
ghost use Rattle.std.specs.Prelude.{◌≡◌, ◌<◌, ◌^◌};
ghost use Rattle.zo_lease.specs.Words as spec;

use zo_layout::word_of;

/// The address of a lease: so low that those of the words beside it don't wrap.
#[derive(Clone, Copy, Debug, PartialEq, Eq)]
pub struct LeaseAt {
    pub addr: u64,
    ghost near: { addr < 2 ^ 60 },
}

/// A thread that wants a lease, by its number.
#[derive(Clone, Copy, Debug)]
pub(crate) struct Bidder {
    pub(crate) thread: u16,
    ghost known: { thread < 256 },
}

impl LeaseAt {
    /// The address of the word in which the holder notes the address of its commit.
    pub fn noted_word(self) -> u64
        ensures { result ≡ spec.noted_word self.addr }
    {
        word_of(self.addr, 1)
    }

    /// The address of the counter beside the lease.
    pub fn counter_word(self) -> u64
        ensures { result ≡ spec.counter_word self.addr }
    {
        word_of(self.addr, 2)
    }

    /// The address of the head of a pool, if the lease is one's.
    pub(crate) fn head_word(self) -> u64
        ensures { result ≡ spec.head_word self.addr }
    {
        word_of(self.addr, 1)
    }
}
