// The word of a lease.
ghost use Rattle.std.specs.Prelude.{◌≡◌, ◌<◌, ◌≤◌, ◌^◌};
ghost use Rattle.zo_lease.specs.Words as spec;

use crate::place::Bidder;

/// Ticks for which a lease is taken.
const LASTS: u32 = 1000;

/// The last tick of the clock: a lease that is taken then still has an expiry.
pub const LAST_TICK: u32 = 4_294_966_295;

/// Tries for one lease, at most.
pub const TRIES: u8 = 16;

/// The lowest bit of the tick at which a lease expires.
const EXPIRY_SHIFT: u32 = 32;

/// Above the bits of the holder's number.
const HOLDERS: u64 = 1 << 16;

/// The word of a lease: the number of the thread that holds it, and 1 more, in bits 0 to 15, and in bits 32 to 63 the last tick
/// at which it holds. 0 is a free lease.
#[derive(Clone, Copy, Debug, PartialEq, Eq)]
pub struct LeaseWord(pub u64);

impl LeaseWord {
    /// The word that this thread puts there to hold the lease up to this tick.
    pub fn of(thread: u16, expiry: u32) -> LeaseWord
        requires { thread < 256 }
        ensures { result.0 ≡ spec.lease_word thread expiry }
    {
        LeaseWord((u64::from(expiry) << EXPIRY_SHIFT) + u64::from(thread) + 1)
    }

    /// The word by which a thread takes a lease, where its last action before was made at this tick.
    pub(crate) fn taken(bidder: Bidder, now: u32) -> LeaseWord
        requires clock { now ≤ spec.last_tick }
        ensures { result.0 ≡ spec.own_word bidder.thread now }
    {
        LeaseWord::of(bidder.thread, now + LASTS)
    }

    /// The thread that holds the lease, none where it is free.
    pub fn holder(self) -> Option<u16>
        ensures { result ≡ spec.holder_of self.0 }
    {
        ((self.0 % HOLDERS) as u16).checked_sub(1)
    }

    /// Whether the lease holds no longer at this tick.
    pub fn expired(self, now: u32) -> bool
        ensures { result ≡ spec.is_expired self.0 now }
    {
        self.0 >> EXPIRY_SHIFT < u64::from(now)
    }

    /// Whether the lease can be taken at this tick: it is free, or has expired.
    pub(crate) fn is_open(self, now: u32) -> bool
        ensures { result ≡ spec.is_open self.0 now }
    {
        self.0 == 0 || self.expired(now)
    }
}

/// Whether a lease that shows `word` is the one of this own word, and holds still.
pub fn is_kept(own: u64, word: u64, now: u32) -> bool
    ensures { result ≡ spec.is_kept own word now }
{
    word == own && !LeaseWord(word).expired(now)
}
