// A lease that a call holds, and what a load of it shows.
ghost use Rattle.std.specs.Prelude.{◌<◌, ◌^◌};

use tr_types::Answer;
use zo_lease::{LeaseAt, is_kept};

/// A lease that a call holds: a directory's, or a coffer's. Behind its word lie the word in which its holder notes the address
/// of a commit word, and the counter by which readers see that something has changed.
#[derive(Clone, Copy, Debug, PartialEq, Eq)]
pub struct Held {
    /// The address of the lease's word.
    pub lease: u64,
    /// The word that the call has put there. Its bits 32 to 63 are the last tick at which it counts.
    pub own: u64,
    ghost near: { lease < 2 ^ 60 },
}

impl Held {
    ghost use Rattle.std.specs.Prelude.{◌≡◌};
    ghost use Rattle.zo_lease.specs.Words.{noted_word, counter_word};
    ghost use Rattle.zo_plan.specs.Leases.{is_shown};

    /// The address of the word for the note of its holder.
    pub fn at(self) -> u64
        ensures { result ≡ noted_word self.lease }
    {
        self.place().noted_word()
    }

    /// The address of its counter.
    pub fn counter(self) -> u64
        ensures { result ≡ counter_word self.lease }
    {
        self.place().counter_word()
    }

    fn place(self) -> LeaseAt
        ensures { result.addr ≡ self.lease }
    {
        LeaseAt { addr: self.lease }
    }

    /// Whether a load of the lease, answered so at tick `now`, shows the call's own word, not expired.
    pub fn is_shown(self, answer: &Answer, now: u32) -> bool
        ensures { result ≡ is_shown self answer.now now }
    {
        match answer {
            Answer::Word(word) => is_kept(self.own, *word, now),
            _ => false,
        }
    }
}
