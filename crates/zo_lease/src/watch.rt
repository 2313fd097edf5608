// Watching a lease without taking it.
ghost use Rattle.std.specs.Prelude.{◌≡◌, ◌<◌, ◌^◌};
ghost use Rattle.zo_lease.specs.Steps.{heard};
ghost use Rattle.zo_lease.specs.Mends.{mend_after};
ghost use Rattle.zo_lease.specs.Watches as spec;

use crate::bid::is_last_try;
use crate::mend::{Mend, Mending};
use crate::place::LeaseAt;
use crate::step::{End, Heard, LeaseStep, load};
use crate::word::LeaseWord;
use tr_types::Answer;

/// Watches the lease of a directory or of a control page, for a call that reads: it looks at the counter and then at the lease,
/// until that can be taken. `Won` tells the counter, and the lease as it was found: 0, or a word that had expired; then what its last
/// holder has committed is durable.
#[derive(Debug, Drop)]
pub struct Watch {
    lease: LeaseAt,
    failed: u8,
    stage: Stage,
}

#[derive(Clone, Copy, Debug)]
enum Stage {
    Begin,
    Counter,
    Lease { counter: u64 },
    /// The lease has expired.
    Mending { mend: Mend, seen: Seen },
    Over(End),
}

/// What was seen: the counter, and the lease behind it.
#[derive(Clone, Copy, Debug)]
struct Seen {
    counter: u64,
    found: u64,
}

impl Seen {
    fn won(self) -> End
        ensures { result ≡ spec.seen_end self }
    {
        End::Won {
            value: self.counter,
            found: self.found,
        }
    }
}

impl Watch {
    /// Watches the lease at `addr`.
    pub fn begin(addr: u64) -> Watch
        requires { addr < 2 ^ 60 }
        ensures { spec.IsFirstWatch addr 0 result }
    {
        Watch::again(addr, 0)
    }

    /// The same for a call of which so many tries on this lease have failed.
    pub fn again(addr: u64, failed: u8) -> Watch
        requires near { addr < 2 ^ 60 }
        requires tries { failed < 16 }
        ensures { spec.IsFirstWatch addr failed result }
    {
        Watch {
            lease: LeaseAt { addr },
            failed,
            stage: Stage::Begin,
        }
    }

    /// How many tries have failed before the one at hand.
    pub fn failed(&self) -> u8
        ensures { result ≡ self.now.failed }
    {
        self.failed
    }

    /// Goes on with the answer to the last action, which was made at this tick. The first call has no use for its answer. It takes
    /// no memory.
    pub fn next(&mut self, answer: &Answer, now: u32) -> LeaseStep
        ensures goes { self.new ≡ spec.watch_after self.old (heard answer.now) now }
        ensures step { result ≡ spec.watch_step self.new }
    {
        match (self.stage, Heard::of(answer)) {
            (Stage::Begin, _) => self.stage = Stage::Counter,
            (Stage::Counter, Heard::Word(counter)) => self.stage = Stage::Lease { counter },
            (Stage::Counter, _) => {
                self.stage = Stage::Over(End::Damaged(self.lease.counter_word()));
            }
            (Stage::Lease { counter }, Heard::Word(found)) => {
                self.look(Seen { counter, found }, now);
            }
            (Stage::Lease { .. }, _) => self.stage = Stage::Over(End::Damaged(self.lease.addr)),
            (Stage::Mending { mend, seen }, heard) => self.mend(mend.after(heard), seen),
            (Stage::Over(_), _) => {}
        }
        self.step()
    }

    fn look(&mut self, seen: Seen, now: u32)
        ensures { self.new ≡ spec.watch_look self.old seen now }
    {
        if seen.found == 0 {
            self.stage = Stage::Over(seen.won());
        } else if LeaseWord(seen.found).expired(now) {
            self.stage = Stage::Mending {
                mend: Mend::Noted,
                seen,
            };
        } else if is_last_try(self.failed) {
            self.stage = Stage::Over(End::Busy {
                addr: self.lease.addr,
                word: seen.found,
                now,
            });
        } else {
            self.failed += 1;
            self.stage = Stage::Counter;
        }
    }

    fn mend(&mut self, mending: Mending, seen: Seen)
        ensures { self.new ≡ spec.watch_mend self.old mending seen }
    {
        self.stage = match mending {
            Mending::On(mend) => Stage::Mending { mend, seen },
            Mending::Done => Stage::Over(seen.won()),
            Mending::Refused => Stage::Over(End::Damaged(self.lease.noted_word())),
        };
    }

    // What the stage gives.
    fn step(&self) -> LeaseStep
        ensures { result ≡ spec.watch_step self.now }
    {
        match self.stage {
            Stage::Begin | Stage::Counter => load(self.lease.counter_word()),
            Stage::Lease { .. } => load(self.lease.addr),
            Stage::Mending { mend, .. } => mend.step(self.lease),
            Stage::Over(end) => end.step(),
        }
    }
}
