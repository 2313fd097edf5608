// Taking the lease of a directory or of a control page.
ghost use Rattle.std.specs.Prelude.{◌≡◌, ◌<◌, ◌≤◌, ◌^◌};
ghost use Rattle.zo_lease.specs.Words.{last_tick};
ghost use Rattle.zo_lease.specs.Steps.{heard};
ghost use Rattle.zo_lease.specs.Bids.{bid_after};
ghost use Rattle.zo_lease.specs.Takes as spec;

use crate::bid::{Bid, Bidding, Holding, is_last_try};
use crate::mend::{Mend, Mending};
use crate::place::{Bidder, LeaseAt};
use crate::step::{End, Heard, LeaseStep};
use tr_types::Answer;

/// Takes a lease for a thread. `Won` tells the own word that stands there from then on. Where the lease had expired, what its last
/// holder has committed is durable by then.
#[derive(Debug, Drop)]
pub struct Take {
    lease: LeaseAt,
    bidder: Bidder,
    failed: u8,
    stage: Stage,
}

#[derive(Clone, Copy, Debug)]
enum Stage {
    Begin,
    Bidding(Bid),
    /// The lease is held, and had expired.
    Mending { mend: Mend, holding: Holding },
    Over { end: End, held: Option<u64> },
}

impl Stage {
    fn free(end: End) -> Stage
        ensures { result ≡ spec.over_free end }
    {
        Stage::Over { end, held: None }
    }

    fn held(end: End, holding: Holding) -> Stage
        ensures { result ≡ spec.over_held end holding }
    {
        Stage::Over {
            end,
            held: Some(holding.own),
        }
    }
}

impl Take {
    /// Takes the lease at `addr` for `thread`.
    pub fn begin(addr: u64, thread: u16) -> Take
        requires near { addr < 2 ^ 60 }
        requires thread { thread < 256 }
        ensures { spec.IsFirstTake addr thread 0 result }
    {
        Take::again(addr, thread, 0)
    }

    /// The same for a call of which so many tries on this lease have failed.
    pub fn again(addr: u64, thread: u16, failed: u8) -> Take
        requires near { addr < 2 ^ 60 }
        requires thread { thread < 256 }
        requires tries { failed < 16 }
        ensures { spec.IsFirstTake addr thread failed result }
    {
        Take {
            lease: LeaseAt { addr },
            bidder: Bidder { thread },
            failed,
            stage: Stage::Begin,
        }
    }

    /// How many tries have failed before the one at hand.
    pub fn failed(&self) -> u8
        ensures { result ≡ self.now.failed }
    {
        self.failed
    }

    /// The call's own word, once it stands in the lease.
    pub fn held(&self) -> Option<u64>
        ensures { result ≡ spec.take_held self.now.stage }
    {
        match self.stage {
            Stage::Begin | Stage::Bidding(_) => None,
            Stage::Mending { holding, .. } => Some(holding.own),
            Stage::Over { held, .. } => held,
        }
    }

    /// Goes on with the answer to the last action, which was made at this tick. The first call has no use for its answer. It takes
    /// no memory.
    pub fn next(&mut self, answer: &Answer, now: u32) -> LeaseStep
        requires clock { now ≤ last_tick }
        ensures goes { self.new ≡ spec.take_after self.old (heard answer.now) now }
        ensures step { result ≡ spec.take_step self.new }
    {
        match (self.stage, Heard::of(answer)) {
            (Stage::Begin, _) => self.stage = Stage::Bidding(Bid::Looking),
            (Stage::Bidding(bid), Heard::Word(word)) => self.bid(bid, word, now),
            (Stage::Bidding(_), _) => self.stage = Stage::free(End::Damaged(self.lease.addr)),
            (Stage::Mending { mend, holding }, heard) => self.mend(mend.after(heard), holding),
            (Stage::Over { .. }, _) => {}
        }
        self.step()
    }

    fn bid(&mut self, bid: Bid, word: u64, now: u32)
        requires clock { now ≤ last_tick }
        ensures { self.new ≡ spec.take_bid self.old (bid_after self.old.bidder.thread bid word now) word now }
    {
        match bid.after(self.bidder, word, now) {
            Bidding::On(bid) => self.stage = Stage::Bidding(bid),
            Bidding::Won(holding) if holding.found == 0 => {
                self.stage = Stage::held(holding.won(), holding);
            }
            Bidding::Won(holding) => {
                self.stage = Stage::Mending {
                    mend: Mend::Noted,
                    holding,
                };
            }
            Bidding::Failed if is_last_try(self.failed) => {
                let addr = self.lease.addr;
                self.stage = Stage::free(End::Busy { addr, word, now });
            }
            Bidding::Failed => {
                self.failed += 1;
                self.stage = Stage::Bidding(Bid::Looking);
            }
        }
    }

    fn mend(&mut self, mending: Mending, holding: Holding)
        ensures { self.new ≡ spec.take_mend self.old mending holding }
    {
        self.stage = match mending {
            Mending::On(mend) => Stage::Mending { mend, holding },
            Mending::Done => Stage::held(holding.won(), holding),
            Mending::Refused => { Stage::held(End::Damaged(self.lease.noted_word()), holding) }
        };
    }

    // What the stage gives.
    fn step(&self) -> LeaseStep
        ensures { result ≡ spec.take_step self.now }
    {
        match self.stage {
            Stage::Begin => Bid::Looking.step(self.lease.addr),
            Stage::Bidding(bid) => bid.step(self.lease.addr),
            Stage::Mending { mend, .. } => mend.step(self.lease),
            Stage::Over { end, .. } => end.step(),
        }
    }
}
