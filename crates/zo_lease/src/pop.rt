// Taking a page out of a pool.
ghost use Rattle.std.specs.Prelude.{◌≡◌, ◌<◌, ◌≤◌, ◌^◌};
ghost use Rattle.zo_lease.specs.Words.{last_tick};
ghost use Rattle.zo_lease.specs.Steps.{heard};
ghost use Rattle.zo_lease.specs.Bids.{bid_after};
ghost use Rattle.zo_lease.specs.Gives.{giving_after};
ghost use Rattle.zo_lease.specs.Pops as spec;

use crate::bid::{Bid, Bidding, Holding, is_last_try};
use crate::giving::{Gift, Given, Giving};
use crate::place::{Bidder, LeaseAt};
use crate::step::{End, Heard, LeaseStep, load, store};
use crate::word::is_kept;
use tr_types::{Answer, Mark};

/// Takes the first page out of a pool, under the pool's lease. `Won` tells the page's address, or 0 where the pool has none; the
/// lease is given back then. Where it ends otherwise the lease may still be held: `held` tells.
///
/// The pool's lease is looked at directly before the store to its head. A caller that holds further leases looks at these
/// before it makes that store. Where one is lost, it drops this and gives the pool's lease back.
#[derive(Debug, Drop)]
pub struct Pop {
    lease: LeaseAt,
    bidder: Bidder,
    failed: u8,
    stage: Stage,
}

#[derive(Clone, Copy, Debug)]
enum Stage {
    Begin,
    Bidding(Bid),
    Working { work: Work, holding: Holding },
    Over { end: End, held: Option<u64> },
}

/// What is done under the lease.
#[derive(Clone, Copy, Debug)]
enum Work {
    Head,
    /// The page behind the first one.
    Next { page: u64 },
    Check(Draw),
    Store(Draw),
    /// The page is drawn, or there is none.
    Giving { giving: Giving, page: u64 },
}

/// A page that is drawn, and the one behind it, or 0.
#[derive(Clone, Copy, Debug)]
struct Draw {
    page: u64,
    next: u64,
}

impl Stage {
    fn free(end: End) -> Stage
        ensures { result ≡ spec.over_free end }
    {
        Stage::Over { end, held: None }
    }

    fn held(end: End, holding: Holding) -> Stage
        ensures { result ≡ spec.over_held end holding }
    {
        Stage::Over {
            end,
            held: Some(holding.own),
        }
    }
}

impl Work {
    // What it gives in the pool with this lease.
    fn step(self, lease: LeaseAt, holding: Holding) -> LeaseStep
        ensures { result ≡ spec.work_step lease.addr holding self }
    {
        match self {
            Work::Head => load(lease.head_word()),
            Work::Next { page } => load(page),
            Work::Check(_) => load(lease.addr),
            Work::Store(draw) => store(lease.head_word(), draw.next),
            Work::Giving { giving, .. } => giving.step(Gift {
                addr: lease.addr,
                own: holding.own,
                put: 0,
                look: Mark::Plain,
            }),
        }
    }

    // Where it is damaged if what it gives is refused.
    fn place(self, lease: LeaseAt) -> u64
        ensures { result ≡ spec.work_place lease.addr self }
    {
        match self {
            Work::Head | Work::Store(_) => lease.head_word(),
            Work::Next { page } => page,
            Work::Check(_) | Work::Giving { .. } => lease.addr,
        }
    }
}

impl Pop {
    /// Takes a page out of the pool whose lease stands at `pool`, for `thread`.
    pub fn begin(pool: u64, thread: u16) -> Pop
        requires near { pool < 2 ^ 60 }
        requires thread { thread < 256 }
        ensures { spec.IsFirstPop pool thread 0 result }
    {
        Pop::again(pool, thread, 0)
    }

    /// The same for a call of which so many tries on this lease have failed.
    pub fn again(pool: u64, thread: u16, failed: u8) -> Pop
        requires near { pool < 2 ^ 60 }
        requires thread { thread < 256 }
        requires tries { failed < 16 }
        ensures { spec.IsFirstPop pool thread failed result }
    {
        Pop {
            lease: LeaseAt { addr: pool },
            bidder: Bidder { thread },
            failed,
            stage: Stage::Begin,
        }
    }

    /// How many tries have failed before the one at hand.
    pub fn failed(&self) -> u8
        ensures { result ≡ self.now.failed }
    {
        self.failed
    }

    /// The call's own word, while it stands in the pool's lease.
    pub fn held(&self) -> Option<u64>
        ensures { result ≡ spec.pop_held self.now.stage }
    {
        match self.stage {
            Stage::Begin | Stage::Bidding(_) => None,
            Stage::Working { holding, .. } => Some(holding.own),
            Stage::Over { held, .. } => held,
        }
    }

    /// Goes on with the answer to the last action, which was made at this tick. The first call has no use for its answer. It takes
    /// no memory.
    pub fn next(&mut self, answer: &Answer, now: u32) -> LeaseStep
        requires clock { now ≤ last_tick }
        ensures goes { self.new ≡ spec.pop_after self.old (heard answer.now) now }
        ensures step { result ≡ spec.pop_step self.new }
    {
        match (self.stage, Heard::of(answer)) {
            (Stage::Begin, _) => self.stage = Stage::Bidding(Bid::Looking),
            (Stage::Bidding(bid), Heard::Word(word)) => self.bid(bid, word, now),
            (Stage::Bidding(_), _) => self.stage = Stage::free(End::Damaged(self.lease.addr)),
            (Stage::Working { work, holding }, heard) => self.work(work, holding, heard, now),
            (Stage::Over { .. }, _) => {}
        }
        self.step()
    }

    fn bid(&mut self, bid: Bid, word: u64, now: u32)
        requires clock { now ≤ last_tick }
        ensures { self.new ≡ spec.pop_bid self.old (bid_after self.old.bidder.thread bid word now) word now }
    {
        match bid.after(self.bidder, word, now) {
            Bidding::On(bid) => self.stage = Stage::Bidding(bid),
            Bidding::Won(holding) => self.go(Work::Head, holding),
            Bidding::Failed if is_last_try(self.failed) => {
                let addr = self.lease.addr;
                self.stage = Stage::free(End::Busy { addr, word, now });
            }
            Bidding::Failed => {
                self.failed += 1;
                self.stage = Stage::Bidding(Bid::Looking);
            }
        }
    }

    fn go(&mut self, work: Work, holding: Holding)
        ensures { self.new ≡ spec.pop_work self.old work holding }
    {
        self.stage = Stage::Working { work, holding };
    }

    fn work(&mut self, work: Work, holding: Holding, heard: Heard, now: u32)
        ensures { self.new ≡ spec.pop_heard self.old work holding heard now }
    {
        match (work, heard) {
            (Work::Head, Heard::Word(0)) => self.give(0, holding),
            (Work::Head, Heard::Word(page)) => self.go(Work::Next { page }, holding),
            (Work::Next { page }, Heard::Word(next)) => {
                self.go(Work::Check(Draw { page, next }), holding);
            }
            (Work::Check(draw), Heard::Word(word)) => self.check(draw, holding, word, now),
            (Work::Store(draw), Heard::Word(_) | Heard::Done) => self.give(draw.page, holding),
            (Work::Giving { giving, page }, Heard::Word(word)) => {
                self.given(giving.after(holding.own, word, now), page, holding, word);
            }
            (work, _) => self.stage = Stage::held(End::Damaged(work.place(self.lease)), holding),
        }
    }

    fn give(&mut self, page: u64, holding: Holding)
        ensures { self.new ≡ spec.pop_give self.old page holding }
    {
        let giving = Giving::Exchanging;
        self.go(Work::Giving { giving, page }, holding);
    }

    fn check(&mut self, draw: Draw, holding: Holding, word: u64, now: u32)
        ensures { self.new ≡ spec.pop_check self.old draw holding word now }
    {
        if is_kept(holding.own, word, now) {
            self.go(Work::Store(draw), holding);
        } else {
            let addr = self.lease.addr;
            self.stage = Stage::held(End::Expired { addr, word }, holding);
        }
    }

    fn given(&mut self, given: Given, page: u64, holding: Holding, word: u64)
        ensures { self.new ≡ spec.pop_given self.old given page holding word }
    {
        let addr = self.lease.addr;
        match given {
            Given::On(giving) => self.go(Work::Giving { giving, page }, holding),
            Given::Done => {
                self.stage = Stage::free(End::Won {
                    value: page,
                    found: holding.found,
                });
            }
            Given::Lost => self.stage = Stage::held(End::Expired { addr, word }, holding),
            Given::Failed { word, now } if is_last_try(self.failed) => {
                self.stage = Stage::held(End::Busy { addr, word, now }, holding);
            }
            Given::Failed { .. } => {
                self.failed += 1;
                self.give(page, holding);
            }
        }
    }

    // What the stage gives.
    fn step(&self) -> LeaseStep
        ensures { result ≡ spec.pop_step self.now }
    {
        match self.stage {
            Stage::Begin => Bid::Looking.step(self.lease.addr),
            Stage::Bidding(bid) => bid.step(self.lease.addr),
            Stage::Working { work, holding } => work.step(self.lease, holding),
            Stage::Over { end, .. } => end.step(),
        }
    }
}
