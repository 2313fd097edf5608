// Putting a page into a pool.
ghost use Rattle.std.specs.Prelude.{◌≡◌, ◌<◌, ◌≤◌, ◌^◌};
ghost use Rattle.zo_lease.specs.Words.{last_tick};
ghost use Rattle.zo_lease.specs.Steps.{heard};
ghost use Rattle.zo_lease.specs.Bids.{bid_after};
ghost use Rattle.zo_lease.specs.Gives.{giving_after};
ghost use Rattle.zo_lease.specs.Pushes as spec;

use crate::bid::{Bid, Bidding, Holding, is_last_try};
use crate::giving::{Gift, Given, Giving};
use crate::place::{Bidder, LeaseAt};
use crate::step::{End, Heard, LeaseStep, load, store};
use crate::word::is_kept;
use tr_types::{Answer, Mark};
use zo_layout::next_free_page;

/// Puts a page before the first one of a pool, under the pool's lease. `Won` tells that it stands there, and that the lease is given
/// back. Where it ends otherwise the lease may still be held: `held` tells.
///
/// The pool's lease is looked at directly before each store. A caller that holds further leases looks at these before it makes
/// a store. Where one is lost, it drops this and gives the pool's lease back.
#[derive(Debug, Drop)]
pub struct Push {
    lease: LeaseAt,
    bidder: Bidder,
    page: u64,
    failed: u8,
    stage: Stage,
}

#[derive(Clone, Copy, Debug)]
enum Stage {
    Begin,
    Bidding(Bid),
    Working { work: Work, holding: Holding },
    Over { end: End, held: Option<u64> },
}

/// What is done under the lease.
#[derive(Clone, Copy, Debug)]
enum Work {
    Head,
    /// The lease, before the page is made to lead to the pool's first one.
    CheckPage { first: u64 },
    StorePage { first: u64 },
    /// The lease, before the head is made to lead to the page.
    CheckHead,
    StoreHead,
    /// The page is in the pool.
    Giving(Giving),
}

impl Stage {
    fn free(end: End) -> Stage
        ensures { result ≡ spec.over_free end }
    {
        Stage::Over { end, held: None }
    }

    fn held(end: End, holding: Holding) -> Stage
        ensures { result ≡ spec.over_held end holding }
    {
        Stage::Over {
            end,
            held: Some(holding.own),
        }
    }
}

impl Work {
    // What it gives for this page, in the pool with this lease.
    fn step(self, lease: LeaseAt, page: u64, holding: Holding) -> LeaseStep
        ensures { result ≡ spec.work_step lease.addr page holding self }
    {
        match self {
            Work::Head => load(lease.head_word()),
            Work::CheckPage { .. } | Work::CheckHead => load(lease.addr),
            Work::StorePage { first } => store(next_free_page(page), first),
            Work::StoreHead => store(lease.head_word(), page),
            Work::Giving(giving) => giving.step(Gift {
                addr: lease.addr,
                own: holding.own,
                put: 0,
                look: Mark::Plain,
            }),
        }
    }

    // Where it is damaged if what it gives is refused.
    fn place(self, lease: LeaseAt, page: u64) -> u64
        ensures { result ≡ spec.work_place lease.addr page self }
    {
        match self {
            Work::Head | Work::StoreHead => lease.head_word(),
            Work::StorePage { .. } => next_free_page(page),
            Work::CheckPage { .. } | Work::CheckHead | Work::Giving(_) => lease.addr,
        }
    }
}

impl Push {
    /// Puts the page at `page` into the pool whose lease stands at `pool`, for `thread`.
    pub fn begin(pool: u64, thread: u16, page: u64) -> Push
        requires near { pool < 2 ^ 60 }
        requires thread { thread < 256 }
        ensures { spec.IsFirstPush pool thread page 0 result }
    {
        Push::again(pool, thread, page, 0)
    }

    /// The same for a call of which so many tries on this lease have failed.
    pub fn again(pool: u64, thread: u16, page: u64, failed: u8) -> Push
        requires near { pool < 2 ^ 60 }
        requires thread { thread < 256 }
        requires tries { failed < 16 }
        ensures { spec.IsFirstPush pool thread page failed result }
    {
        Push {
            lease: LeaseAt { addr: pool },
            bidder: Bidder { thread },
            page,
            failed,
            stage: Stage::Begin,
        }
    }

    /// How many tries have failed before the one at hand.
    pub fn failed(&self) -> u8
        ensures { result ≡ self.now.failed }
    {
        self.failed
    }

    /// The call's own word, while it stands in the pool's lease.
    pub fn held(&self) -> Option<u64>
        ensures { result ≡ spec.push_held self.now.stage }
    {
        match self.stage {
            Stage::Begin | Stage::Bidding(_) => None,
            Stage::Working { holding, .. } => Some(holding.own),
            Stage::Over { held, .. } => held,
        }
    }

    /// Goes on with the answer to the last action, which was made at this tick. The first call has no use for its answer. It takes
    /// no memory.
    pub fn next(&mut self, answer: &Answer, now: u32) -> LeaseStep
        requires clock { now ≤ last_tick }
        ensures goes { self.new ≡ spec.push_after self.old (heard answer.now) now }
        ensures step { result ≡ spec.push_step self.new }
    {
        match (self.stage, Heard::of(answer)) {
            (Stage::Begin, _) => self.stage = Stage::Bidding(Bid::Looking),
            (Stage::Bidding(bid), Heard::Word(word)) => self.bid(bid, word, now),
            (Stage::Bidding(_), _) => self.stage = Stage::free(End::Damaged(self.lease.addr)),
            (Stage::Working { work, holding }, heard) => self.work(work, holding, heard, now),
            (Stage::Over { .. }, _) => {}
        }
        self.step()
    }

    fn bid(&mut self, bid: Bid, word: u64, now: u32)
        requires clock { now ≤ last_tick }
        ensures { self.new ≡ spec.push_bid self.old (bid_after self.old.bidder.thread bid word now) word now }
    {
        match bid.after(self.bidder, word, now) {
            Bidding::On(bid) => self.stage = Stage::Bidding(bid),
            Bidding::Won(holding) => self.go(Work::Head, holding),
            Bidding::Failed if is_last_try(self.failed) => {
                let addr = self.lease.addr;
                self.stage = Stage::free(End::Busy { addr, word, now });
            }
            Bidding::Failed => {
                self.failed += 1;
                self.stage = Stage::Bidding(Bid::Looking);
            }
        }
    }

    fn go(&mut self, work: Work, holding: Holding)
        ensures { self.new ≡ spec.push_work self.old work holding }
    {
        self.stage = Stage::Working { work, holding };
    }

    fn work(&mut self, work: Work, holding: Holding, heard: Heard, now: u32)
        ensures { self.new ≡ spec.push_heard self.old work holding heard now }
    {
        match (work, heard) {
            (Work::Head, Heard::Word(first)) => self.go(Work::CheckPage { first }, holding),
            (Work::CheckPage { first }, Heard::Word(word)) => {
                self.check(Work::StorePage { first }, holding, word, now);
            }
            (Work::StorePage { .. }, Heard::Word(_) | Heard::Done) => {
                self.go(Work::CheckHead, holding);
            }
            (Work::CheckHead, Heard::Word(word)) => {
                self.check(Work::StoreHead, holding, word, now);
            }
            (Work::StoreHead, Heard::Word(_) | Heard::Done) => {
                self.go(Work::Giving(Giving::Exchanging), holding);
            }
            (Work::Giving(giving), Heard::Word(word)) => {
                self.given(giving.after(holding.own, word, now), holding, word);
            }
            (work, _) => {
                let place = work.place(self.lease, self.page);
                self.stage = Stage::held(End::Damaged(place), holding);
            }
        }
    }

    // Goes on to a store where the lease, which shows this word, is the call's own.
    fn check(&mut self, store: Work, holding: Holding, word: u64, now: u32)
        ensures { self.new ≡ spec.push_check self.old store holding word now }
    {
        if is_kept(holding.own, word, now) {
            self.go(store, holding);
        } else {
            let addr = self.lease.addr;
            self.stage = Stage::held(End::Expired { addr, word }, holding);
        }
    }

    fn given(&mut self, given: Given, holding: Holding, word: u64)
        ensures { self.new ≡ spec.push_given self.old given holding word }
    {
        let addr = self.lease.addr;
        match given {
            Given::On(giving) => self.go(Work::Giving(giving), holding),
            Given::Done => {
                self.stage = Stage::free(End::Won {
                    value: 0,
                    found: holding.found,
                });
            }
            Given::Lost => self.stage = Stage::held(End::Expired { addr, word }, holding),
            Given::Failed { word, now } if is_last_try(self.failed) => {
                self.stage = Stage::held(End::Busy { addr, word, now }, holding);
            }
            Given::Failed { .. } => {
                self.failed += 1;
                self.go(Work::Giving(Giving::Exchanging), holding);
            }
        }
    }

    // What the stage gives.
    fn step(&self) -> LeaseStep
        ensures { result ≡ spec.push_step self.now }
    {
        match self.stage {
            Stage::Begin => Bid::Looking.step(self.lease.addr),
            Stage::Bidding(bid) => bid.step(self.lease.addr),
            Stage::Working { work, holding } => work.step(self.lease, self.page, holding),
            Stage::Over { end, .. } => end.step(),
        }
    }
}
