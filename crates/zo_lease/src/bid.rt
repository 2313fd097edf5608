// Tries for a lease, up to the exchange that puts the call's own word there.
ghost use Rattle.std.specs.Prelude.{◌≡◌, ◌≤◌};
ghost use Rattle.zo_lease.specs.Words.{last_tick};
ghost use Rattle.zo_lease.specs.Bids as spec;

use crate::place::Bidder;
use crate::step::{End, LeaseStep, load};
use crate::word::{LeaseWord, TRIES};
use tr_types::{Action, Mark};

/// How far a try has come. It loads the lease and ends with an exchange.
#[derive(Clone, Copy, Debug)]
pub(crate) enum Bid {
    Looking,
    Offering(Offer),
}

/// An exchange that puts `own` in place of `old`, after the lease showed `seen`.
#[derive(Clone, Copy, Debug)]
pub(crate) struct Offer {
    seen: u64,
    old: u64,
    own: u64,
}

/// A lease that the call holds: its own word stands there in place of the one that it found.
#[derive(Clone, Copy, Debug)]
pub(crate) struct Holding {
    pub(crate) own: u64,
    pub(crate) found: u64,
}

/// What a try comes to by an answer.
#[derive(Clone, Copy, Debug)]
pub(crate) enum Bidding {
    On(Bid),
    Won(Holding),
    Failed,
}

impl Holding {
    pub(crate) fn won(self) -> End
        ensures { result ≡ spec.won_end self }
    {
        End::Won {
            value: self.own,
            found: self.found,
        }
    }
}

impl Offer {
    // Also where the lease can't be taken an exchange is made, from 0: so every try that fails shows it by one.
    fn after(bidder: Bidder, seen: u64, now: u32) -> Offer
        requires clock { now ≤ last_tick }
        ensures { result ≡ spec.offer_after bidder.thread seen now }
    {
        Offer {
            seen,
            old: if LeaseWord(seen).is_open(now) {
                seen
            } else {
                0
            },
            own: LeaseWord::taken(bidder, now).0,
        }
    }
}

impl Bid {
    /// What the try on the lease at this address gives.
    pub(crate) fn step(self, addr: u64) -> LeaseStep
        ensures { result ≡ spec.bid_step addr self }
    {
        match self {
            Bid::Looking => load(addr),
            Bid::Offering(offer) => {
                let action = Action::Cas {
                    addr,
                    old: offer.old,
                    new: offer.own,
                };
                LeaseStep::Act(action, Mark::Take)
            }
        }
    }

    /// Goes on with the word that the lease showed at this tick.
    pub(crate) fn after(self, bidder: Bidder, word: u64, now: u32) -> Bidding
        requires clock { now ≤ last_tick }
        ensures { result ≡ spec.bid_after bidder.thread self word now }
    {
        match self {
            Bid::Looking => Bidding::On(Bid::Offering(Offer::after(bidder, word, now))),
            Bid::Offering(offer) => {
                if word == offer.old {
                    Bidding::Won(Holding {
                        own: offer.own,
                        found: word,
                    })
                } else if word == offer.seen && LeaseWord(word).expired(now) {
                    // It has expired since the load, so the try goes on.
                    Bidding::On(Bid::Offering(Offer::after(bidder, word, now)))
                } else {
                    Bidding::Failed
                }
            }
        }
    }
}

/// Whether the try after so many failed ones is the last.
pub(crate) fn is_last_try(failed: u8) -> bool
    ensures { result ≡ spec.is_last_try failed }
{
    failed >= TRIES - 1
}
