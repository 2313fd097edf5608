// Giving a lease back.
ghost use Rattle.std.specs.Prelude.{◌≡◌};
ghost use Rattle.zo_lease.specs.Gives as spec;

use crate::step::LeaseStep;
use crate::word::is_kept;
use tr_types::{Action, Mark};

/// A lease that the call holds by its own word, what is to be put in its place, and the mark of a look at it.
#[derive(Clone, Copy, Debug)]
pub(crate) struct Gift {
    pub(crate) addr: u64,
    pub(crate) own: u64,
    pub(crate) put: u64,
    pub(crate) look: Mark,
}

/// How far it has come.
#[derive(Clone, Copy, Debug)]
pub(crate) enum Giving {
    Exchanging,
    /// The exchange found this word at this tick, and not the own one.
    Looking { word: u64, now: u32 },
}

/// What it comes to by a word.
#[derive(Clone, Copy, Debug)]
pub(crate) enum Given {
    On(Giving),
    Done,
    /// The lease was taken away.
    Lost,
    /// The exchange found this word at this tick, though the lease is the call's own.
    Failed { word: u64, now: u32 },
}

impl Giving {
    pub(crate) fn step(self, gift: Gift) -> LeaseStep
        ensures { result ≡ spec.giving_step gift self }
    {
        match self {
            Giving::Exchanging => {
                let action = Action::Cas {
                    addr: gift.addr,
                    old: gift.own,
                    new: gift.put,
                };
                LeaseStep::Act(action, Mark::Plain)
            }
            Giving::Looking { .. } => LeaseStep::Act(Action::Load(gift.addr), gift.look),
        }
    }

    /// Goes on with the word that the lease showed at this tick.
    pub(crate) fn after(self, own: u64, word: u64, now: u32) -> Given
        ensures { result ≡ spec.giving_after own self word now }
    {
        match self {
            Giving::Exchanging if word == own => Given::Done,
            Giving::Exchanging => Given::On(Giving::Looking { word, now }),
            Giving::Looking {
                word: shown,
                now: tick,
            } => {
                if is_kept(own, word, now) {
                    Given::Failed {
                        word: shown,
                        now: tick,
                    }
                } else {
                    Given::Lost
                }
            }
        }
    }
}
