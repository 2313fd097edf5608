// Giving the lease of a directory, of a control page or of a pool back.
ghost use Rattle.std.specs.Prelude.{◌≡◌};
ghost use Rattle.zo_lease.specs.Steps.{heard};
ghost use Rattle.zo_lease.specs.Gives as spec;
ghost use Rattle.zo_lease.specs.Gives.{giving_after};

use crate::bid::is_last_try;
use crate::giving::{Gift, Given, Giving};
use crate::step::{End, Heard, LeaseStep};
use tr_types::{Answer, Mark};

/// Gives a lease back. `Won` tells that it is given back, and found the own word. Where the lease was taken away, `Expired` tells the
/// word that it then showed.
#[derive(Debug, Drop)]
pub struct GiveBack {
    gift: Gift,
    failed: u8,
    stage: Stage,
}

#[derive(Clone, Copy, Debug)]
enum Stage {
    Begin,
    Going(Giving),
    Over(End),
}

impl GiveBack {
    /// Puts `put` in place of the call's word `own` in the lease at `addr`: 0, or the expired word that the call found there, so
    /// that the next taker finds it too.
    pub fn begin(addr: u64, own: u64, put: u64) -> GiveBack
        ensures { result ≡ spec.first_give addr own put Mark.Check }
    {
        GiveBack::looking(addr, own, put, Mark::Check)
    }

    /// Gives the lease of a pool back, a look at which isn't marked as a check.
    pub fn of_pool(addr: u64, own: u64) -> GiveBack
        ensures { result ≡ spec.first_give addr own 0 Mark.Plain }
    {
        GiveBack::looking(addr, own, 0, Mark::Plain)
    }

    fn looking(addr: u64, own: u64, put: u64, look: Mark) -> GiveBack
        ensures { result ≡ spec.first_give addr own put look }
    {
        GiveBack {
            gift: Gift {
                addr,
                own,
                put,
                look,
            },
            failed: 0,
            stage: Stage::Begin,
        }
    }

    /// Goes on with the answer to the last action, which was made at this tick. The first call has no use for its answer. It takes
    /// no memory.
    pub fn next(&mut self, answer: &Answer, now: u32) -> LeaseStep
        ensures goes { self.new ≡ spec.give_after self.old (heard answer.now) now }
        ensures step { result ≡ spec.give_step self.new }
    {
        match (self.stage, Heard::of(answer)) {
            (Stage::Begin, _) => self.stage = Stage::Going(Giving::Exchanging),
            (Stage::Going(giving), Heard::Word(word)) => {
                self.given(giving.after(self.gift.own, word, now), word);
            }
            (Stage::Going(_), _) => self.stage = Stage::Over(End::Damaged(self.gift.addr)),
            (Stage::Over(_), _) => {}
        }
        match self.stage {
            Stage::Begin => Giving::Exchanging.step(self.gift),
            Stage::Going(giving) => giving.step(self.gift),
            Stage::Over(end) => end.step(),
        }
    }

    fn given(&mut self, given: Given, word: u64)
        ensures { self.new ≡ spec.give_given self.old given word }
    {
        let addr = self.gift.addr;
        self.stage = match given {
            Given::On(giving) => Stage::Going(giving),
            Given::Done => Stage::Over(End::Won {
                value: 0,
                found: self.gift.own,
            }),
            Given::Lost => Stage::Over(End::Expired { addr, word }),
            Given::Failed { word, now } if is_last_try(self.failed) => {
                Stage::Over(End::Busy { addr, word, now })
            }
            Given::Failed { .. } => {
                self.failed += 1;
                Stage::Going(Giving::Exchanging)
            }
        };
    }
}
