// Looking whether a lease is still the call's own.
ghost use Rattle.std.specs.Prelude.{◌≡◌};
ghost use Rattle.zo_lease.specs.Steps.{heard};
ghost use Rattle.zo_lease.specs.Checks as spec;

use crate::step::{End, Heard, LeaseStep};
use crate::word::is_kept;
use tr_types::{Action, Answer, Mark};

/// Looks once at a lease that the call holds. `Won` tells that it shows the own word, and holds at the tick of the look; `Expired`
/// tells any other word, or its own where it has expired.
#[derive(Debug, Drop)]
pub struct Check {
    addr: u64,
    own: u64,
    mark: Mark,
    stage: Stage,
}

#[derive(Clone, Copy, Debug)]
enum Stage {
    Begin,
    Looking,
    Over(End),
}

impl Check {
    /// Looks at the lease at `addr`, where the call has put the word `own`.
    pub fn begin(addr: u64, own: u64) -> Check
        ensures { result ≡ spec.first_check addr own Mark.Check }
    {
        Check {
            addr,
            own,
            mark: Mark::Check,
            stage: Stage::Begin,
        }
    }

    /// The same for the lease of a pool, a look at which isn't marked as a check.
    pub fn of_pool(addr: u64, own: u64) -> Check
        ensures { result ≡ spec.first_check addr own Mark.Plain }
    {
        Check {
            mark: Mark::Plain,
            ..Check::begin(addr, own)
        }
    }

    /// Goes on with the answer to the last action, which was made at this tick. The first call has no use for its answer. It takes
    /// no memory.
    pub fn next(&mut self, answer: &Answer, now: u32) -> LeaseStep
        ensures goes { self.new ≡ spec.check_after self.old (heard answer.now) now }
        ensures step { result ≡ spec.check_step self.new }
    {
        self.stage = match (self.stage, Heard::of(answer)) {
            (Stage::Begin, _) => Stage::Looking,
            (Stage::Looking, Heard::Word(word)) => Stage::Over(self.end(word, now)),
            (Stage::Looking, _) => Stage::Over(End::Damaged(self.addr)),
            (Stage::Over(end), _) => Stage::Over(end),
        };
        match self.stage {
            Stage::Begin | Stage::Looking => LeaseStep::Act(Action::Load(self.addr), self.mark),
            Stage::Over(end) => end.step(),
        }
    }

    fn end(&self, word: u64, now: u32) -> End
        ensures { result ≡ spec.check_end self.now word now }
    {
        if is_kept(self.own, word, now) {
            End::Won {
                value: 0,
                found: word,
            }
        } else {
            End::Expired {
                addr: self.addr,
                word,
            }
        }
    }
}
