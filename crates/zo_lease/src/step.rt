// What the machines of this crate give, and how they end.
ghost use Rattle.std.specs.Prelude.{◌≡◌};
ghost use Rattle.zo_lease.specs.Steps as spec;

use tr_types::{Action, Answer, Mark};

/// What a machine on a lease does next. Addresses are in bytes, ticks are the clock's.
#[derive(Debug, Drop)]
pub enum LeaseStep {
    /// An action and what it is for. The next call is told its answer and the tick at which it was made.
    Act(Action, Mark),
    /// It is done. `found` is the lease's word as it was found; what `value` is, each machine says.
    Won { value: u64, found: u64 },
    /// All tries for the lease at this address failed; the last one was shown this word, at this tick.
    Busy { addr: u64, word: u64, now: u32 },
    /// The lease at this address is the call's own no longer: it showed this word.
    Expired { addr: u64, word: u64 },
    /// An action on this address was refused.
    Damaged(u64),
}

/// How a machine ended.
#[derive(Clone, Copy, Debug)]
pub(crate) enum End {
    Won { value: u64, found: u64 },
    Busy { addr: u64, word: u64, now: u32 },
    Expired { addr: u64, word: u64 },
    Damaged(u64),
}

impl End {
    pub(crate) fn step(self) -> LeaseStep
        ensures { result ≡ spec.end_step self }
    {
        match self {
            End::Won { value, found } => LeaseStep::Won { value, found },
            End::Busy { addr, word, now } => LeaseStep::Busy { addr, word, now },
            End::Expired { addr, word } => LeaseStep::Expired { addr, word },
            End::Damaged(addr) => LeaseStep::Damaged(addr),
        }
    }
}

/// What an answer tells a machine: the word that a load or an exchange was shown, that an action was made, or that it was
/// refused.
#[derive(Clone, Copy, Debug)]
pub(crate) enum Heard {
    Word(u64),
    Done,
    Refused,
}

impl Heard {
    pub(crate) fn of(answer: &Answer) -> Heard
        ensures { result ≡ spec.heard answer.now }
    {
        match answer {
            Answer::Word(word) => Heard::Word(*word),
            Answer::Fault(_) => Heard::Refused,
            Answer::Done | Answer::Kern(_) => Heard::Done,
        }
    }
}

pub(crate) fn load(addr: u64) -> LeaseStep
    ensures { result ≡ spec.load addr }
{
    LeaseStep::Act(Action::Load(addr), Mark::Plain)
}

pub(crate) fn store(addr: u64, word: u64) -> LeaseStep
    ensures { result ≡ spec.store addr word }
{
    LeaseStep::Act(Action::Store(addr, word), Mark::Plain)
}
