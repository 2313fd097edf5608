// What an expired lease asks for before anything under it is read: its last holder's commit is made durable.
ghost use Rattle.std.specs.Prelude.{◌≡◌};
ghost use Rattle.zo_lease.specs.Mends as spec;

use crate::place::LeaseAt;
use crate::step::{Heard, LeaseStep, load};
use tr_types::{Action, Mark};

/// How far it has come: the noted address is loaded, then the line that it names is flushed, then a fence is made.
#[derive(Clone, Copy, Debug)]
pub(crate) enum Mend {
    Noted,
    Flush { at: u64 },
    Fence,
}

/// What it comes to by an answer.
#[derive(Clone, Copy, Debug)]
pub(crate) enum Mending {
    On(Mend),
    Done,
    Refused,
}

impl Mend {
    /// What is done for this lease.
    pub(crate) fn step(self, lease: LeaseAt) -> LeaseStep
        ensures { result ≡ spec.mend_step lease.addr self }
    {
        match self {
            Mend::Noted => load(lease.noted_word()),
            Mend::Flush { at } => LeaseStep::Act(Action::Flush(at), Mark::Plain),
            Mend::Fence => LeaseStep::Act(Action::Fence, Mark::Plain),
        }
    }

    /// Goes on with what was heard. Nothing is noted where the address is 0; and what is noted may have left the coffer, so a flush
    /// that is refused is passed over.
    pub(crate) fn after(self, heard: Heard) -> Mending
        ensures { result ≡ spec.mend_after self heard }
    {
        match (self, heard) {
            (Mend::Noted, Heard::Word(0)) => Mending::On(Mend::Fence),
            (Mend::Noted, Heard::Word(at)) => Mending::On(Mend::Flush { at }),
            (Mend::Noted, _) => Mending::Refused,
            (Mend::Flush { .. }, _) => Mending::On(Mend::Fence),
            (Mend::Fence, _) => Mending::Done,
        }
    }
}
