// The actions of a run, each with what it is for.
ghost use Rattle.std.specs.Prelude.{◌≡◌};
ghost use Rattle.zo_plan.specs.Deeds as spec;

use crate::held::Held;
use tr_types::{Action, Answer, Mark};

/// An action of a run, with what it is for.
#[derive(Clone, Copy, Debug)]
pub enum Deed {
    Store { addr: u64, word: u64, mark: Mark },
    /// Loads a counter.
    Count(u64),
    /// Stores the counter that was loaded last, raised by 1.
    Raise(u64),
    /// Looks whether a lease is still the call's own.
    Look(Held),
    Flush(u64),
    Fence,
}

/// An action that is due before or at the commit, or behind it.
#[derive(Clone, Copy, Debug)]
pub struct Due {
    pub deed: Deed,
    pub late: bool,
}

/// What an answer makes of a run.
#[derive(Clone, Copy, Debug)]
pub enum Verdict {
    GoesOn,
    /// The lease at this address shows another word, or one that has expired.
    Taken { addr: u64, word: u64 },
    /// The action on this address was refused.
    Refused(u64),
    /// A lease was taken away behind the commit.
    Ends,
}

impl Deed {
    /// The action, where the counter loaded last was `seen`.
    pub fn action(self, seen: u64) -> Action
        ensures { result ≡ spec.action_of seen self }
    {
        match self {
            Deed::Store { addr, word, .. } => Action::Store(addr, word),
            Deed::Count(addr) => Action::Load(addr),
            Deed::Raise(addr) => Action::Store(addr, seen.wrapping_add(1)),
            Deed::Look(held) => Action::Load(held.lease),
            Deed::Flush(addr) => Action::Flush(addr),
            Deed::Fence => Action::Fence,
        }
    }

    pub fn mark(self) -> Mark
        ensures { result ≡ spec.mark_of self }
    {
        match self {
            Deed::Store { mark, .. } => mark,
            Deed::Look(_) => Mark::Check,
            _ => Mark::Plain,
        }
    }

    /// The address that it goes to, if any.
    fn addr(self) -> Option<u64>
        ensures { result ≡ spec.address_of self }
    {
        match self {
            Deed::Store { addr, .. } | Deed::Count(addr) | Deed::Raise(addr) | Deed::Flush(addr) =>
                Some(addr),
            Deed::Look(held) => Some(held.lease),
            Deed::Fence => None,
        }
    }
}

impl Due {
    /// What this answer, at tick `now`, makes of the run.
    pub fn judge(self, answer: &Answer, now: u32) -> Verdict
        ensures { result ≡ spec.judged_due self answer.now now }
    {
        if self.late {
            return self.judge_late(answer, now);
        }
        if let Answer::Fault(_) = answer {
            return match self.deed.addr() {
                Some(addr) => Verdict::Refused(addr),
                None => Verdict::GoesOn,
            };
        }
        match self.deed {
            Deed::Look(held) if !held.is_shown(answer, now) => Verdict::Taken {
                addr: held.lease,
                word: word_in(answer),
            },
            _ => Verdict::GoesOn,
        }
    }

    // The same behind the commit.
    fn judge_late(self, answer: &Answer, now: u32) -> Verdict
        ensures { result ≡ spec.judged_late self.deed answer.now now }
    {
        match self.deed {
            Deed::Look(held) if !held.is_shown(answer, now) => Verdict::Ends,
            _ => Verdict::GoesOn,
        }
    }

    /// The counter loaded last, where it was `seen` before this answer.
    pub fn counter(self, answer: &Answer, seen: u64) -> u64
        ensures { result ≡ spec.counted self.deed answer.now seen }
    {
        match self.deed {
            Deed::Count(_) => word_in(answer),
            _ => seen,
        }
    }
}

// The word that a load was answered; 0 for an answer that has none.
fn word_in(answer: &Answer) -> u64
    ensures { result ≡ spec.word_in answer.now }
{
    match answer {
        Answer::Word(word) => *word,
        _ => 0,
    }
}
