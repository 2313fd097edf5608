// A plan that is carried out under leases, one action at a time.
ghost use Rattle.std.specs.Prelude.{◌≡◌, ◌<◌, length};
ghost use Rattle.zo_plan.specs.Runs as spec;

use crate::course::{Course, Stage};
use crate::deed::{Due, Verdict};
use crate::held::Held;
use crate::plan::Plan;
use std::marker::Model;
use tr_types::{Action, Answer, Mark};

/// What a run does next.
#[derive(Debug, Drop)]
pub enum Step {
    /// An action and what it is for. The next call is told its answer.
    Act(Action, Mark),
    Done,
    /// A look at the lease at this address has shown this word, which is another than the call's own or has expired. The change has
    /// not come about.
    Expired { addr: u64, word: u64 },
    /// The action on this address was refused, no later than at the commit. Where it is a lease's address, a look was: the lease
    /// counts as taken away then.
    Damaged(u64),
}

/// A plan whose pages are drawn, under leases that the call holds. Contracts see what is left of it.
///
/// It gives, in this order: the stores that prepare the change, with the flush of each line behind the last store that goes
/// there, and a fence; for each lease the raise of its counter; for each lease the note of the commit word's address; the commit;
/// the flush of its line and a fence; the stores behind it. Directly before each store outside drawn pages it looks at each lease.
#[derive(Debug, Drop)]
pub struct PlanRun {
    course: Course,
    stage: Stage,
    // The action given last.
    asked: Option<Due>,
    // The counter loaded last.
    seen: u64,
    // Whether a lease that was taken away behind the commit has ended the run.
    cut: bool,
}

impl Model for PlanRun {
    ghost use Rattle.zo_plan.specs.Runs.{Running};
    ghost use Rattle.zo_plan.specs.Stages.{left_at};

    ghost Value = { Running };

    ghost view = { λ run. record { asked = run.asked; seen = run.seen; left = left_at run.course run.stage; cut = run.cut } };
}

impl PlanRun {
    /// Begins a plan with these pages, by their numbers: as many as it wants fresh ones. The leases are all that the call holds.
    pub fn begin(plan: Plan, drawn: Vec<u32>, leases: Vec<Held>) -> PlanRun
        ensures { result ≡ spec.begun drawn.items leases.items plan }
    {
        PlanRun {
            course: Course {
                plan,
                drawn,
                leases,
            },
            stage: Stage::Preparing {
                given: 0,
                looked: 0,
            },
            asked: None,
            seen: 0,
            cut: false,
        }
    }

    /// Goes on with the answer to the action given last, at the tick `now` at which it was answered. The first call has no use for
    /// its answer. It takes no memory.
    pub fn next(&mut self, answer: &Answer, now: u32) -> Step
        ensures step { result ≡ spec.step_of self.old answer.now now }
        ensures left { self.new ≡ spec.run_after self.old answer.now now }
    {
        let Some(asked) = self.asked else {
            return self.go_on();
        };
        self.seen = asked.counter(answer, self.seen);
        match asked.judge(answer, now) {
            Verdict::GoesOn => self.go_on(),
            Verdict::Taken { addr, word } => {
                self.end();
                Step::Expired { addr, word }
            }
            Verdict::Refused(addr) => {
                self.end();
                Step::Damaged(addr)
            }
            Verdict::Ends => {
                self.end();
                self.cut = true;
                Step::Done
            }
        }
    }

    /// Whether a look behind the commit has ended the run: a lease was taken away. The call then frees no page, and gives back
    /// no lease.
    pub fn is_cut(&self) -> bool
        ensures { result ≡ self.now.cut }
    {
        self.cut
    }

    fn go_on(&mut self) -> Step
        ensures step { result ≡ spec.step_at Verdict.GoesOn self.old.seen self.old.left }
        ensures left { self.new ≡ spec.run_at Verdict.GoesOn self.old.seen self.old.cut self.old.left }
    {
        match self.course.give(self.stage) {
            Some(given) => {
                self.stage = given.next;
                self.asked = Some(given.due);
                Step::Act(given.due.deed.action(self.seen), given.due.deed.mark())
            }
            None => {
                self.end();
                Step::Done
            }
        }
    }

    fn end(&mut self)
        ensures { self.new ≡ spec.over self.old.seen self.old.cut }
    {
        self.stage = Stage::Over;
        self.asked = None;
    }
}

#[cfg(test)]
mod tests {
    use super::*;
    use crate::plan::{Operand, Put};
    use std::alloc::{AllocError, Global};
    use tr_types::FaultKind;

    // A lease of each of two directories, at pages 2 and 3. Both words have the expiry 1,000.
    const OWN: u64 = 4294967296001;

    const OTHER: u64 = 4294967296002;

    fn put(at: u64, word: u64) -> Put {
        Put {
            at: Operand::Known(at),
            word: Operand::Known(word),
        }
    }

    fn drawn(byte: u32, word: u64) -> Put {
        Put {
            at: Operand::Drawn { page: 0, byte },
            word: Operand::Known(word),
        }
    }

    // Two stores into one line of the drawn page 9, one into page 2, the commit in page 2, and one store behind it.
    fn plan(alloc: Global) -> Result<Plan, AllocError> {
        let prepares = vec![in alloc; drawn(16, 1), drawn(24, 2), put(8232, 3)]?;
        let after = vec![in alloc; put(8224, 5)]?;
        Ok(Plan {
            fresh: 1,
            prepares,
            at: Operand::Known(10240),
            commit: put(10240, 4),
            after,
            freed: Vec::new(alloc),
        })
    }

    fn begin(alloc: Global, two: bool) -> Result<PlanRun, AllocError> {
        let mut leases = vec![in alloc;
            Held {
                lease: 8200,
                own: OWN
            },
        ]?;
        if two {
            leases.push(Held {
                lease: 12296,
                own: OWN,
            })?;
        }
        Ok(PlanRun::begin(plan(alloc)?, vec![in alloc; 9u32]?, leases))
    }

    // What a lease or a counter shows: both leases the call's own word, the counter of page 2 the greatest, that of page 3 the 6.
    fn answer_to(action: &Action) -> Answer {
        match action {
            Action::Load(8200) | Action::Load(12296) => Answer::Word(OWN),
            Action::Load(8216) => Answer::Word(u64::MAX),
            Action::Load(_) => Answer::Word(6),
            _ => Answer::Done,
        }
    }

    // An action as a row: `load`, `store`, `flush` or `fence`, its address, its word.
    fn row(action: &Action) -> (&'static str, u64, u64) {
        match action {
            Action::Load(addr) => ("load", *addr, 0),
            Action::Store(addr, word) => ("store", *addr, *word),
            Action::Flush(addr) => ("flush", *addr, 0),
            Action::Fence => ("fence", 0, 0),
            _ => ("other", 0, 0),
        }
    }

    // All that this run gives under two leases.
    const ACTIONS: [(&str, u64, u64, Mark); 30] = [
        ("store", 36880, 1, Mark::Plain),
        ("store", 36888, 2, Mark::Plain),
        ("flush", 36888, 0, Mark::Plain),
        ("load", 8200, 0, Mark::Check),
        ("load", 12296, 0, Mark::Check),
        ("store", 8232, 3, Mark::Plain),
        ("flush", 8232, 0, Mark::Plain),
        ("fence", 0, 0, Mark::Plain),
        ("load", 8216, 0, Mark::Plain),
        ("load", 8200, 0, Mark::Check),
        ("load", 12296, 0, Mark::Check),
        ("store", 8216, 0, Mark::Plain),
        ("load", 12312, 0, Mark::Plain),
        ("load", 8200, 0, Mark::Check),
        ("load", 12296, 0, Mark::Check),
        ("store", 12312, 7, Mark::Plain),
        ("load", 8200, 0, Mark::Check),
        ("load", 12296, 0, Mark::Check),
        ("store", 8208, 10240, Mark::Note),
        ("load", 8200, 0, Mark::Check),
        ("load", 12296, 0, Mark::Check),
        ("store", 12304, 10240, Mark::Note),
        ("load", 8200, 0, Mark::Check),
        ("load", 12296, 0, Mark::Check),
        ("store", 10240, 4, Mark::Commit),
        ("flush", 10240, 0, Mark::Plain),
        ("fence", 0, 0, Mark::Plain),
        ("load", 8200, 0, Mark::Check),
        ("load", 12296, 0, Mark::Check),
        ("store", 8224, 5, Mark::Plain),
    ];

    #[test]
    fn actions_come_in_order(rt: HostRuntime) -> Result<(), AllocError> {
        let mut run = begin(rt.alloc(), true)?;
        let mut answer = Answer::Done;
        for (what, addr, word, mark) in ACTIONS {
            match run.next(&answer, 1000) {
                Step::Act(action, why) => {
                    assert_eq!(rt; (row(&action), why), ((what, addr, word), mark));
                    answer = answer_to(&action);
                }
                _ => assert!(rt; false, "no {what} of {addr}"),
            }
        }
        assert!(rt; matches!(run.next(&answer, 1000), Step::Done));
        assert!(rt; !run.is_cut());
        Ok(())
    }

    // How a run ends whose action of this number, counted from 1, is answered so.
    #[test]
    fn answers_end_a_run(rt: HostRuntime) -> Result<(), AllocError> {
        let fault = || Answer::Fault(FaultKind::NotMapped);
        for (number, answer, now, wanted) in [
            (1u8, fault(), 0u32, ("damaged", 36880u64, 0u64)),
            // a look before the commit
            (4, fault(), 0, ("damaged", 8200, 0)),
            (4, Answer::Word(OTHER), 0, ("expired", 8200, OTHER)),
            (4, Answer::Word(OWN), 1000, ("done", 0, 0)),
            (4, Answer::Word(OWN), 1001, ("expired", 8200, OWN)),
            // the counter, and the commit
            (8, fault(), 0, ("damaged", 8216, 0)),
            (14, fault(), 0, ("damaged", 10240, 0)),
            // behind the commit: its flush, a look, a store
            (15, fault(), 0, ("done", 0, 0)),
            (17, fault(), 0, ("cut", 0, 0)),
            (17, Answer::Word(0), 0, ("cut", 0, 0)),
            (17, Answer::Word(OWN), 1001, ("cut", 0, 0)),
            (18, fault(), 0, ("done", 0, 0)),
        ] {
            let mut run = begin(rt.alloc(), false)?;
            let shown = ends(&mut run, number, &answer, now);
            assert_eq!(rt; shown, wanted, "action {number}");
        }
        Ok(())
    }

    // Follows a run to its end, at most 40 actions.
    fn ends(run: &mut PlanRun, number: u8, answer: &Answer, now: u32) -> (&'static str, u64, u64) {
        let mut told = Answer::Done;
        let mut tick = 0;
        for count in 1..40u8 {
            match run.next(&told, tick) {
                Step::Act(action, _) => {
                    told = if count == number {
                        copied(answer)
                    } else {
                        answer_to(&action)
                    };
                    tick = if count == number { now } else { 0 };
                }
                Step::Done if run.is_cut() => return ("cut", 0, 0),
                Step::Done => return ("done", 0, 0),
                Step::Expired { addr, word } => return ("expired", addr, word),
                Step::Damaged(addr) => return ("damaged", addr, 0),
            }
        }
        ("endless", 0, 0)
    }

    fn copied(answer: &Answer) -> Answer {
        match answer {
            Answer::Word(word) => Answer::Word(*word),
            Answer::Fault(kind) => Answer::Fault(*kind),
            _ => Answer::Done,
        }
    }
}
