// The stores of a plan, one at a time, under no lease. Calls use it until they take leases; then `PlanRun` takes its place.
ghost use Rattle.std.specs.Prelude.{◌≡◌, ◌∷◌, None};
ghost use Rattle.zo_plan.specs.StoreRuns as spec;

use crate::plan::{Plan, Put};
use std::marker::Model;
use tr_types::{Action, Answer, Mark};

/// What a run does next.
#[derive(Debug, Drop)]
pub enum StoreStep {
    /// An action and what it is for. The next call is told its answer.
    Act(Action, Mark),
    Done,
    /// The action on this address was refused, no later than at the commit.
    Damaged(u64),
}

/// How far a run has come.
#[derive(Clone, Copy, Debug)]
enum Stage {
    /// So many of the stores that prepare the change were given.
    Preparing { given: usize },
    /// The commit was given, and so many of the stores after it.
    Committed { given: usize },
    Over,
}

// A store of a plan as a stage gives it, and the stage behind it.
#[derive(Clone, Copy, Debug)]
struct Given {
    put: Put,
    commits: bool,
    late: bool,
    then: Stage,
}

impl Stage {
    ghost use Rattle.std.specs.Prelude.{ℕ, List, [], MatchOption};
    ghost use Rattle.zo_plan.specs.StoreStages.{left_at, given_due};

    // The store that comes next, if one is left.
    fn give(self, plan: &Plan) -> Option<Given>
        ensures { (drawn : List ℕ) → MatchOption result (left_at drawn plan.now self ≡ [])
            (λ given. left_at drawn plan.now self ≡ given_due drawn given ∷ left_at drawn plan.now given.then) }
    {
        match self {
            Stage::Preparing { given } => match plan.prepares.get(given) {
                Some(put) => Some(Given {
                    put: *put,
                    commits: false,
                    late: false,
                    then: Stage::Preparing { given: given + 1 },
                }),
                None => Some(Given {
                    put: plan.commit,
                    commits: true,
                    late: false,
                    then: Stage::Committed { given: 0 },
                }),
            },
            Stage::Committed { given } => match plan.after.get(given) {
                Some(put) => Some(Given {
                    put: *put,
                    commits: false,
                    late: true,
                    then: Stage::Committed { given: given + 1 },
                }),
                None => None,
            },
            Stage::Over => None,
        }
    }
}

/// A plan whose pages are drawn, and of which some stores were given, under no lease: it gives neither looks, flushes nor fences.
/// Contracts see what is left of it.
#[derive(Debug, Drop)]
pub struct StoreRun {
    plan: Plan,
    drawn: Vec<u32>,
    stage: Stage,
    // The address of the store given last, where its refusal is damage.
    asked: Option<u64>,
}

impl Model for StoreRun {
    ghost use Rattle.zo_plan.specs.StoreRuns.{Running};
    ghost use Rattle.zo_plan.specs.StoreStages.{left_at};

    ghost Value = { Running };

    ghost view = { λ run. record { asked = run.asked; left = left_at run.drawn.items run.plan run.stage } };
}

impl StoreRun {
    /// Begins a plan with these pages, by their numbers: as many as it wants fresh ones.
    pub fn begin(plan: Plan, drawn: Vec<u32>) -> StoreRun
        ensures { result ≡ record { asked = None; left = spec.stores_of drawn.items plan } }
    {
        StoreRun {
            plan,
            drawn,
            stage: Stage::Preparing { given: 0 },
            asked: None,
        }
    }

    /// Goes on with the answer to the action given last. The first call has no use for its answer. It takes no memory.
    pub fn next(&mut self, answer: &Answer, _now: u32) -> StoreStep
        ensures step { result ≡ spec.step_at (spec.damaged_at answer.now self.old.asked) self.old.left }
        ensures left { self.new ≡ spec.run_at (spec.damaged_at answer.now self.old.asked) self.old.left }
    {
        if let (Answer::Fault(_), Some(addr)) = (answer, self.asked) {
            self.stage = Stage::Over;
            self.asked = None;
            return StoreStep::Damaged(addr);
        }
        let Some(given) = self.stage.give(&self.plan) else {
            self.stage = Stage::Over;
            self.asked = None;
            return StoreStep::Done;
        };
        let addr = given.put.at.real(&self.drawn);
        let word = given.put.word.real(&self.drawn);
        self.stage = given.then;
        self.asked = if given.late { None } else { Some(addr) };
        let mark = if given.commits {
            Mark::Commit
        } else {
            Mark::Plain
        };
        StoreStep::Act(Action::Store(addr, word), mark)
    }
}

#[cfg(test)]
mod tests {
    use super::*;
    use crate::plan::Operand;
    use std::alloc::{AllocError, Global};
    use tr_types::FaultKind;

    // Two stores that prepare, the second one in the drawn page, the commit, and one store after it.
    fn plan(alloc: Global) -> Result<Plan, AllocError> {
        let page = Operand::Drawn { page: 0, byte: 16 };
        let prepares = vec![in alloc;
            Put {
                at: Operand::Known(8),
                word: Operand::Known(1)
            },
            Put {
                at: page,
                word: Operand::Known(2)
            },
        ]?;
        let commit = Put {
            at: Operand::Known(24),
            word: page,
        };
        let after = vec![in alloc;
            Put {
                at: Operand::Known(32),
                word: Operand::Known(4)
            },
        ]?;
        Ok(Plan {
            fresh: 1,
            prepares,
            at: commit.at,
            commit,
            after,
            freed: Vec::new(alloc),
        })
    }

    #[test]
    fn stores_come_in_order(rt: HostRuntime) -> Result<(), AllocError> {
        let drawn = vec![in rt.alloc(); 2u32]?;
        let mut run = StoreRun::begin(plan(rt.alloc())?, drawn);
        for (addr, word, mark) in [
            (8u64, 1u64, Mark::Plain),
            (8208, 2, Mark::Plain),
            (24, 8208, Mark::Commit),
            (32, 4, Mark::Plain),
        ] {
            match run.next(&Answer::Done, 0) {
                StoreStep::Act(Action::Store(at, what), why) => {
                    assert_eq!(rt; (at, what, why), (addr, word, mark));
                }
                _ => assert!(rt; false, "no store to {addr}"),
            }
        }
        assert!(rt; matches!(run.next(&Answer::Done, 0), StoreStep::Done));
        Ok(())
    }

    // At which of its stores a refusal is damage.
    #[test]
    fn refusals_are_damage_up_to_the_commit(rt: HostRuntime) -> Result<(), AllocError> {
        for (stores, damage) in [(1u8, Some(8u64)), (3, Some(24)), (4, None)] {
            let drawn = vec![in rt.alloc(); 2u32]?;
            let mut run = StoreRun::begin(plan(rt.alloc())?, drawn);
            for _ in 0..stores {
                let _ = run.next(&Answer::Done, 0);
            }
            let shown = match run.next(&Answer::Fault(FaultKind::NotMapped), 0) {
                StoreStep::Damaged(addr) => Some(addr),
                _ => None,
            };
            assert_eq!(rt; shown, damage);
        }
        Ok(())
    }
}
