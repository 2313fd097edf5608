// The order of a run's actions.
ghost use Rattle.std.specs.Prelude.{◌≡◌, ◌+◌, ◌∷◌, ◌++◌, [], drop, map, MatchOption, false};
ghost use Rattle.zo_plan.specs.Runs as spec;
ghost use Rattle.zo_plan.specs.Stages as stages;

use crate::deed::{Deed, Due};
use crate::held::Held;
use crate::plan::{Operand, Plan, Put};
use tr_types::Mark;

/// Bytes of a line: what a flush makes ready is a line of eight words.
const LINE_BYTES: u64 = 64;

/// How far a run has come. `given`, `raised` and `noted` are how many of the stores, counters and notes of a part are behind it,
/// and `looked` how many leases were looked at before the next one.
#[derive(Clone, Copy, Debug)]
pub enum Stage {
    /// The stores that prepare the change.
    Preparing {
        given: usize,
        looked: usize,
    },
    /// The line of the last of these stores, which the next one doesn't go to.
    Flushing {
        addr: u64,
        given: usize,
    },
    /// The loads of counters.
    Counting {
        raised: usize,
    },
    /// The raise of a counter that was loaded.
    Raising {
        held: Held,
        raised: usize,
        looked: usize,
    },
    /// The notes of the commit word's address.
    Noting {
        noted: usize,
        looked: usize,
    },
    Committing {
        looked: usize,
    },
    /// The flush of the commit's line.
    Settling,
    /// The fence behind it.
    Settled,
    /// The stores behind the commit.
    Following {
        given: usize,
        looked: usize,
    },
    Over,
}

/// What is due at a stage, and the stage behind it.
#[derive(Clone, Copy, Debug)]
pub struct Given {
    pub due: Due,
    pub next: Stage,
}

/// What a run is made of.
#[derive(Debug, Drop)]
pub struct Course {
    pub plan: Plan,
    /// The drawn pages, by their numbers.
    pub drawn: Vec<u32>,
    pub leases: Vec<Held>,
}

// Before or at the commit.
fn early(deed: Deed, next: Stage) -> Given
    ensures { result ≡ stages.given_early deed next }
{
    Given {
        due: Due { deed, late: false },
        next,
    }
}

// Behind the commit.
fn late(deed: Deed, next: Stage) -> Given
    ensures { result ≡ stages.given_late deed next }
{
    Given {
        due: Due { deed, late: true },
        next,
    }
}

impl Course {
    /// What comes next, if anything.
    pub fn give(&self, stage: Stage) -> Option<Given>
        ensures { MatchOption result (stages.left_at self.now stage ≡ []) (λ given. stages.IsNext self.now stage given) }
    {
        match stage {
            Stage::Preparing { given, looked } => Some(self.prepare(given, looked)),
            Stage::Flushing { addr, given } => Some(early(
                Deed::Flush(addr),
                Stage::Preparing { given, looked: 0 },
            )),
            Stage::Counting { raised } => Some(self.count(raised)),
            Stage::Raising {
                held,
                raised,
                looked,
            } => Some(self.raise(held, raised, looked)),
            Stage::Noting { noted, looked } => Some(self.note(noted, looked)),
            Stage::Committing { looked } => Some(self.commit(looked)),
            Stage::Settling => Some(late(
                Deed::Flush(self.plan.commit.at.real(&self.drawn)),
                Stage::Settled,
            )),
            Stage::Settled => Some(late(
                Deed::Fence,
                Stage::Following {
                    given: 0,
                    looked: 0,
                },
            )),
            Stage::Following { given, looked } => self.follow(given, looked),
            Stage::Over => None,
        }
    }

    fn prepare(&self, given: usize, looked: usize) -> Given
        ensures { stages.IsNext self.now (Stage.Preparing given looked) result }
    {
        match self.plan.prepares.get(given) {
            Some(put) => self.prepare_by(*put, given, looked),
            None => early(Deed::Fence, Stage::Counting { raised: 0 }),
        }
    }

    // A look at a lease before this store, or the store.
    fn prepare_by(&self, put: Put, given: usize, looked: usize) -> Given
        requires { drop given self.now.plan.prepares.items ≡ put ∷ drop (given + 1) self.now.plan.prepares.items }
        ensures { stages.IsNext self.now (Stage.Preparing given looked) result }
    {
        match self.look_before(put.at, looked) {
            Some(held) => early(
                Deed::Look(held),
                Stage::Preparing {
                    given,
                    looked: looked + 1,
                },
            ),
            None => early(self.store(put, Mark::Plain), self.behind(put, given + 1)),
        }
    }

    // The stage behind a store that prepares the change, where the stores from `given` on are left.
    fn behind(&self, put: Put, given: usize) -> Stage
        ensures { result ≡ stages.behind self.now put given }
    {
        let addr = put.at.real(&self.drawn);
        match self.plan.prepares.get(given) {
            Some(next) if next.at.real(&self.drawn) / LINE_BYTES == addr / LINE_BYTES => {
                Stage::Preparing { given, looked: 0 }
            }
            _ => Stage::Flushing { addr, given },
        }
    }

    // The load of a counter, or the notes where each counter was raised.
    fn count(&self, raised: usize) -> Given
        ensures { stages.IsNext self.now (Stage.Counting raised) result }
    {
        match self.leases.get(raised) {
            Some(held) => early(
                Deed::Count(held.counter()),
                Stage::Raising {
                    held: *held,
                    raised: raised + 1,
                    looked: 0,
                },
            ),
            None => self.note(0, 0),
        }
    }

    fn raise(&self, held: Held, raised: usize, looked: usize) -> Given
        ensures { stages.IsNext self.now (Stage.Raising held raised looked) result }
    {
        match self.look(looked) {
            Some(lease) => early(
                Deed::Look(lease),
                Stage::Raising {
                    held,
                    raised,
                    looked: looked + 1,
                },
            ),
            None => early(Deed::Raise(held.counter()), Stage::Counting { raised }),
        }
    }

    fn note(&self, noted: usize, looked: usize) -> Given
        ensures { stages.IsNext self.now (Stage.Noting noted looked) result }
    {
        match self.leases.get(noted) {
            Some(held) => self.note_beside(*held, noted, looked),
            None => self.commit(0),
        }
    }

    fn note_beside(&self, held: Held, noted: usize, looked: usize) -> Given
        requires { drop noted self.now.leases.items ≡ held ∷ drop (noted + 1) self.now.leases.items }
        ensures { stages.IsNext self.now (Stage.Noting noted looked) result }
    {
        match self.look(looked) {
            Some(lease) => early(
                Deed::Look(lease),
                Stage::Noting {
                    noted,
                    looked: looked + 1,
                },
            ),
            None => early(
                Deed::Store {
                    addr: held.at(),
                    word: self.plan.at.real(&self.drawn),
                    mark: Mark::Note,
                },
                Stage::Noting {
                    noted: noted + 1,
                    looked: 0,
                },
            ),
        }
    }

    fn commit(&self, looked: usize) -> Given
        ensures { stages.IsNext self.now (Stage.Committing looked) result }
    {
        match self.look(looked) {
            Some(lease) => early(Deed::Look(lease), Stage::Committing { looked: looked + 1 }),
            None => early(self.store(self.plan.commit, Mark::Commit), Stage::Settling),
        }
    }

    fn follow(&self, given: usize, looked: usize) -> Option<Given>
        ensures { MatchOption result (stages.left_at self.now (Stage.Following given looked) ≡ []) (λ g. stages.IsNext self.now (Stage.Following given looked) g) }
    {
        match self.plan.after.get(given) {
            Some(put) => Some(self.follow_by(*put, given, looked)),
            None => None,
        }
    }

    fn follow_by(&self, put: Put, given: usize, looked: usize) -> Given
        requires { drop given self.now.plan.after.items ≡ put ∷ drop (given + 1) self.now.plan.after.items }
        ensures { stages.IsNext self.now (Stage.Following given looked) result }
    {
        match self.look(looked) {
            Some(lease) => late(
                Deed::Look(lease),
                Stage::Following {
                    given,
                    looked: looked + 1,
                },
            ),
            None => late(
                self.store(put, Mark::Plain),
                Stage::Following {
                    given: given + 1,
                    looked: 0,
                },
            ),
        }
    }

    fn store(&self, put: Put, mark: Mark) -> Deed
        ensures { result ≡ spec.store_of self.now.drawn.items mark put }
    {
        Deed::Store {
            addr: put.at.real(&self.drawn),
            word: put.word.real(&self.drawn),
            mark,
        }
    }

    // The lease that is looked at next before a store to this place: each one, and none for a place in a drawn page.
    fn look_before(&self, at: Operand, looked: usize) -> Option<Held>
        ensures { MatchOption result (spec.looked_before at (drop looked self.now.leases.items) ≡ [])
            (λ held. spec.looked_before at (drop looked self.now.leases.items) ≡ held ∷ spec.looked_before at (drop (looked + 1) self.now.leases.items)) }
    {
        match at {
            Operand::Known(_) => self.look(looked),
            Operand::Drawn { .. } => None,
        }
    }

    // The lease that is looked at next, if any is left.
    fn look(&self, looked: usize) -> Option<Held>
        ensures { MatchOption result (drop looked self.now.leases.items ≡ []) (λ held. drop looked self.now.leases.items ≡ held ∷ drop (looked + 1) self.now.leases.items) }
    {
        self.leases.get(looked).copied()
    }
}
