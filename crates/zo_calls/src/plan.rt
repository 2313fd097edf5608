// The plan of a new file, and the end of a call that changes: its lease is given back.
ghost use Rattle.std.specs.Prelude.{◌≡◌, IfOk};
ghost use Rattle.zo_calls.specs.Acts.{IsStep};
ghost use Rattle.zo_calls.specs.Places.{IsUnmoved};
ghost use Rattle.zo_calls.specs.Stages.{AreMarked, UnlessGiven, GivesDir, GivesPool, IsHeld, Settles, IsIdle};

use crate::command::name_of;
use crate::op::OpRun;
use crate::stage::{Change, Drawing, Ending, GivingBack, Running};
use crate::step::{OpStep, damaged, expired};
use std::alloc::{AllocError, Global};
use tr_types::{Answer, Reply};
use zo_hash_dir::plan_link;
use zo_layout::KIND_FILE;
use zo_lease::{GiveBack, LeaseStep};
use zo_plan::{Addr, Held, Operand, Plan, PlanRun, Put, Step};

impl Ending {
    // The end of a call whose lease can't be given back, for which the other step tells why. Only that a name stands isn't told then.
    fn unless(self, other: OpStep) -> OpStep
        ensures { UnlessGiven self other result }
    {
        match self {
            Ending::Exists => other,
            end => OpStep::Over(end.reply()),
        }
    }
}

impl OpRun {
    /// All pages are drawn: links the new file.
    #[tactic(auto, using(crate::proofs::Runs::begun_marked))]
    pub(crate) fn make(
        &mut self,
        alloc: Global,
        drawing: Drawing,
        now: u32,
    ) -> Result<OpStep, AllocError>
        requires idle { IsIdle self.old }
        requires held { IsHeld self.old.caller drawing.held }
        ensures same { IsUnmoved self.old self.new }
        ensures settles { IfOk result (Settles self.new) }
        ensures acts { IfOk result (IsStep self.old.caller) }
    {
        let Some(dir) = Addr::of_page(self.caller.mapped.root) else {
            return Ok(damaged(self.caller.control()));
        };
        let plan = self.plan(alloc, dir, &drawing)?;
        let held = drawing.held;
        let run = PlanRun::begin(plan, drawing.drawn, vec![in alloc; held]?);
        Ok(self.run(Running { run, held }, &Answer::Done, now))
    }

    // The plan of the new file: its kind stands before its name is linked.
    fn plan(&self, alloc: Global, dir: Addr, drawing: &Drawing) -> Result<Plan, AllocError> {
        let file = Operand::Drawn {
            page: drawing.place.entry_pages(),
            byte: 0,
        };
        let kind = Put {
            at: file,
            word: Operand::Known(KIND_FILE),
        };
        let link = plan_link(alloc, dir, &drawing.place, name_of(&self.command), file)?;
        link.prepared_by(kind, 1)
    }

    #[tactic(auto, using(crate::proofs::Runs::run_keeps, crate::proofs::Runs::run_may))]
    pub(crate) fn run(&mut self, mut running: Running, answer: &Answer, now: u32) -> OpStep
        requires idle { IsIdle self.old }
        requires held { IsHeld self.old.caller running.held }
        requires marked { AreMarked running.run }
        ensures same { IsUnmoved self.old self.new }
        ensures settles { Settles self.new result }
        ensures acts { IsStep self.old.caller result }
    {
        match running.run.next(answer, now) {
            Step::Act(action, mark) => {
                self.go_changing(Change::Running(running), OpStep::Act(action, mark))
            }
            // The lease was taken away behind the commit.
            Step::Done if running.run.is_cut() => OpStep::Over(Reply::Made),
            Step::Done => self.give(running.held, Ending::Made),
            Step::Expired { addr, word } => expired(addr, word),
            Step::Damaged(addr) if addr == running.held.lease => expired(addr, 0),
            Step::Damaged(addr) => damaged(addr),
        }
    }

    /// Gives the directory's lease back, and then ends.
    pub(crate) fn give(&mut self, held: Held, end: Ending) -> OpStep
        requires idle { IsIdle self.old }
        requires held { IsHeld self.old.caller held }
        ensures same { IsUnmoved self.old self.new }
        ensures settles { Settles self.new result }
        ensures acts { IsStep self.old.caller result }
    {
        let give = GiveBack::begin(held.lease, held.own, 0);
        self.give_back(GivingBack { give, end }, &Answer::Done, 0)
    }

    pub(crate) fn give_back(&mut self, mut giving: GivingBack, answer: &Answer, now: u32) -> OpStep
        requires idle { IsIdle self.old }
        requires gives { GivesDir self.old.caller giving.give }
        ensures same { IsUnmoved self.old self.new }
        ensures settles { Settles self.new result }
        ensures acts { IsStep self.old.caller result }
    {
        match giving.give.next(answer, now) {
            LeaseStep::Act(action, mark) => {
                self.go_changing(Change::GivingBack(giving), OpStep::Act(action, mark))
            }
            LeaseStep::Expired { addr, word } => giving.end.unless(expired(addr, word)),
            LeaseStep::Damaged(addr) => giving.end.unless(damaged(addr)),
            LeaseStep::Won { .. } | LeaseStep::Busy { .. } => OpStep::Over(giving.end.reply()),
        }
    }

    /// Gives the pool's lease back, if it is held, and then ends, whatever is heard.
    pub(crate) fn give_pool(&mut self, own: Option<u64>, end: Ending) -> OpStep
        requires idle { IsIdle self.old }
        ensures same { IsUnmoved self.old self.new }
        ensures settles { Settles self.new result }
        ensures acts { IsStep self.old.caller result }
    {
        match own {
            Some(own) => {
                let give = GiveBack::of_pool(self.caller.pool_lease().addr, own);
                self.give_pool_back(GivingBack { give, end }, &Answer::Done, 0)
            }
            None => OpStep::Over(end.reply()),
        }
    }

    pub(crate) fn give_pool_back(
        &mut self,
        mut giving: GivingBack,
        answer: &Answer,
        now: u32,
    ) -> OpStep
        requires idle { IsIdle self.old }
        requires gives { GivesPool self.old.caller giving.give }
        ensures same { IsUnmoved self.old self.new }
        ensures settles { Settles self.new result }
        ensures acts { IsStep self.old.caller result }
    {
        match giving.give.next(answer, now) {
            LeaseStep::Act(action, mark) => {
                self.go_changing(Change::GivingPool(giving), OpStep::Act(action, mark))
            }
            _ => OpStep::Over(giving.end.reply()),
        }
    }
}
