// A call that makes a file, up to the check that settles whether its name stands.
ghost use Rattle.std.specs.Prelude.{◌≡◌, ◌≤◌, IfOk, IsTrue};
ghost use Rattle.zo_lease.specs.Words.{last_tick};
ghost use Rattle.zo_calls.specs.Acts.{IsStep, MarksLoad};
ghost use Rattle.zo_calls.specs.Places.{IsSameCall, IsUnmoved};
ghost use Rattle.zo_calls.specs.Stages.{ChangeStands, IsHeld, IsIdle, Looks, Settles, StageStands, TakesDir};

use crate::command::{coffer_path, name_of, right_of};
use crate::op::OpRun;
use crate::stage::{Change, Checking, Ending, Found, Looking, Stage};
use crate::step::{OpStep, busy, damaged, expired, load};
use std::alloc::{AllocError, Global};
use tr_types::{Action, Answer, KernAnswer, Mapped, Mark};
use zo_hash_dir::{LookStep, Lookup, Name};
use zo_lease::{Check, LeaseStep, Take};
use zo_plan::{Addr, Held};

impl OpRun {
    pub(crate) fn change(
        &mut self,
        alloc: Global,
        change: Change,
        answer: &Answer,
        now: u32,
    ) -> Result<OpStep, AllocError>
        requires idle { IsIdle self.old }
        requires clock { now ≤ last_tick }
        requires stands { ChangeStands self.old.caller change }
        ensures same { IsSameCall self.old self.new }
        ensures settles { IfOk result (Settles self.new) }
        ensures acts { IfOk result (IsStep self.old.caller) }
    {
        match change {
            Change::Taking(take) => self.take(alloc, take, answer, now),
            Change::Looking(looking) => self.look(alloc, looking, answer),
            Change::Mapping(held) => self.mapped_anew(alloc, held, answer),
            Change::Checking(checking) => self.check(alloc, checking, answer, now),
            Change::Popping(popping) => self.pop(alloc, popping, answer, now),
            Change::PopGuard(popping, guard) => Ok(self.guard_pop(popping, guard, answer, now)),
            Change::Enlarging(drawing) => self.enlarged(alloc, drawing, answer, now),
            Change::Pushing(pushing) => Ok(self.push(pushing, answer, now)),
            Change::PushGuard(pushing, guard) => Ok(self.guard_push(pushing, guard, answer, now)),
            Change::Running(running) => Ok(self.run(running, answer, now)),
            Change::GivingBack(giving) => Ok(self.give_back(giving, answer, now)),
            Change::GivingPool(giving) => Ok(self.give_pool_back(giving, answer, now)),
        }
    }

    pub(crate) fn go_changing(&mut self, change: Change, step: OpStep) -> OpStep
        ensures same { IsUnmoved self.old self.new }
        ensures stage { self.new.stage ≡ Stage.Changing change }
        ensures step { result ≡ step }
    {
        self.go(Stage::Changing(change), step)
    }

    fn take(
        &mut self,
        alloc: Global,
        mut take: Take,
        answer: &Answer,
        now: u32,
    ) -> Result<OpStep, AllocError>
        requires idle { IsIdle self.old }
        requires clock { now ≤ last_tick }
        requires takes { TakesDir self.old.caller take }
        ensures same { IsUnmoved self.old self.new }
        ensures settles { IfOk result (Settles self.new) }
        ensures acts { IfOk result (IsStep self.old.caller) }
    {
        match take.next(answer, now) {
            LeaseStep::Act(action, mark) => {
                Ok(self.go_changing(Change::Taking(take), OpStep::Act(action, mark)))
            }
            LeaseStep::Won { value, .. } => {
                let held = Held {
                    lease: self.caller.dir_lease().addr,
                    own: value,
                };
                self.look_under(alloc, held, false)
            }
            LeaseStep::Busy { addr, word, now } => Ok(busy(addr, word, now)),
            LeaseStep::Expired { addr, word } => Ok(expired(addr, word)),
            LeaseStep::Damaged(addr) => Ok(damaged(addr)),
        }
    }

    // Begins to look for the name under the lease, in a coffer of as many pages as the last Map told.
    fn look_under(&mut self, alloc: Global, held: Held, again: bool) -> Result<OpStep, AllocError>
        requires idle { IsIdle self.old }
        requires held { IsHeld self.old.caller held }
        ensures same { IsUnmoved self.old self.new }
        ensures settles { IfOk result (Settles self.new) }
        ensures acts { IfOk result (IsStep self.old.caller) }
    {
        let mapped = self.caller.mapped;
        let Some(dir) = Addr::of_page(mapped.root) else {
            return Ok(damaged(self.caller.control()));
        };
        let name = Name::new(Vec::from_slice(alloc, name_of(&self.command))?);
        let look = Lookup::to_make(dir, name, mapped.pages);
        self.look(alloc, Looking { look, held, again }, &Answer::Done)
    }

    fn look(
        &mut self,
        alloc: Global,
        mut looking: Looking,
        answer: &Answer,
    ) -> Result<OpStep, AllocError>
        requires idle { IsIdle self.old }
        requires held { IsHeld self.old.caller looking.held }
        ensures same { IsUnmoved self.old self.new }
        ensures settles { IfOk result (Settles self.new) }
        ensures acts { IfOk result (IsStep self.old.caller) }
    {
        match looking.look.next(answer) {
            LookStep::Load(addr) => {
                Ok(self.go_changing(Change::Looking(looking), load(addr, Mark::Plain)))
            }
            LookStep::Found { .. } => Ok(self.found(looking.held, Found::Name)),
            LookStep::Missing { place } => Ok(self.found(looking.held, Found::Place(place))),
            LookStep::Damaged(_) if !looking.again && looking.look.wants_more(answer) => {
                self.map_anew(alloc, Stage::Changing(Change::Mapping(looking.held)))
            }
            LookStep::Damaged(addr) => Ok(self.found(looking.held, Found::Damage(addr))),
        }
    }

    // Asks for the coffer to be mapped once more: it may have more pages by now.
    pub(crate) fn map_anew(&mut self, alloc: Global, stage: Stage) -> Result<OpStep, AllocError>
        requires idle { IsIdle self.old }
        requires stands { StageStands self.old.caller stage }
        ensures same { IsUnmoved self.old self.new }
        ensures settles { IfOk result (Settles self.new) }
        ensures acts { IfOk result (IsStep self.old.caller) }
    {
        let mapped = self.caller.mapped;
        let path = coffer_path(alloc, &self.command, &mapped)?;
        let step = OpStep::Elsewhere {
            path,
            right: right_of(&self.command),
            exclusive: false,
        };
        Ok(self.go(stage, step))
    }

    // The coffer was mapped once more.
    fn mapped_anew(
        &mut self,
        alloc: Global,
        held: Held,
        answer: &Answer,
    ) -> Result<OpStep, AllocError>
        requires idle { IsIdle self.old }
        requires held { IsHeld self.old.caller held }
        ensures same { IsSameCall self.old self.new }
        ensures settles { IfOk result (Settles self.new) }
        ensures acts { IfOk result (IsStep self.old.caller) }
    {
        if self.is_mapped(answer) {
            self.look_under(alloc, held, true)
        } else {
            Ok(damaged(self.caller.control()))
        }
    }

    // Takes over what the kernel tells of the coffer, if it is the same.
    pub(crate) fn is_mapped(&mut self, answer: &Answer) -> bool
        ensures same { IsSameCall self.old self.new }
        ensures stage { self.new.stage ≡ self.old.stage }
    {
        let Answer::Kern(answer) = answer else {
            return false;
        };
        match answer.get() {
            KernAnswer::Mapped(mapped) if is_same(&self.caller.mapped, mapped) => {
                self.caller.mapped.pages = mapped.pages;
                true
            }
            _ => false,
        }
    }

    // What the look-up found is to be settled by a look at the lease.
    fn found(&mut self, held: Held, found: Found) -> OpStep
        requires idle { IsIdle self.old }
        requires held { IsHeld self.old.caller held }
        ensures same { IsUnmoved self.old self.new }
        ensures settles { Settles self.new result }
        ensures acts { IsStep self.old.caller result }
    {
        let checking = Checking {
            check: Check::begin(held.lease, held.own),
            held,
            found,
        };
        self.checking(checking, &Answer::Done, 0)
    }

    fn checking(&mut self, mut checking: Checking, answer: &Answer, now: u32) -> OpStep
        requires idle { IsIdle self.old }
        requires held { IsHeld self.old.caller checking.held }
        requires looks { Looks checking.held checking.check }
        ensures same { IsUnmoved self.old self.new }
        ensures settles { Settles self.new result }
        ensures acts { IsStep self.old.caller result }
    {
        match checking.check.next(answer, now) {
            LeaseStep::Act(action, _) => {
                let mark = checking.found.mark();
                self.go_changing(Change::Checking(checking), OpStep::Act(action, mark))
            }
            _ => damaged(checking.held.lease),
        }
    }

    fn check(
        &mut self,
        alloc: Global,
        mut checking: Checking,
        answer: &Answer,
        now: u32,
    ) -> Result<OpStep, AllocError>
        requires idle { IsIdle self.old }
        requires clock { now ≤ last_tick }
        requires held { IsHeld self.old.caller checking.held }
        requires looks { Looks checking.held checking.check }
        ensures same { IsUnmoved self.old self.new }
        ensures settles { IfOk result (Settles self.new) }
        ensures acts { IfOk result (IsStep self.old.caller) }
    {
        match checking.check.next(answer, now) {
            LeaseStep::Won { .. } => self.checked(alloc, checking.held, checking.found),
            LeaseStep::Expired { addr, word } => Ok(expired(addr, word)),
            // Only a refused look is left.
            _ => Ok(expired(checking.held.lease, 0)),
        }
    }

    // The lease was the call's own when the look-up had ended.
    fn checked(&mut self, alloc: Global, held: Held, found: Found) -> Result<OpStep, AllocError>
        requires idle { IsIdle self.old }
        requires held { IsHeld self.old.caller held }
        ensures same { IsUnmoved self.old self.new }
        ensures settles { IfOk result (Settles self.new) }
        ensures acts { IfOk result (IsStep self.old.caller) }
    {
        match found {
            Found::Name => Ok(self.give(held, Ending::Exists)),
            Found::Place(place) => self.draw(alloc, held, place),
            Found::Damage(addr) => Ok(damaged(addr)),
        }
    }
}

impl Found {
    // A look by which the reply is settled is its point.
    fn mark(self) -> Mark
        ensures { MarksLoad result }
    {
        match self {
            Found::Name => Mark::Point,
            Found::Place(_) | Found::Damage(_) => Mark::Check,
        }
    }
}

// Whether these are one coffer with the same pages at its head.
fn is_same(old: &Mapped, new: &Mapped) -> bool {
    old.id == new.id && old.control == new.control && old.root == new.root
}
