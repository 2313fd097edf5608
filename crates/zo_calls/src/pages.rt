// The pages of a new file: drawn from the thread's pool, and the rest from the kernel; put back where the kernel has too few.
ghost use Rattle.std.specs.Prelude.{◌≡◌, ◌↔◌, ◌⊎◌, ◌-◌, ℕ, ◌*◌, ◌^◌, ◌<◌, ◌≤◌, length, IfOk, MatchOption};
ghost use Rattle.zo_lease.specs.Words.{last_tick};
ghost use Rattle.zo_calls.specs.Acts.{IsStep, MayAct};
ghost use Rattle.zo_calls.specs.Places.{IsUnmoved};
ghost use Rattle.zo_calls.specs.Stages.{IsHeld, IsWanting, Looks, Pops, Pushes, Settles, IsIdle, pages_for};

use crate::caller::Tries;
use crate::op::OpRun;
use crate::stage::{Change, Drawing, Ending, Guard, Popping, Pushing, Short};
use crate::step::{OpStep, busy, damaged, expired, store};
use sqlite_items::Boxed;
use std::alloc::{AllocError, Global};
use tr_types::{Action, Answer, Kcall, KernAnswer, Mark};
use zo_layout::{PAGE_BYTES, page_at};
use zo_lease::{Check, LeaseStep, Pop, Push};
use zo_plan::{Held, Place};

impl Drawing {
    /// How many pages are still to be drawn: for the file, and for an entry page where its name needs one.
    fn wanted(&self) -> usize
        ensures { result ≡ pages_for self.now.place - length self.now.drawn.items }
    {
        (self.place.entry_pages() as usize + 1).saturating_sub(self.drawn.len())
    }
}

impl OpRun {
    /// Draws pages for a new file with this place.
    pub(crate) fn draw(
        &mut self,
        alloc: Global,
        held: Held,
        place: Place,
    ) -> Result<OpStep, AllocError>
        requires idle { IsIdle self.old }
        requires held { IsHeld self.old.caller held }
        ensures same { IsUnmoved self.old self.new }
        ensures settles { IfOk result (Settles self.new) }
        ensures acts { IfOk result (IsStep self.old.caller) }
    {
        let drawn = Vec::new(alloc);
        let drawing = Drawing { held, place, drawn };
        Ok(self.pop_next(drawing, Tries::none()))
    }

    // Begins to take a page out of the pool, where so many tries for its lease have failed.
    fn pop_next(&mut self, drawing: Drawing, tries: Tries) -> OpStep
        requires idle { IsIdle self.old }
        requires held { IsHeld self.old.caller drawing.held }
        requires few { IsWanting drawing }
        ensures same { IsUnmoved self.old self.new }
        ensures settles { Settles self.new result }
        ensures acts { IsStep self.old.caller result }
    {
        let pool = self.caller.pool_lease();
        let mut pop = Pop::again(pool.addr, self.caller.thread, tries.failed);
        match pop.next(&Answer::Done, 0) {
            LeaseStep::Act(action, mark) => {
                let popping = Popping { pop, drawing };
                self.go_changing(Change::Popping(popping), OpStep::Act(action, mark))
            }
            _ => damaged(pool.addr),
        }
    }

    pub(crate) fn pop(
        &mut self,
        alloc: Global,
        mut popping: Popping,
        answer: &Answer,
        now: u32,
    ) -> Result<OpStep, AllocError>
        requires idle { IsIdle self.old }
        requires clock { now ≤ last_tick }
        requires pops { Pops self.old.caller popping.pop }
        requires held { IsHeld self.old.caller popping.drawing.held }
        requires few { IsWanting popping.drawing }
        ensures same { IsUnmoved self.old self.new }
        ensures settles { IfOk result (Settles self.new) }
        ensures acts { IfOk result (IsStep self.old.caller) }
    {
        match popping.pop.next(answer, now) {
            LeaseStep::Act(action, mark) => Ok(self.pop_by(popping, action, mark)),
            LeaseStep::Won { value: 0, .. } => self.ask_pages(alloc, popping.drawing),
            LeaseStep::Won { value, .. } => self.popped(alloc, popping, value, now),
            LeaseStep::Busy { addr, word, now } => {
                let held = popping.drawing.held;
                Ok(self.give(held, Ending::Busy { addr, word, now }))
            }
            LeaseStep::Expired { addr, word } => Ok(expired(addr, word)),
            LeaseStep::Damaged(addr) => Ok(damaged(addr)),
        }
    }

    // The pop goes on with this action. Before a store the directory's lease is looked at too.
    fn pop_by(&mut self, popping: Popping, action: Action, mark: Mark) -> OpStep
        requires idle { IsIdle self.old }
        requires pops { Pops self.old.caller popping.pop }
        requires held { IsHeld self.old.caller popping.drawing.held }
        requires few { IsWanting popping.drawing }
        requires may { MayAct self.old.caller action mark }
        ensures same { IsUnmoved self.old self.new }
        ensures settles { Settles self.new result }
        ensures acts { IsStep self.old.caller result }
    {
        match action {
            Action::Store(addr, word) => {
                let guard = Guard::new(popping.drawing.held, addr, word);
                self.guard_pop(popping, guard, &Answer::Done, 0)
            }
            action => self.go_changing(Change::Popping(popping), OpStep::Act(action, mark)),
        }
    }

    // The page is out of the pool.
    fn popped(
        &mut self,
        alloc: Global,
        popping: Popping,
        addr: u64,
        now: u32,
    ) -> Result<OpStep, AllocError>
        requires idle { IsIdle self.old }
        requires held { IsHeld self.old.caller popping.drawing.held }
        requires few { IsWanting popping.drawing }
        ensures same { IsUnmoved self.old self.new }
        ensures settles { IfOk result (Settles self.new) }
        ensures acts { IfOk result (IsStep self.old.caller) }
    {
        let Popping { pop, mut drawing } = popping;
        match page_of(addr) {
            Some(page) if self.may_draw(&drawing, page) => {
                drawing.drawn.push(page)?;
                if drawing.wanted() > 0 {
                    Ok(self.pop_next(drawing, Tries::of(pop.failed())))
                } else {
                    self.make(alloc, drawing, now)
                }
            }
            _ => Ok(damaged(self.caller.pool_head())),
        }
    }

    // A page can be drawn once, and none on which the call stands.
    fn may_draw(&self, drawing: &Drawing, page: u32) -> bool {
        !self.caller.stands_on(page) && !drawing.drawn.contains(&page)
    }

    // Looks at the directory's lease, and then makes the store that takes the page out.
    pub(crate) fn guard_pop(
        &mut self,
        popping: Popping,
        mut guard: Guard,
        answer: &Answer,
        now: u32,
    ) -> OpStep
        requires idle { IsIdle self.old }
        requires pops { Pops self.old.caller popping.pop }
        requires held { IsHeld self.old.caller popping.drawing.held }
        requires few { IsWanting popping.drawing }
        requires looks { Looks popping.drawing.held guard.check }
        ensures same { IsUnmoved self.old self.new }
        ensures settles { Settles self.new result }
        ensures acts { IsStep self.old.caller result }
    {
        match guard.check.next(answer, now) {
            LeaseStep::Act(action, mark) => {
                self.go_changing(Change::PopGuard(popping, guard), OpStep::Act(action, mark))
            }
            LeaseStep::Won { .. } => {
                self.go_changing(Change::Popping(popping), store(guard.addr, guard.word))
            }
            LeaseStep::Expired { addr, word } => {
                self.give_pool(popping.pop.held(), Ending::Expired { addr, word })
            }
            _ => {
                let addr = popping.drawing.held.lease;
                self.give_pool(popping.pop.held(), Ending::Expired { addr, word: 0 })
            }
        }
    }

    // The pool has no more pages: the kernel is asked for the rest.
    fn ask_pages(&mut self, alloc: Global, drawing: Drawing) -> Result<OpStep, AllocError>
        requires idle { IsIdle self.old }
        requires held { IsHeld self.old.caller drawing.held }
        requires few { IsWanting drawing }
        ensures same { IsUnmoved self.old self.new }
        ensures settles { IfOk result (Settles self.new) }
        ensures acts { IfOk result (IsStep self.old.caller) }
    {
        let enlarge = Kcall::Enlarge {
            id: self.caller.mapped.id,
            count: drawing.wanted() as u32,
        };
        let enlarge = Boxed::new(alloc, enlarge)?;
        let step = OpStep::Act(Action::Kernel(enlarge), Mark::Plain);
        Ok(self.go_changing(Change::Enlarging(drawing), step))
    }

    // The kernel has answered the call for pages.
    pub(crate) fn enlarged(
        &mut self,
        alloc: Global,
        drawing: Drawing,
        answer: &Answer,
        now: u32,
    ) -> Result<OpStep, AllocError>
        requires idle { IsIdle self.old }
        requires clock { now ≤ last_tick }
        requires held { IsHeld self.old.caller drawing.held }
        ensures same { IsUnmoved self.old self.new }
        ensures settles { IfOk result (Settles self.new) }
        ensures acts { IfOk result (IsStep self.old.caller) }
    {
        let Answer::Kern(answer) = answer else {
            return Ok(damaged(self.caller.control()));
        };
        match answer.get() {
            KernAnswer::Pages(pages) => self.fill(alloc, drawing, pages.as_slice(), now),
            KernAnswer::NoPages { asked, free } => {
                let short = Short {
                    need: *asked,
                    free: *free,
                };
                Ok(self.put_back(drawing.held, drawing.drawn, short, Tries::none()))
            }
            _ => Ok(damaged(self.caller.control())),
        }
    }

    fn fill(
        &mut self,
        alloc: Global,
        drawing: Drawing,
        pages: &[u32],
        now: u32,
    ) -> Result<OpStep, AllocError>
        requires idle { IsIdle self.old }
        requires held { IsHeld self.old.caller drawing.held }
        ensures same { IsUnmoved self.old self.new }
        ensures settles { IfOk result (Settles self.new) }
        ensures acts { IfOk result (IsStep self.old.caller) }
    {
        if pages.len() != drawing.wanted() {
            return Ok(damaged(self.caller.control()));
        }
        let Drawing {
            held,
            place,
            mut drawn,
        } = drawing;
        for &page in pages {
            drawn.push(page)?;
        }
        self.make(alloc, Drawing { held, place, drawn }, now)
    }

    // Puts these pages back, the last one first, and then gives the directory's lease back.
    fn put_back(&mut self, held: Held, mut left: Vec<u32>, short: Short, tries: Tries) -> OpStep
        requires idle { IsIdle self.old }
        requires held { IsHeld self.old.caller held }
        ensures same { IsUnmoved self.old self.new }
        ensures settles { Settles self.new result }
        ensures acts { IsStep self.old.caller result }
    {
        let Some(page) = left.pop() else {
            return self.give(held, Ending::Short(short));
        };
        let pool = self.caller.pool_lease();
        let mut push = Push::again(pool.addr, self.caller.thread, page_at(page), tries.failed);
        match push.next(&Answer::Done, 0) {
            LeaseStep::Act(action, mark) => {
                let pushing = Pushing {
                    push,
                    held,
                    left,
                    short,
                };
                self.go_changing(Change::Pushing(pushing), OpStep::Act(action, mark))
            }
            _ => damaged(pool.addr),
        }
    }

    pub(crate) fn push(&mut self, mut pushing: Pushing, answer: &Answer, now: u32) -> OpStep
        requires idle { IsIdle self.old }
        requires clock { now ≤ last_tick }
        requires pushes { Pushes self.old.caller pushing.push }
        requires held { IsHeld self.old.caller pushing.held }
        ensures same { IsUnmoved self.old self.new }
        ensures settles { Settles self.new result }
        ensures acts { IsStep self.old.caller result }
    {
        match pushing.push.next(answer, now) {
            LeaseStep::Act(action, mark) => self.push_by(pushing, action, mark),
            LeaseStep::Won { .. } => {
                let tries = Tries::of(pushing.push.failed());
                self.put_back(pushing.held, pushing.left, pushing.short, tries)
            }
            // The pool's lease can't be had: the pages stay out.
            LeaseStep::Busy { .. } => self.give(pushing.held, Ending::Short(pushing.short)),
            // It was taken away, so that the directory's is left to the next taker.
            LeaseStep::Expired { .. } | LeaseStep::Damaged(_) => {
                OpStep::Over(Ending::Short(pushing.short).reply())
            }
        }
    }

    // The push goes on with this action. Before a store the directory's lease is looked at too.
    fn push_by(&mut self, pushing: Pushing, action: Action, mark: Mark) -> OpStep
        requires idle { IsIdle self.old }
        requires pushes { Pushes self.old.caller pushing.push }
        requires held { IsHeld self.old.caller pushing.held }
        requires may { MayAct self.old.caller action mark }
        ensures same { IsUnmoved self.old self.new }
        ensures settles { Settles self.new result }
        ensures acts { IsStep self.old.caller result }
    {
        match action {
            Action::Store(addr, word) => {
                let guard = Guard::new(pushing.held, addr, word);
                self.guard_push(pushing, guard, &Answer::Done, 0)
            }
            action => self.go_changing(Change::Pushing(pushing), OpStep::Act(action, mark)),
        }
    }

    // Looks at the directory's lease, and then makes the store that puts the page back.
    pub(crate) fn guard_push(
        &mut self,
        pushing: Pushing,
        mut guard: Guard,
        answer: &Answer,
        now: u32,
    ) -> OpStep
        requires idle { IsIdle self.old }
        requires pushes { Pushes self.old.caller pushing.push }
        requires held { IsHeld self.old.caller pushing.held }
        requires looks { Looks pushing.held guard.check }
        ensures same { IsUnmoved self.old self.new }
        ensures settles { Settles self.new result }
        ensures acts { IsStep self.old.caller result }
    {
        match guard.check.next(answer, now) {
            LeaseStep::Act(action, mark) => {
                self.go_changing(Change::PushGuard(pushing, guard), OpStep::Act(action, mark))
            }
            LeaseStep::Won { .. } => {
                self.go_changing(Change::Pushing(pushing), store(guard.addr, guard.word))
            }
            _ => self.give_pool(pushing.push.held(), Ending::Short(pushing.short)),
        }
    }
}

impl Guard {
    fn new(held: Held, addr: u64, word: u64) -> Guard
        ensures looks { Looks held result.check }
        ensures store { (result.addr ≡ addr) × (result.word ≡ word) }
    {
        Guard {
            check: Check::begin(held.lease, held.own),
            addr,
            word,
        }
    }
}

// The number of the page at this address, if it is one of the layout.
fn page_of(addr: u64) -> Option<u32>
    ensures { MatchOption result ((page : ℕ) → page < 2 ^ 32 → addr ≡ 4096 * page → ⊥) (λ page. addr ≡ 4096 * page) }
{
    if addr % PAGE_BYTES == 0 {
        u32::try_from(addr / PAGE_BYTES).ok()
    } else {
        None
    }
}
