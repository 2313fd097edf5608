// A core: what a run has come to.
ghost use Rattle.std.specs.Prelude.{◌≡◌, ◌<◌, [], length, IfOk, IsSome, OnErr, MatchResult, Ok, false, true};
ghost use Rattle.std.specs.Result.{IsErrOf};
ghost use Rattle.pm_words.specs.Memory.{all_durable, present_values};
ghost use Rattle.zo_model.specs.Commands.{IsCommand};
ghost use Rattle.tr_core.specs.Traces.{IsTraceOf};
ghost use Rattle.tr_core.specs.declared.limits.TheConstants.{TRACE_LIMIT};
ghost use Rattle.tr_core.specs.Core.{GivesAs, HappensAs, HasFailed, HasThread, IsDueAt, IsFull, IsHappened, IsNamed, IsNew, IsQuiet, IsTurned, MayHappen, TurnsAs, due_at, world_at};

use crate::calls::Calls;
use crate::event::FaultEvent;
use crate::fault::CoreFault;
use crate::limits;
use crate::steps::{begin, happen, step};
use bus_machine::{Machine, MountFault, open_law};
use pm_words::{Image, Words};
use std::alloc::Global;
use std::marker::Model;
use tr_dispatch::SessionStep;
use tr_types::{Command, Mark, Trace};

/// What a turn was.
#[derive(Clone, Copy, Debug, PartialEq, Eq)]
pub struct Turned {
    /// How many entries the trace has after the turn.
    pub position: u64,
    /// The turn was the reply, by which the call has ended.
    pub ended: bool,
}

/// A machine over the words of an image, the calls that are under way on it, and the trace of all that has come about
/// since it opened.
///
/// Where memory runs out in a call, the core has failed: the trace is as it was, and each later call that can fail
/// answers `NoMemory`.
#[derive(Drop)]
pub struct Core {
    alloc: Global,
    opening: Image,
    machine: Machine,
    calls: Calls,
    trace: Trace,
    failed: bool,
}

impl Model for Core {
    ghost use Rattle.std.specs.Prelude.{◌≡◌, map, false};
    ghost use Rattle.tr_core.specs.Core.{CoreView};
    ghost use Rattle.tr_core.specs.Places.{place_in};
    ghost use Rattle.tr_core.specs.Standing.{Stands, due_of};
    ghost use Rattle.tr_core.specs.Traces.{IsTraceOf, world_after};

    ghost Value = { CoreView };

    ghost view = { λ c. record { opening = c.opening; trace = c.trace; marks = map due_of c.calls; failed = c.failed } };

    ghost invariant = { λ c. IsTraceOf c.opening c.trace × (c.failed ≡ false → Stands (world_after c.opening c.trace) c.machine (place_in c.calls)) };
}

impl Core {
    /// Over the words of a new image. Nothing is started, and the trace is empty.
    pub fn open(alloc: Global, words: Words) -> Result<Core, CoreFault>
        requires { IsNew words }
        ensures opening { IfOk result (λ c. words ≡ all_durable c.opening) }
        ensures trace { IfOk result (λ c. c.trace ≡ []) }
        ensures quiet { IfOk result IsQuiet }
        ensures works { IfOk result (λ c. c.failed ≡ false) }
        ensures fault { OnErr result (IsErrOf result CoreFault.NoMemory) }
    {
        let opening = words.image()?;
        // No rule of the kernel's pages fails in a new image, and nothing is committed in it.
        open_law();
        let machine = match Machine::open(alloc, words) {
            Ok(machine) => machine,
            Err(MountFault::NoMemory) => return Err(CoreFault::NoMemory),
            Err(MountFault::BadKernel(_)) => unreachable!(),
        };
        Ok(Core {
            alloc,
            opening,
            machine,
            calls: Calls::new(alloc)?,
            trace: Trace::new(alloc),
            failed: false,
        })
    }

    /// The words of the image over which it opened.
    pub fn opening(&self) -> &Image
        ensures { result.now ≡ self.now.opening }
    {
        &self.opening
    }

    /// The trace so far.
    pub fn trace(&self) -> &Trace
        ensures trace { result.now ≡ self.now.trace }
        ensures run { IsTraceOf self.now.opening self.now.trace }
    {
        &self.trace
    }

    /// The trace, at the end of a run.
    pub fn into_trace(self) -> Trace
        ensures trace { result ≡ self.trace }
        ensures run { IsTraceOf self.opening self.trace }
    {
        let Core { trace, .. } = self;
        trace
    }

    /// The image and the trace, at the end of a run. No word is copied.
    pub fn into_end(self) -> (Image, Trace)
        ensures image { self.failed ≡ false → result.0 ≡ present_values (world_at self).base.machine.bus.words }
        ensures trace { result.1 ≡ self.trace }
        ensures run { IsTraceOf self.opening self.trace }
    {
        let Core { machine, trace, .. } = self;
        (machine.into_words().into_image(), trace)
    }

    /// The words of the memory as they stand. Nothing is said of them once memory has run out.
    pub fn words(&self) -> &Words
        ensures { self.now.failed ≡ false → result.now ≡ (world_at self.now).base.machine.bus.words }
    {
        self.machine.words()
    }

    /// The mark of a thread's next action: `Plain` where its reply comes next, none where it has no call.
    pub fn due(&self, thread: u16) -> Option<Mark>
        ensures { result ≡ due_at self.now thread }
    {
        let waiting = self.calls.of(thread)?;
        Some(match &waiting.call.next {
            SessionStep::Act(_, mark) => *mark,
            SessionStep::Over(_) => Mark::Plain,
        })
    }

    /// Gives a command to a thread, whose turns make the call from then on. As long as calls don't cross, no call is under
    /// way then.
    pub fn give(&mut self, thread: u16, command: Command) -> Result<(), CoreFault>
        requires command { IsCommand command }
        requires quiet { IsQuiet self.old }
        ensures { GivesAs self.old self.new thread command result }
    {
        self.check_works()?;
        self.check_thread(thread)?;
        if self.calls.of(thread).is_some() {
            return Err(CoreFault::Running);
        }
        self.check_room()?;
        self.begin_call(thread, command)
    }

    // Begins a thread's call: its first step is ready then.
    fn begin_call(&mut self, thread: u16, command: Command) -> Result<(), CoreFault>
        requires works { self.old.failed ≡ false }
        requires started { HasThread self.old thread }
        requires room { length self.old.trace < TRACE_LIMIT }
        requires command { IsCommand command }
        requires quiet { IsQuiet self.old }
        ensures { MatchResult result (λ _. GivesAs self.old self.new thread command (Ok tt)) (λ fault. (fault ≡ CoreFault.NoMemory) × HasFailed self.old self.new) }
    {
        let cred = self.machine.cred_of(thread);
        match begin(self.alloc, &mut self.trace, thread, cred, command) {
            Ok(waiting) => {
                self.calls.set(thread, Some(waiting));
                Ok(())
            }
            Err(_) => {
                self.failed = true;
                Err(CoreFault::NoMemory)
            }
        }
    }

    /// Makes a turn of a thread's call at a tick: its next action, or its reply.
    pub fn turn(&mut self, thread: u16, now: u32) -> Result<Turned, CoreFault>
        requires { IsDueAt self.old now }
        ensures { TurnsAs self.old self.new thread now result }
    {
        self.check_works()?;
        if self.calls.of(thread).is_none() {
            self.check_thread(thread)?;
            return Err(CoreFault::Idle);
        }
        self.check_room()?;
        self.make_turn(thread, now)
    }

    // Makes the step of a thread's call that is ready.
    fn make_turn(&mut self, thread: u16, now: u32) -> Result<Turned, CoreFault>
        requires works { self.old.failed ≡ false }
        requires started { HasThread self.old thread }
        requires call { IsSome (due_at self.old thread) }
        requires room { length self.old.trace < TRACE_LIMIT }
        requires due { IsDueAt self.old now }
        ensures { MatchResult result (IsTurned self.old self.new thread now) (λ fault. (fault ≡ CoreFault.NoMemory) × HasFailed self.old self.new) }
    {
        let Some(waiting) = self.calls.take(thread) else {
            unreachable!()
        };
        let (alloc, machine, trace) = (self.alloc, &mut self.machine, &mut self.trace);
        match step(alloc, machine, trace, thread, now, waiting) {
            Ok(after) => {
                let ended = after.is_none();
                self.calls.set(thread, after);
                Ok(Turned {
                    position: self.trace.len() as u64,
                    ended,
                })
            }
            Err(_) => {
                self.failed = true;
                Err(CoreFault::NoMemory)
            }
        }
    }

    /// Lets an event come about at a tick.
    pub fn event(&mut self, event: &FaultEvent, _now: u32) -> Result<(), CoreFault>
        requires { MayHappen self.old event.now }
        ensures { HappensAs self.old self.new event.now result }
    {
        self.check_works()?;
        self.check_named(event)?;
        self.check_room()?;
        self.make_event(event)
    }

    // Lets an event come about that may.
    fn make_event(&mut self, event: &FaultEvent) -> Result<(), CoreFault>
        requires works { self.old.failed ≡ false }
        requires named { IsNamed self.old event.now }
        requires room { length self.old.trace < TRACE_LIMIT }
        requires may { MayHappen self.old event.now }
        ensures { MatchResult result (λ _. IsHappened self.old self.new event.now) (λ fault. (fault ≡ CoreFault.NoMemory) × HasFailed self.old self.new) }
    {
        match happen(self.alloc, &mut self.machine, &mut self.trace, event) {
            Ok(()) => Ok(()),
            Err(_) => {
                self.failed = true;
                Err(CoreFault::NoMemory)
            }
        }
    }

    // Memory hasn't run out.
    fn check_works(&self) -> Result<(), CoreFault>
        ensures { MatchResult result (λ _. self.now.failed ≡ false) (λ fault. (fault ≡ CoreFault.NoMemory) × (self.now.failed ≡ true)) }
    {
        if self.failed {
            return Err(CoreFault::NoMemory);
        }
        Ok(())
    }

    // The thread was started.
    fn check_thread(&self, thread: u16) -> Result<(), CoreFault>
        requires works { self.now.failed ≡ false }
        ensures { MatchResult result (λ _. HasThread self.now thread) (λ fault. (fault ≡ CoreFault.NoThread) × (HasThread self.now thread → ⊥)) }
    {
        if self.machine.has_thread(thread) {
            Ok(())
        } else {
            Err(CoreFault::NoThread)
        }
    }

    // Whom the event names was started.
    fn check_named(&self, event: &FaultEvent) -> Result<(), CoreFault>
        requires works { self.now.failed ≡ false }
        ensures { MatchResult result (λ _. IsNamed self.now event.now) (λ fault. (fault ≡ CoreFault.NoThread) × (IsNamed self.now event.now → ⊥)) }
    {
        match event {
            FaultEvent::Mkfs(_) | FaultEvent::Process { .. } => Ok(()),
            FaultEvent::Thread { process, .. } => {
                if self.machine.has_process(*process) {
                    Ok(())
                } else {
                    Err(CoreFault::NoThread)
                }
            }
            FaultEvent::Stray { thread, .. } => self.check_thread(*thread),
        }
    }

    // The trace has room for an entry.
    fn check_room(&self) -> Result<(), CoreFault>
        ensures { MatchResult result (λ _. length self.now.trace < TRACE_LIMIT) (λ fault. (fault ≡ CoreFault.Full) × IsFull self.now) }
    {
        if self.trace.len() >= limits::TRACE_LIMIT {
            return Err(CoreFault::Full);
        }
        Ok(())
    }
}
