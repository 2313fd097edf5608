// What a core does on its machine and trace: the begin of a call, a step of one, an event.
ghost use Rattle.std.specs.Prelude.{◌≡◌, ◌++◌, ◌∷◌, [], MatchResult, IfOk, OnErr, Ok, false};
ghost use Rattle.std.specs.Result.{IsErr, IsErrOf};
ghost use Rattle.zo_model.specs.Commands.{IsCommand};
ghost use Rattle.bus_model.specs.Machine.{ThreadWasStarted};
ghost use Rattle.tr_types.specs.declared.entry.Entry.TheVariants as entry;
ghost use Rattle.tr_dispatch.specs.Sessions.{GivesAction, RunsOn};
ghost use Rattle.tr_core.specs.Steps.{Begins, CanHappen, Happens, HappensBy, NobodyHasEnded, Steps};

use crate::calls::{Ready, Waiting};
use crate::event::FaultEvent;
use bus_machine::{BusFault, Machine};
use sqlite_items::Boxed;
use std::alloc::{AllocError, Global};
use std::mem;
use tr_dispatch::{Session, SessionStep};
use tr_types::{Command, Cred, Entry, Reply, Trace};

/// Begins a call of a thread, for a user, with its first step ready.
pub fn begin(
    alloc: Global,
    trace: &mut Trace,
    thread: u16,
    cred: Cred,
    command: Command,
) -> Result<Waiting, AllocError>
    requires { IsCommand command }
    ensures trace { MatchResult result (λ _. trace.new ≡ trace.old ++ entry.Call thread command ∷ []) (λ _. trace.new ≡ trace.old) }
    ensures begins { IfOk result (Begins thread command) }
{
    let told = command.copy(alloc)?;
    let mut session = Session::begin(thread, cred, command);
    let next = session.next(alloc, None, 0)?;
    let call = Box::new(alloc, Ready { session, next })?;
    trace.push(Entry::Call {
        thread,
        command: told,
    })?;
    Ok(Waiting { call })
}

/// Makes the step of a call that is ready, at a tick. The call goes on with its next step ready, or has ended by its reply.
pub fn step(
    alloc: Global,
    machine: &mut Machine,
    trace: &mut Trace,
    thread: u16,
    now: u32,
    mut waiting: Waiting,
) -> Result<Option<Waiting>, AllocError>
    requires works { machine.old.failed ≡ false }
    requires up { NobodyHasEnded machine.old }
    requires started { ThreadWasStarted machine.old.bus thread }
    requires runs { RunsOn waiting.call.value.session.stage waiting.call.value.next }
    requires gives { GivesAction waiting.call.value.next }
    ensures steps { IfOk result (Steps waiting thread now machine.old machine.new trace.old trace.new) }
    ensures err { OnErr result (trace.new ≡ trace.old) }
{
    let call = &mut waiting.call;
    // The step is taken out; nothing reads what stands there until the next one does.
    match mem::replace(&mut call.next, SessionStep::Over(Reply::Made)) {
        SessionStep::Act(action, mark) => {
            let answer = done(machine.act(thread, now, &action))?;
            call.next = call.session.next(alloc, Some(&answer), now)?;
            trace.push(Entry::Act {
                thread,
                now,
                mark,
                action,
                answer,
            })?;
            Ok(Some(waiting))
        }
        SessionStep::Over(reply) => {
            trace.push(Entry::Reply { thread, reply })?;
            Ok(None)
        }
    }
}

/// Lets an event come about.
pub fn happen(
    alloc: Global,
    machine: &mut Machine,
    trace: &mut Trace,
    event: &FaultEvent,
) -> Result<(), AllocError>
    requires works { machine.old.failed ≡ false }
    requires up { NobodyHasEnded machine.old }
    requires can { CanHappen machine.old.bus event.now }
    ensures { MatchResult result (λ _. Happens event.now machine.old machine.new trace.old trace.new) (λ _. trace.new ≡ trace.old) }
{
    trace.push(entry_of(alloc, machine, event)?)
}

// The entry of an event, which has come about on the machine.
fn entry_of(alloc: Global, machine: &mut Machine, event: &FaultEvent) -> Result<Entry, AllocError>
    requires works { machine.old.failed ≡ false }
    requires up { NobodyHasEnded machine.old }
    requires can { CanHappen machine.old.bus event.now }
    ensures { IfOk result (HappensBy event.now machine.old machine.new) }
{
    match *event {
        FaultEvent::Mkfs(pages) => Ok(Entry::Mkfs(pages)),
        FaultEvent::Process { process, cred } => {
            let noted = Boxed::new(alloc, cred)?;
            done(machine.start_process(process, cred))?;
            Ok(Entry::Process {
                process,
                cred: noted,
            })
        }
        FaultEvent::Thread { thread, process } => {
            done(machine.start_thread(thread, process))?;
            Ok(Entry::Thread { thread, process })
        }
        FaultEvent::Stray { thread, addr, word } => {
            let answer = done(machine.stray(thread, addr, word))?;
            Ok(Entry::Stray {
                thread,
                addr,
                word,
                answer,
            })
        }
    }
}

// Of the machine's faults none can come here but want of memory.
fn done<T>(told: Result<T, BusFault>) -> Result<T, AllocError>
    requires { (fault : BusFault) → IsErrOf told fault → fault ≡ BusFault.NoMemory }
    ensures { MatchResult told (λ x. result ≡ Ok x) (λ _. IsErr result) }
{
    match told {
        Ok(x) => Ok(x),
        Err(BusFault::NoMemory) => Err(AllocError),
        Err(_) => unreachable!(),
    }
}
