// One call: a step machine that gives one action at a time and is told the answer.
ghost use Rattle.std.specs.Prelude.{◌≡◌, ◌<◌, ◌≤◌, IfOk};
ghost use Rattle.zo_lease.specs.Words.{last_tick};
ghost use Rattle.zo_calls.specs.Acts.{IsStep};
ghost use Rattle.zo_calls.specs.Places.{IsSameCall, IsUnmoved};
ghost use Rattle.zo_calls.specs.Stages.{Begins, FirstStage, Settles, Stands};

use crate::caller::Caller;
use crate::stage::{Change, Reading, Stage};
use crate::step::{OpStep, damaged};
use std::alloc::{AllocError, Global};
use std::mem;
use tr_types::{Answer, Command, Cred, Mapped};
use zo_lease::{Take, Watch};

/// A running call of a command in a coffer that its thread has mapped.
#[derive(Debug, Drop)]
pub struct OpRun {
    pub(crate) caller: Caller,
    pub(crate) command: Command,
    pub(crate) stage: Stage,
}

impl OpRun {
    /// A thread's call of a command in the coffer that it has mapped, by a caller with these credentials.
    pub fn begin(
        _alloc: Global,
        thread: u16,
        _cred: Cred,
        command: Command,
        mapped: Mapped,
    ) -> Result<OpRun, AllocError>
        requires thread { thread < 256 }
        ensures mapped { IfOk result (λ op. op.caller.mapped ≡ mapped) }
        ensures thread { IfOk result (λ op. op.caller.thread ≡ thread) }
        ensures command { IfOk result (λ op. op.command ≡ command) }
        ensures begins { IfOk result Begins }
        ensures stands { IfOk result Stands }
    {
        let caller = Caller { mapped, thread };
        let stage = first_stage(&caller, &command);
        Ok(OpRun {
            caller,
            command,
            stage,
        })
    }

    /// Goes on with the answer to the last action, which was made at this tick. The first call has no use for its answer.
    pub fn next(&mut self, alloc: Global, answer: &Answer, now: u32) -> Result<OpStep, AllocError>
        requires clock { now ≤ last_tick }
        requires stands { Stands self.old }
        ensures same { IsSameCall self.old self.new }
        ensures settles { IfOk result (Settles self.new) }
        ensures stands { IfOk result (λ _. Stands self.new) }
        ensures acts { IfOk result (IsStep self.old.caller) }
    {
        match mem::replace(&mut self.stage, Stage::Over) {
            Stage::Changing(change) => self.change(alloc, change, answer, now),
            Stage::Watching(reading) => self.read(alloc, reading, answer, now),
            Stage::Over => Ok(damaged(self.caller.control())),
        }
    }

    pub(crate) fn go(&mut self, stage: Stage, step: OpStep) -> OpStep
        ensures same { IsUnmoved self.old self.new }
        ensures stage { self.new.stage ≡ stage }
        ensures step { result ≡ step }
    {
        self.stage = stage;
        step
    }
}

// A call that changes begins with the directory's lease, one that reads with a look at it.
fn first_stage(caller: &Caller, command: &Command) -> Stage
    ensures { FirstStage caller.now command.now result }
{
    if caller.mapped.root == 0 {
        return Stage::Over;
    }
    let lease = caller.dir_lease();
    match command {
        Command::Create { .. } => {
            Stage::Changing(Change::Taking(Take::begin(lease.addr, caller.thread)))
        }
        Command::Stat { .. } => Stage::Watching(Reading::Opening(Watch::begin(lease.addr))),
    }
}
