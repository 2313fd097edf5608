// One call of a thread, from the look for its coffer to the reply: a step machine that gives one action at a time and
// is told the answer. The coffer's key is open while the call works in it, and at no other time.
ghost use Rattle.std.specs.Prelude.{◌≡◌, ◌≢◌, ◌↔◌, ◌≤◌, IfOk, IsTrue, MatchOption, None, false};
ghost use Rattle.std.specs.Option.{option_copied};
ghost use Rattle.zo_model.specs.Commands.{IsCommand, consulted_path};
ghost use Rattle.tr_types.specs.declared.action.Answer.{Answer};
ghost use Rattle.tr_dispatch.specs.Sessions.{GivesAction, IsWorking, LeadsTo, RunsOn, SessionStepsFrom, answer_told, is_over, writes, right_of};
ghost use Rattle.tr_dispatch.specs.declared.session.Stage.TheVariants as stage;

use page_rights::Pkru;
use sqlite_items::Boxed;
use std::alloc::{AllocError, Global};
use std::mem;
use tr_types::{
    Action, Answer, Command, Cred, Kcall, KernAnswer, Mapped, Mark, Path, Reply, Right,
};
use zo_ops::{OpRun, OpStep};

/// The root coffer's number.
const ROOT_COFFER: u16 = 1;

/// The greatest key of a coffer. The least is 1.
const LAST_KEY: u8 = 15;

/// A running call of a thread, with all that it does before and after its work in the coffer.
#[derive(Debug, Drop)]
pub struct Session {
    thread: u16,
    cred: Cred,
    command: Command,
    stage: Stage,
}

/// What a session does next: an action, which it is told the answer to, or the reply, which is its last step.
#[derive(Debug, Drop)]
pub enum SessionStep {
    Act(Action, Mark),
    Over(Reply),
}

/// What the session waits for.
#[derive(Debug, Drop)]
enum Stage {
    Begin,
    Finding,
    Mapping,
    /// The window is open, and the answer is the call's. (Of the one to its opening the call has no use.)
    Working(OpRun),
    Closing(Reply),
    Ending(Reply),
    Over,
}

impl Session {
    /// The session of a thread's call with this command, for a user. Addresses in its actions are in bytes.
    pub fn begin(thread: u16, cred: Cred, command: Command) -> Session
        ensures thread { result.thread ≡ thread }
        ensures command { result.command ≡ command }
        ensures stage { result.stage ≡ stage.Begin }
    {
        Session {
            thread,
            cred,
            command,
            stage: Stage::Begin,
        }
    }

    /// The thread whose call it is.
    pub fn thread(&self) -> u16
        ensures { result ≡ self.now.thread }
    {
        self.thread
    }

    /// Goes on at this tick with the answer to the last action; there is none at the first step. After the reply no
    /// step is left. No action depends on the tick yet, since no lease exists.
    pub fn next(
        &mut self,
        alloc: Global,
        answer: Option<&Answer>,
        now: u32,
    ) -> Result<SessionStep, AllocError>
        requires runs { is_over self.old.stage ≡ false }
        ensures thread { self.new.thread ≡ self.old.thread }
        ensures command { self.new.command ≡ self.old.command }
        ensures runs { IfOk result (RunsOn self.new.stage) }
        ensures built { IsCommand self.old.command → IfOk result GivesAction }
        ensures gives { IfOk result (SessionStepsFrom self.old (answer_told (option_copied answer.entry)) self.new) }
    {
        let answer = answer.unwrap_or(&Answer::Done);
        // The work in the coffer is the bulk of a call, and goes on where it stands.
        if let Stage::Working(_) = self.stage {
            return self.work(alloc, answer, now);
        }
        match mem::replace(&mut self.stage, Stage::Over) {
            Stage::Begin => self.find(alloc),
            Stage::Finding => self.map(alloc, answer),
            Stage::Mapping => self.open(alloc, answer),
            Stage::Closing(reply) => self.unmap(alloc, reply),
            Stage::Ending(reply) => Ok(SessionStep::Over(reply)),
            Stage::Working(_) | Stage::Over => unreachable!(),
        }
    }

    fn find(&mut self, alloc: Global) -> Result<SessionStep, AllocError>
        ensures same { (self.new.thread ≡ self.old.thread) × (self.new.command ≡ self.old.command) }
        ensures runs { IfOk result (RunsOn self.new.stage) }
        ensures built { IsCommand self.old.command → IfOk result GivesAction }
        ensures gives { (answer : Answer) → IfOk result (LeadsTo self.old.thread self.old.command stage.Begin answer self.new.stage) }
    {
        let path = consulted_path(alloc, &self.command)?;
        let look = kernel(alloc, Kcall::Find { path, also: None })?;
        self.stage = Stage::Finding;
        Ok(SessionStep::Act(look, Mark::Plain))
    }

    // The coffer is found.
    fn map(&mut self, alloc: Global, answer: &Answer) -> Result<SessionStep, AllocError>
        ensures same { (self.new.thread ≡ self.old.thread) × (self.new.command ≡ self.old.command) }
        ensures runs { IfOk result (RunsOn self.new.stage) }
        ensures built { IsCommand self.old.command → IfOk result GivesAction }
        ensures gives { IfOk result (LeadsTo self.old.thread self.old.command stage.Finding answer.now self.new.stage) }
    {
        if !is_found(answer) {
            return Ok(damaged());
        }
        let call = Kcall::Map {
            path: consulted_path(alloc, &self.command)?,
            right: right_of(&self.command),
            exclusive: false,
        };
        let map = kernel(alloc, call)?;
        self.stage = Stage::Mapping;
        Ok(SessionStep::Act(map, Mark::Plain))
    }

    // The coffer is mapped.
    fn open(&mut self, alloc: Global, answer: &Answer) -> Result<SessionStep, AllocError>
        ensures same { (self.new.thread ≡ self.old.thread) × (self.new.command ≡ self.old.command) }
        ensures runs { IfOk result (RunsOn self.new.stage) }
        ensures built { IfOk result GivesAction }
        ensures gives { IfOk result (LeadsTo self.old.thread self.old.command stage.Mapping answer.now self.new.stage) }
    {
        let Some(mapped) = mapped(answer) else {
            return Ok(damaged());
        };
        if !is_key(mapped.key) {
            return Ok(damaged());
        }
        let pkru = Pkru::only(mapped.key, writes(&self.command));
        let op = OpRun::begin(alloc, self.thread, self.cred, &self.command, mapped)?;
        self.stage = Stage::Working(op);
        Ok(SessionStep::Act(Action::Pkru(pkru.0), Mark::Open))
    }

    // The call goes on; at its end the window is closed.
    fn work(&mut self, alloc: Global, answer: &Answer, now: u32) -> Result<SessionStep, AllocError>
        requires works { IsWorking self.old.stage }
        ensures same { (self.new.thread ≡ self.old.thread) × (self.new.command ≡ self.old.command) }
        ensures runs { IfOk result (RunsOn self.new.stage) }
        ensures built { IfOk result GivesAction }
        ensures gives { IfOk result (LeadsTo self.old.thread self.old.command self.old.stage answer.now self.new.stage) }
    {
        let Stage::Working(op) = &mut self.stage else {
            unreachable!()
        };
        match op.next(alloc, &self.command, answer, now)? {
            OpStep::Act(action, mark) => Ok(SessionStep::Act(action, mark)),
            OpStep::Over(reply) => {
                self.stage = Stage::Closing(reply);
                Ok(SessionStep::Act(Action::Pkru(Pkru::closed().0), Mark::Close))
            }
        }
    }

    // The window is closed: gives the coffer back.
    fn unmap(&mut self, alloc: Global, reply: Reply) -> Result<SessionStep, AllocError>
        ensures same { (self.new.thread ≡ self.old.thread) × (self.new.command ≡ self.old.command) }
        ensures runs { IfOk result (RunsOn self.new.stage) }
        ensures built { IfOk result GivesAction }
        ensures gives { (answer : Answer) → IfOk result (LeadsTo self.old.thread self.old.command (stage.Closing reply) answer self.new.stage) }
    {
        let unmap = kernel(alloc, Kcall::Unmap { id: ROOT_COFFER })?;
        self.stage = Stage::Ending(reply);
        Ok(SessionStep::Act(unmap, Mark::Plain))
    }
}

fn kernel(alloc: Global, call: Kcall) -> Result<Action, AllocError>
    ensures { IfOk result (λ action. action ≡ Action.Kernel call) }
{
    Ok(Action::Kernel(Boxed::new(alloc, call)?))
}

// An answer that doesn't fit.
fn damaged() -> SessionStep
    ensures { result ≡ SessionStep.Over (Reply.Damaged 0) }
{
    SessionStep::Over(Reply::Damaged { addr: 0 })
}

// The path whose coffer a command consults: of a `create` that of the root directory.
fn consulted_path(alloc: Global, command: &Command) -> Result<Path, AllocError>
    ensures { IfOk result (λ path. path ≡ consulted_path command.now) }
{
    match command {
        Command::Create { .. } => Ok(Path::new(Vec::from_slice(alloc, b"/")?)),
        Command::Stat { path } => path.copy(alloc),
    }
}

// Whether a command stores.
fn writes(command: &Command) -> bool
    ensures { result ≡ writes command.now }
{
    matches!(command, Command::Create { .. })
}

fn right_of(command: &Command) -> Right
    ensures { result ≡ right_of command.now }
{
    match command {
        Command::Create { .. } => Right::WRITE,
        Command::Stat { .. } => Right::READ,
    }
}

fn is_found(answer: &Answer) -> bool
    ensures { (first second : _) → answer.now ≡ Answer.Kern (KernAnswer.Found first second) → IsTrue result }
{
    match answer {
        Answer::Kern(answer) => matches!(answer.get(), KernAnswer::Found { .. }),
        _ => false,
    }
}

fn mapped(answer: &Answer) -> Option<Mapped>
    ensures { MatchOption result ((m : _) → answer.now ≢ Answer.Kern (KernAnswer.Mapped m)) (λ m. answer.now ≡ Answer.Kern (KernAnswer.Mapped m)) }
{
    match answer {
        Answer::Kern(answer) => match answer.get() {
            KernAnswer::Mapped(m) => Some(*m),
            _ => None,
        },
        _ => None,
    }
}

// Whether a number is a coffer's key.
fn is_key(key: u8) -> bool
    ensures { IsTrue result ↔ ((1 ≤ key) × (key ≤ 15)) }
{
    1 <= key && key <= LAST_KEY
}
