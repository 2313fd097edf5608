// Runs a script line by line over a core, and tells each entry as soon as it stands.
ghost use Rattle.std.specs.Prelude.{◌≡◌, ◌≤◌, List, [], ◌∷◌, ◌++◌, IfOk, OnOk, false};
ghost use Rattle.tr_types.specs.Fold.{Each};
ghost use Rattle.tr_types.specs.declared.entry.Entry.{Entry};
ghost use Rattle.tr_types.specs.declared.entry.Entry.TheVariants as entry;
ghost use Rattle.zo_model.specs.Commands.{IsCommand};
ghost use Rattle.tr_core.specs.Core.{Adds, IsHappened, IsOfEvent, IsTurned};
ghost use Rattle.tr_core.specs.declared.run.Turned.{Turned};
ghost use Rattle.tr_script.specs.Grammar.{Declared, MayStand, declared, nothing_declared};
ghost use Rattle.tr_script.specs.declared.script.Line.{Line};
ghost use Rattle.tr_script.specs.declared.script.Line.TheVariants as line;
ghost use Rattle.tr_top.specs.Along as along;
ghost use Rattle.tr_top.specs.Along.{MayFollow, IsAtEnd};
ghost use Rattle.tr_top.specs.Run.{IsRun, last_words, pages_made};
ghost use Rattle.tr_top.specs.Running.{CanFollow, CanHappen, Goes, IsBefore, IsEnded, IsNextLine, IsOpened, IsTurning, NobodyCalls, Passes, TellsEntry, place_of};

use crate::stop::Stop;
use crate::teller::{Detail, Teller};
use kern_journal::new_image;
use pm_words::Image;
use std::alloc::{AllocError, Global};
use std::marker::Model;
use tr_core::{Core, FaultEvent};
use tr_outside::Sink;
use tr_script::{Line, Script};
use tr_types::{Command, Mark, Trace};

/// A run of a script.
#[derive(Drop)]
pub(crate) struct Runner<'a> {
    alloc: Global,
    script: &'a Script,
    core: Core,
    teller: Teller,
}

impl<'a> Model for Runner<'a> {
    ghost use Rattle.tr_top.specs.Running.{RunnerView, IsAlong};

    ghost Value = { RunnerView };

    ghost view = { λ r. record { lines = r.script.now; detail = r.teller.detail; core = r.core } };

    ghost invariant = { λ r. IsAlong r.script.now r.core };
}

impl<'a> Runner<'a> {
    /// Opens a core over a new image of the script's size.
    pub fn begin(
        alloc: Global,
        script: &'a Script,
        detail: Detail,
        pages: u32,
    ) -> Result<Runner<'a>, AllocError>
        requires pages { pages ≡ pages_made script.now }
        requires least { 64 ≤ pages }
        requires most { pages ≤ 16384 }
        ensures lines { IfOk result (λ r. r.lines ≡ script.now) }
        ensures detail { IfOk result (λ r. r.detail ≡ detail) }
        ensures fresh { IfOk result (λ r. r.core.trace ≡ []) }
        ensures works { IfOk result (λ r. r.core.failed ≡ false) }
    {
        let words = new_image(alloc, pages)?;
        let Ok(core) = Core::open(alloc, words) else {
            return Err(AllocError);
        };
        Ok(Runner {
            alloc,
            script,
            core,
            teller: Teller::new(alloc, detail),
        })
    }

    /// Runs all lines.
    pub fn run<O: Sink>(&mut self, out: &mut O) -> Result<(), Stop>
        requires fresh { self.old.core.trace ≡ [] }
        requires works { self.old.core.failed ≡ false }
        requires orderly { Each declared MayStand nothing_declared self.old.lines }
        ensures goes { Goes self.old self.new (O.written out.old) (O.written out.new) (O.faults out.old) (O.faults out.new) result }
        ensures ended { OnOk result (IsAtEnd (place_of self.new)) }
    {
        let script = self.script;
        for line in script.lines() {
            self.follow(out, line)?;
        }
        Ok(())
    }

    // Gives the entries of a line.
    fn follow<O: Sink>(&mut self, out: &mut O, line: &'a Line) -> Result<(), Stop>
        requires works { self.old.core.failed ≡ false }
        requires next { CanFollow self.old line.now }
        ensures goes { Goes self.old self.new (O.written out.old) (O.written out.new) (O.faults out.old) (O.faults out.new) result }
        ensures passed { (below : List Line) (d : Declared) → IsNextLine self.old line.now below d → OnOk result (Passes self.new line.now below d) }
    {
        match line {
            Line::Mkfs(pages) => self.happen(out, &FaultEvent::Mkfs(*pages)),
            Line::Process { process, cred } => {
                let (process, cred) = (*process, *cred.get());
                self.happen(out, &FaultEvent::Process { process, cred })
            }
            Line::Thread { thread, process } => {
                let (thread, process) = (*thread, *process);
                self.happen(out, &FaultEvent::Thread { thread, process })
            }
            Line::Call { thread, command } => self.give(out, *thread, command),
            Line::Do { thread, command } => {
                self.give(out, *thread, command)?;
                self.finish(out, *thread)
            }
            Line::Finish { thread } => self.finish(out, *thread),
            Line::Open { thread } => self.open(out, *thread),
            Line::Stray { thread, addr, word } => {
                let (thread, addr, word) = (*thread, *addr, *word);
                self.happen(out, &FaultEvent::Stray { thread, addr, word })
            }
        }
    }

    // Lets a line's event come about.
    fn happen<O: Sink>(&mut self, out: &mut O, event: &FaultEvent) -> Result<(), Stop>
        requires works { self.old.core.failed ≡ false }
        requires may { CanHappen self.old event.now }
        requires follows { (e : Entry) → IsOfEvent event.now e → MayFollow (place_of self.old) e }
        ensures goes { Goes self.old self.new (O.written out.old) (O.written out.new) (O.faults out.old) (O.faults out.new) result }
        ensures happened { OnOk result (IsHappened self.old.core self.new.core event.now) }
    {
        self.core.event(event, 0)?;
        tell_last(&self.core, &mut self.teller, out)
    }

    // Gives a call. No turn is made.
    fn give<O: Sink>(&mut self, out: &mut O, thread: u16, command: &Command) -> Result<(), Stop>
        requires works { self.old.core.failed ≡ false }
        requires command { IsCommand command.now }
        requires free { NobodyCalls self.old }
        requires follows { MayFollow (place_of self.old) (entry.Call thread command.now) }
        ensures goes { Goes self.old self.new (O.written out.old) (O.written out.new) (O.faults out.old) (O.faults out.new) result }
        ensures added { OnOk result (Adds self.old.core self.new.core (entry.Call thread command.now)) }
    {
        self.core.give(thread, command.copy(self.alloc)?)?;
        tell_last(&self.core, &mut self.teller, out)
    }

    // Makes turns of the thread's call, if it has one, until it has ended.
    fn finish<O: Sink>(&mut self, out: &mut O, thread: u16) -> Result<(), Stop>
        requires works { self.old.core.failed ≡ false }
        requires next { (below : List Line) × IsBefore self.old (line.Finish thread ∷ below) }
        ensures goes { Goes self.old self.new (O.written out.old) (O.written out.new) (O.faults out.old) (O.faults out.new) result }
        ensures ended { (below : List Line) → IsBefore self.old (line.Finish thread ∷ below) → OnOk result (IsEnded self.old self.new thread below) }
    {
        while self.core.due(thread).is_some() {
            self.turn(out, thread)?;
        }
        Ok(())
    }

    // Makes turns of the thread's call, if it has one, until it has opened a window or has ended.
    fn open<O: Sink>(&mut self, out: &mut O, thread: u16) -> Result<(), Stop>
        requires works { self.old.core.failed ≡ false }
        requires next { (below : List Line) × IsBefore self.old (line.Open thread ∷ below) }
        ensures goes { Goes self.old self.new (O.written out.old) (O.written out.new) (O.faults out.old) (O.faults out.new) result }
        ensures opened { (below : List Line) → IsBefore self.old (line.Open thread ∷ below) → OnOk result (IsOpened self.old self.new thread below) }
    {
        while let Some(mark) = self.core.due(thread) {
            self.turn(out, thread)?;
            if opens(mark) {
                return Ok(());
            }
        }
        Ok(())
    }

    // Makes one turn of the thread's call.
    fn turn<O: Sink>(&mut self, out: &mut O, thread: u16) -> Result<(), Stop>
        requires works { self.old.core.failed ≡ false }
        requires turning { IsTurning thread (place_of self.old).turns }
        ensures goes { Goes self.old self.new (O.written out.old) (O.written out.new) (O.faults out.old) (O.faults out.new) result }
        ensures turned { OnOk result ((turned : Turned) × IsTurned self.old.core self.new.core thread 0 turned) }
    {
        self.core.turn(thread, 0)?;
        tell_last(&self.core, &mut self.teller, out)
    }

    /// The image as it is now, and the trace of the run.
    pub fn into_end(self) -> (Image, Trace)
        requires { self.core.failed ≡ false }
        ensures image { result.0 ≡ last_words self.entry.lines self.entry.core.trace }
        ensures trace { result.1 ≡ self.entry.core.trace }
        ensures run { IsRun self.entry.lines self.entry.core.trace }
    {
        let Runner { core, .. } = self;
        core.into_end()
    }

    /// The trace of the run.
    pub fn into_trace(self) -> Trace
        ensures trace { result ≡ self.entry.core.trace }
        ensures run { IsRun self.entry.lines self.entry.core.trace }
    {
        let Runner { core, .. } = self;
        core.into_trace()
    }
}

// Whether an action with this mark opens a window.
fn opens(mark: Mark) -> bool
    ensures { result ≡ along.opens mark }
{
    matches!(mark, Mark::Open)
}

// Tells the last entry of the trace.
fn tell_last<O: Sink>(core: &Core, teller: &mut Teller, out: &mut O) -> Result<(), Stop>
    ensures told { (before : List Entry) (e : Entry) → core.now.trace ≡ before ++ e ∷ [] →
        TellsEntry teller.old.detail result e (O.written out.old) (O.written out.new) (O.faults out.old) (O.faults out.new) }
    ensures later { O.faults out.old ≤ O.faults out.new }
    ensures detail { teller.new.detail ≡ teller.old.detail }
{
    match core.trace().entries().last() {
        Some(entry) => teller.tell(out, entry),
        None => Ok(()),
    }
}
