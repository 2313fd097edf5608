// A kernel over an image, asked line by line.
ghost use Rattle.std.specs.Prelude.{◌≡◌, ◌<◌, IfOk, OnOk, IsTrue, Contains, map};
ghost use Rattle.kern_model.specs.KernelCalls.{IsCall};
ghost use Rattle.kern_calls.specs.Calls.{IsMounted, MayCall};

use crate::RowFault;
use crate::image::at_rest;
use kern_calls::Kernel;
use kern_lines::{call_of, number};
use page_rights::Pkru;
use pm_words::{NoMemory, Words};
use std::alloc::Global;
use std::fmt::Write;
use std::ops::Range;
use tr_types::{Cred, Kcall, KernAnswer};
use zo_layout::{committed_word, owner_table, page_at};

/// The number under which the recovery calls.
const RECOVERY: u16 = 256;

/// A register in which every key is open.
const ALL_OPEN: Pkru = Pkru(0);

const WORD_BYTES: usize = 8;

/// A kernel over the words of an image, asked at one tick. Each process has two threads: `n` and `n + 4`
/// are in process `n`.
#[derive(Drop)]
pub struct Stand {
    alloc: Global,
    words: Words,
    kernel: Kernel,
    tick: u32,
}

impl Stand {
    /// Over these words, with processes of the users 0, 5, 7 and 0, who have groups of the same numbers.
    pub fn over(alloc: Global, words: &Words, tick: u32) -> Result<Stand, RowFault>
        ensures { IfOk result (λ stand. IsMounted stand.kernel stand.words) }
    {
        let mut words = at_rest(alloc, words.image()?)?;
        let kernel = Kernel::mount(alloc, &mut words)?;
        let mut stand = Stand {
            alloc,
            words,
            kernel,
            tick,
        };
        stand.start_all()?;
        Ok(stand)
    }

    fn start_all(&mut self) -> Result<(), RowFault>
        requires { IsMounted self.old.kernel self.old.words }
        ensures { OnOk result (IsMounted self.new.kernel self.new.words) }
    {
        self.start(0, 0)?;
        self.start(1, 5)?;
        self.start(2, 7)?;
        self.start(3, 0)
    }

    // Starts a process of a user, with its two threads.
    fn start(&mut self, process: u8, user: u32) -> Result<(), RowFault>
        requires mounted { IsMounted self.old.kernel self.old.words }
        requires small { process < 64 }
        ensures { OnOk result (IsMounted self.new.kernel self.new.words) }
    {
        self.kernel.start_process(process, Cred::new(user, user))?;
        self.start_thread(u16::from(process), process)?;
        self.start_thread(u16::from(process) + 4, process)
    }

    // Starts a thread, where it wasn't.
    fn start_thread(&mut self, thread: u16, process: u8) -> Result<(), RowFault>
        requires mounted { IsMounted self.old.kernel self.old.words }
        requires thread { thread < 256 }
        requires small { process < 64 }
        requires process { Contains (map (λ p. p.0) self.old.kernel.callers.processes) process }
        ensures mounted { OnOk result (IsMounted self.new.kernel self.new.words) }
        ensures processes { self.new.kernel.callers.processes ≡ self.old.kernel.callers.processes }
    {
        if self.kernel.process_of(thread).is_some() {
            return Err(RowFault::NoThread);
        }
        self.kernel.start_thread(thread, process)?;
        Ok(())
    }

    /// The lines of a table, each ASKED -> OUTCOME, that have another outcome, with that one. A line without
    /// an outcome is a call that prepares the next lines.
    pub fn wrong_lines(&mut self, table: &str) -> Result<String, RowFault>
        requires { IsMounted self.old.kernel self.old.words }
        ensures { OnOk result (IsMounted self.new.kernel self.new.words) }
    {
        let mut wrong = String::new(self.alloc);
        for line in table.lines() {
            self.check_line(line, &mut wrong)?;
        }
        Ok(wrong)
    }

    fn check_line(&mut self, line: &str, wrong: &mut String) -> Result<(), RowFault>
        requires { IsMounted self.old.kernel self.old.words }
        ensures { OnOk result (IsMounted self.new.kernel self.new.words) }
    {
        let Some((asked, want)) = line.split_once(" -> ") else {
            return self.prepare(line);
        };
        let outcome = self.outcome(asked)?;
        if outcome.as_str() != want {
            writeln!(wrong, "{asked} -> {outcome}")?;
        }
        Ok(())
    }

    /// Makes the call of a line: THREAD and a call.
    pub fn prepare(&mut self, line: &str) -> Result<(), RowFault>
        requires { IsMounted self.old.kernel self.old.words }
        ensures { OnOk result (IsMounted self.new.kernel self.new.words) }
    {
        let (thread, call) = asked_of(self.alloc, line)?;
        self.call(thread, &call)?;
        Ok(())
    }

    // What comes of a line: THREAD `load` PAGE, or THREAD and a call.
    fn outcome(&mut self, line: &str) -> Result<String, RowFault>
        requires { IsMounted self.old.kernel self.old.words }
        ensures { OnOk result (IsMounted self.new.kernel self.new.words) }
    {
        if let Some((thread, page)) = line.split_once(" load ") {
            return self.load(number(thread)?, number(page)?);
        }
        let (thread, call) = asked_of(self.alloc, line)?;
        self.outcome_of(thread, &call)
    }

    // Whether a thread may load from a page, with all keys open.
    fn load(&self, thread: u16, page: u32) -> Result<String, RowFault> {
        if self.kernel.process_of(thread).is_none() {
            return Err(RowFault::NoThread);
        }
        match self.kernel.may_load(thread, ALL_OPEN, page) {
            Some(fault) => Ok(format!(in self.alloc; "{fault:?}")?),
            None => Ok(String::from_str(self.alloc, "Loaded")?),
        }
    }

    // What a call answers, how many inner steps it makes, and each word that it changes. Of a call that makes
    // steps those in the journal aren't told.
    fn outcome_of(&mut self, thread: u16, call: &Kcall) -> Result<String, RowFault>
        requires mounted { IsMounted self.old.kernel self.old.words }
        requires call { IsCall call.now }
        ensures { OnOk result (IsMounted self.new.kernel self.new.words) }
    {
        let steps = self.steps(thread, call)?;
        let spared = if steps == 0 { 0..0 } else { self.journal() };
        let before = self.words.image()?;
        let mut text = self.answer_of(thread, call, steps)?;
        self.write_changes(&mut text, before.words(), &spared)?;
        Ok(text)
    }

    // What a call answers that makes so many inner steps, and their number where it makes any.
    fn answer_of(&mut self, thread: u16, call: &Kcall, steps: u32) -> Result<String, RowFault>
        requires mounted { IsMounted self.old.kernel self.old.words }
        requires call { IsCall call.now }
        ensures { OnOk result (IsMounted self.new.kernel self.new.words) }
    {
        let answer = self.call(thread, call)?;
        let mut text = text_of(self.alloc, &answer)?;
        if steps != 0 {
            write!(text, ", {steps} steps")?;
        }
        Ok(text)
    }

    // Each word outside the spared bytes that isn't as it was before.
    fn write_changes(
        &self,
        text: &mut String,
        before: &[u64],
        spared: &Range<u64>,
    ) -> Result<(), RowFault> {
        let after = self.words.image()?;
        write_changes(text, before, after.words(), spared)?;
        Ok(())
    }

    // The bytes in which the journal lies.
    fn journal(&self) -> Range<u64> {
        committed_word()..page_at(owner_table(self.words.pages()))
    }

    fn steps(&self, thread: u16, call: &Kcall) -> Result<u32, RowFault>
        requires mounted { IsMounted self.now.kernel self.now.words }
        requires call { IsCall call.now }
    {
        if !self.may_call(thread, call) {
            return Err(RowFault::NoThread);
        }
        Ok(self.kernel.inner(&self.words, thread, self.tick, call)?)
    }

    fn call(&mut self, thread: u16, call: &Kcall) -> Result<KernAnswer, RowFault>
        requires mounted { IsMounted self.old.kernel self.old.words }
        requires call { IsCall call.now }
        ensures { OnOk result (IsMounted self.new.kernel self.new.words) }
    {
        if !self.may_call(thread, call) {
            return Err(RowFault::NoThread);
        }
        match self.kernel.call(&mut self.words, thread, self.tick, call) {
            KernAnswer::NoMemory => Err(RowFault::NoMemory),
            answer => Ok(answer),
        }
    }

    // The thread was started, or the call is the recovery's.
    fn may_call(&self, thread: u16, call: &Kcall) -> bool
        ensures { IsTrue result → MayCall self.now.kernel.callers thread call.now }
    {
        match call {
            Kcall::Recover { .. } if thread == RECOVERY => true,
            _ => self.kernel.process_of(thread).is_some(),
        }
    }
}

// The thread and the call of a line.
fn asked_of(alloc: Global, line: &str) -> Result<(u16, Kcall), RowFault>
    ensures { IfOk result (λ asked. IsCall asked.1) }
{
    let (thread, call) = line.split_once(' ').ok_or(RowFault::NoLine)?;
    let thread = number(thread)?;
    Ok((thread, call_of(alloc, call)?))
}

fn text_of(alloc: Global, answer: &KernAnswer) -> Result<String, NoMemory> {
    match answer {
        KernAnswer::Pages(pages) => format!(in alloc; "Pages({:?})", pages.as_slice()),
        _ => format!(in alloc; "{answer:?}"),
    }
}

// Each word that has changed outside the spared bytes, as ADDRESS=WORD.
fn write_changes(
    text: &mut String,
    before: &[u64],
    after: &[u64],
    spared: &Range<u64>,
) -> Result<(), NoMemory> {
    for ((addr, old), new) in (0..).step_by(WORD_BYTES).zip(before).zip(after) {
        if old != new && !spared.contains(&addr) {
            write!(text, " {addr}={new}")?;
        }
    }
    Ok(())
}
