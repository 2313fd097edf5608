// What the lines of a script so far have declared.
ghost use Rattle.std.specs.Prelude.{◌≡◌, ◌==◌};
ghost use Rattle.std.specs.List.{list_any};
ghost use Rattle.tr_script.specs.Grammar.{calling_behind};

use super::spelling::{process_word, thread_word};
use crate::Line;
use std::alloc::{AllocError, Global};
use std::marker::Model;

/// What the lines so far have declared. There are at most 64 processes and 256 threads, so that a look through all of
/// them is short.
#[derive(Drop)]
pub struct Seen {
    /// Whether there are lines.
    begun: bool,
    processes: Vec<u8>,
    /// Each thread with its process.
    threads: Vec<(u16, u8)>,
    /// The thread whose call is open: given by a `call` line, and by no `finish` line brought to its end.
    calling: Option<u16>,
}

impl Model for Seen {
    ghost use Rattle.tr_script.specs.Grammar.{Declared};

    ghost Value = { Declared };

    ghost view = { λ s. record { begun = s.begun; processes = s.processes.items; threads = s.threads.items; calling = s.calling } };
}

impl Seen {
    ghost use Rattle.std.specs.Prelude.{◌≡◌, ◌≢◌, ◌↔◌, ◌<◌, ℕ, IfSome, IfNone, IsTrue, OnOk, Contains, Some};
    ghost use Rattle.tr_script.specs.Grammar.{nothing_declared, declared, IsThreadOf};
    ghost use Rattle.tr_text.specs.Spelling.{process_name, thread_name};
    ghost use Rattle.tr_script.specs.Places.{MayBe, NewProcess, NewThread, KnownProcess, KnownThread, StrayThread};

    pub fn nothing(alloc: Global) -> Seen
        ensures { result ≡ nothing_declared }
    {
        Seen {
            begun: false,
            processes: Vec::new(alloc),
            threads: Vec::new(alloc),
            calling: None,
        }
    }

    /// Whether there are lines.
    pub fn begun(&self) -> bool
        ensures { result ≡ self.now.begun }
    {
        self.begun
    }

    /// The thread whose call is open.
    pub fn calling(&self) -> Option<u16>
        ensures { result ≡ self.now.calling }
    {
        self.calling
    }

    fn has_process(&self, process: u8) -> bool
        ensures { IsTrue result ↔ Contains self.now.processes process }
    {
        self.processes.contains(&process)
    }

    fn has_thread(&self, thread: u16) -> bool
        ensures { IsTrue result ↔ IsThreadOf self.now thread }
    {
        is_among(&self.threads, thread)
    }

    /// The process that the word names, where it can still be declared.
    pub fn new_process(&self, word: &[u8]) -> Option<u8>
        ensures some { IfSome result (λ process. (word.now ≡ process_name process) × (process < 64) × (Contains self.now.processes process → ⊥)) }
        ensures none { IfNone result (MayBe self.now NewProcess word.now → ⊥) }
    {
        match process_word(word)? {
            process if !self.has_process(process) => Some(process),
            _ => None,
        }
    }

    /// The thread that the word names, where it can still be declared.
    pub fn new_thread(&self, word: &[u8]) -> Option<u16>
        ensures some { IfSome result (λ thread. (word.now ≡ thread_name thread) × (thread < 256) × (IsThreadOf self.now thread → ⊥)) }
        ensures none { IfNone result (MayBe self.now NewThread word.now → ⊥) }
    {
        match thread_word(word)? {
            thread if !self.has_thread(thread) => Some(thread),
            _ => None,
        }
    }

    /// The process that the word names, where it is declared.
    pub fn known_process(&self, word: &[u8]) -> Option<u8>
        ensures some { IfSome result (λ process. (word.now ≡ process_name process) × (process < 64) × Contains self.now.processes process) }
        ensures none { IfNone result (MayBe self.now KnownProcess word.now → ⊥) }
    {
        match process_word(word)? {
            process if self.has_process(process) => Some(process),
            _ => None,
        }
    }

    /// The thread that the word names, where it is declared.
    pub fn known_thread(&self, word: &[u8]) -> Option<u16>
        ensures some { IfSome result (λ thread. (word.now ≡ thread_name thread) × (thread < 256) × IsThreadOf self.now thread) }
        ensures none { IfNone result (MayBe self.now KnownThread word.now → ⊥) }
    {
        match thread_word(word)? {
            thread if self.has_thread(thread) => Some(thread),
            _ => None,
        }
    }

    /// The thread that the word names, where it is declared and has no call open.
    pub fn stray_thread(&self, word: &[u8]) -> Option<u16>
        ensures some { IfSome result (λ thread. (word.now ≡ thread_name thread) × (thread < 256) × IsThreadOf self.now thread × (self.now.calling ≢ Some thread)) }
        ensures none { IfNone result (MayBe self.now StrayThread word.now → ⊥) }
    {
        match self.known_thread(word)? {
            thread if self.calling != Some(thread) => Some(thread),
            _ => None,
        }
    }

    /// Adds what the line declares.
    pub fn add(&mut self, line: &Line) -> Result<(), AllocError>
        ensures { OnOk result (self.new ≡ declared self.old line.now) }
    {
        self.begun = true;
        match line {
            Line::Process { process, .. } => self.processes.push(*process)?,
            Line::Thread { thread, process } => self.threads.push((*thread, *process))?,
            Line::Call { thread, .. } => self.calling = Some(*thread),
            Line::Finish { thread } => self.calling = calling_behind(*thread, self.calling),
            Line::Mkfs(_) | Line::Do { .. } | Line::Open { .. } | Line::Stray { .. } => {}
        }
        Ok(())
    }
}

/// The call that is open behind the thread's `finish` line.
fn calling_behind(thread: u16, calling: Option<u16>) -> Option<u16>
    ensures { result ≡ calling_behind thread calling }
{
    match calling {
        Some(caller) if caller != thread => Some(caller),
        _ => None,
    }
}

/// Whether the thread is one of these, each of which stands with its process.
fn is_among(threads: &[(u16, u8)], thread: u16) -> bool
    ensures { result ≡ list_any (λ t. t.0 == thread) threads.now }
{
    threads.iter().any(|(other, _)| *other == thread)
}
