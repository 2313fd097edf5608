//! The lines that each thread has marked since its last fence.

ghost use Rattle.std.specs.Prelude.{◌≡◌, ◌≢◌, ℕ, ◌<◌, [], length, Contains, IfOk, OnOk, OnErr, slice_index_or};
ghost use Rattle.pm_words.specs.View.{lines_at};

use indexmap::IndexMap;
use std::alloc::{AllocError, Global};
use std::marker::Model;

/// The lines that one thread has marked. A line is named by its place among all lines. It is there twice
/// only where another thread's fence has taken the first mark away.
#[derive(Drop)]
pub struct Lines {
    lines: Vec<usize>,
}

impl Model for Lines {
    ghost use Rattle.std.specs.Prelude.{ℕ, List};

    ghost Value = { List ℕ };

    ghost view = { λ m. m.lines.items };
}

impl Lines {
    /// No lines, which takes no memory.
    pub fn new(alloc: Global) -> Lines
        ensures none { result ≡ [] }
    {
        Lines {
            lines: Vec::new(alloc),
        }
    }

    /// Adds a line. An error leaves the lines as they were.
    pub fn add(&mut self, line: usize) -> Result<(), AllocError>
        ensures ok { OnOk result (Contains self.new line) }
        ensures err { OnErr result (self.new ≡ self.old) }
        ensures others { (l : ℕ) → Contains self.old l → Contains self.new l }
    {
        self.lines.push(line)?;
        Ok(())
    }

    /// How many lines there are.
    pub fn len(&self) -> usize
        ensures len { result ≡ length self.now }
    {
        self.lines.len()
    }

    /// The line at an index.
    pub fn line(&self, index: usize) -> usize
        requires { index < length self.now }
        ensures line { result ≡ slice_index_or self.now index 0 }
    {
        self.lines[index]
    }
}

/// Keeps a line for a thread's next fence. An error may leave an empty list for the thread, and
/// changes no line.
pub fn note(
    marked: &mut IndexMap<u16, Lines>,
    alloc: Global,
    thread: u16,
    line: usize,
) -> Result<(), AllocError>
    ensures ok { OnOk result (Contains (lines_at marked.new.entries thread) line) }
    ensures kept { (l : ℕ) → Contains (lines_at marked.old.entries thread) l → Contains (lines_at marked.new.entries thread) l }
    ensures others { (t : ℕ) → t ≢ thread → lines_at marked.new.entries t ≡ lines_at marked.old.entries t }
{
    match marked.get_mut(&thread) {
        Some(lines) => lines.add(line),
        None => {
            let mut lines = Lines::new(alloc);
            lines.add(line)?;
            marked.insert(thread, lines)?;
            Ok(())
        }
    }
}
