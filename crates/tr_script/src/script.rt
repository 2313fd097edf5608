// A script as data.
ghost use Rattle.std.specs.Prelude.{◌≡◌};

use sqlite_items::Boxed;
use std::marker::Model;
use tr_types::{Command, Cred};

/// A line of a script. Processes and threads are numbered from 0: `p1` is process 0.
#[derive(Debug, Drop)]
pub enum Line {
    /// A new image of so many pages.
    Mkfs(u32),
    Process { process: u8, cred: Boxed<Cred> },
    Thread { thread: u16, process: u8 },
    /// Gives the command. No turn is made.
    Call { thread: u16, command: Command },
    /// Gives the command and makes turns until the call has ended.
    Do { thread: u16, command: Command },
    /// Makes turns until the thread's call has ended.
    Finish { thread: u16 },
    /// Makes turns until the thread's call has opened a window or has ended.
    Open { thread: u16 },
    /// Stores a word at an address in bytes, outside every call.
    Stray { thread: u16, addr: u64, word: u64 },
}

/// The lines of a script that are kept, in order.
#[derive(Debug, Drop)]
pub struct Script {
    lines: Vec<Line>,
}

impl Model for Script {
    ghost use Rattle.std.specs.Prelude.{List};
    ghost use Rattle.tr_script.specs.declared.script.Line.{Line};

    ghost Value = { List Line };

    ghost view = { λ s. s.lines.items };
}

impl Script {
    pub fn new(lines: Vec<Line>) -> Script
        ensures { result ≡ lines.items }
    {
        Script { lines }
    }

    pub fn lines(&self) -> &[Line]
        ensures { result.now ≡ self.now }
    {
        &self.lines
    }
}
