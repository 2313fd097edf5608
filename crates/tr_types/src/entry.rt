// The trace of a run: its entries in order.
ghost use Rattle.std.specs.Prelude.{◌≡◌, [], ◌∷◌, ◌++◌, length, OnOk, OnErr};

use crate::{Action, Answer, Command, Cred, Kcall, Path, Perm, Reply};
use sqlite_items::{Boxed, Items};
use std::alloc::{AllocError, Global};
use std::marker::Model;

/// What an action of a call is for.
#[derive(Clone, Copy, Debug, PartialEq, Eq)]
pub enum Mark {
    Plain,
    /// Opens a window: enables a key other than 0.
    Open,
    /// Closes it.
    Close,
    /// Would put the call's own word into a lease.
    Take,
    /// Notes the address of the commit word.
    Note,
    /// Looks at a lease that the call holds, or once more at a counter or lease.
    Check,
    /// The check at which the reply is decided.
    Point,
    /// The store or kernel call by which a change comes about.
    Commit,
}

/// Which values a crash leaves of those that it may leave.
#[derive(Clone, Copy, Debug, PartialEq, Eq)]
pub enum Pick {
    All,
    None,
    Seed(u64),
}

/// Why a line of a script was passed over.
#[derive(Clone, Copy, Debug, PartialEq, Eq)]
pub enum Why {
    Dead,
    Running,
    Sound,
    Down,
    Up,
    NotKernel,
    NoThread,
}

/// How a coffer stands.
#[derive(Clone, Copy, Debug, PartialEq, Eq)]
pub enum CofferState {
    Ready,
    Lost,
    Quarantined,
}

/// A coffer in a list of coffers.
#[derive(Debug, Drop)]
pub struct CofferRow {
    pub path: Path,
    pub perm: Perm,
    pub state: CofferState,
}

/// The coffers, in byte order of path.
pub type CofferList = Items<CofferRow>;

/// One entry of a trace: an atomic step, a stated event, or a note (`Lost`, `Skip`, `Quarantine`,
/// `Coffers`), which is no step of the machine. `now` is in ticks.
#[derive(Debug, Drop)]
pub enum Entry {
    /// A new image of so many pages.
    Mkfs(u32),
    Process {
        process: u8,
        cred: Boxed<Cred>,
    },
    Thread {
        thread: u16,
        process: u8,
    },
    Tick(u32),
    Call {
        thread: u16,
        command: Command,
    },
    Act {
        thread: u16,
        now: u32,
        mark: Mark,
        action: Action,
        answer: Answer,
    },
    Reply {
        thread: u16,
        reply: Reply,
    },
    Stray {
        thread: u16,
        addr: u64,
        word: u64,
        answer: Answer,
    },
    Wild {
        thread: u16,
        now: u32,
        action: Action,
        answer: Answer,
    },
    Corrupt(u8),
    Kill(u8),
    Crash {
        pick: Pick,
    },
    CrashIn {
        thread: u16,
        now: u32,
        call: Boxed<Kcall>,
        k: u32,
        pick: Pick,
    },
    Recovery {
        action: Action,
    },
    Recovered {
        ready: u32,
        quarantined: u32,
    },
    Lost {
        path: Path,
    },
    /// The line's number, counted from 1 over the lines that the script keeps.
    Skip {
        line: u32,
        why: Why,
    },
    Quarantine {
        path: Path,
    },
    Coffers(CofferList),
}

/// The entries of a run, in order.
#[derive(Debug, Drop)]
pub struct Trace {
    entries: Vec<Entry>,
}

impl Model for Trace {
    ghost use Rattle.std.specs.Prelude.{List};
    ghost use Rattle.tr_types.specs.declared.entry.Entry.{Entry};

    ghost Value = { List Entry };

    ghost view = { λ t. t.entries.items };
}

impl Trace {
    ghost use Rattle.std.specs.Option.{option_copied};
    ghost use Rattle.tr_types.specs.Traces.{answer_at};

    pub fn new(alloc: Global) -> Trace
        ensures { result ≡ [] }
    {
        Trace {
            entries: Vec::new(alloc),
        }
    }

    pub fn len(&self) -> usize
        ensures { result ≡ length self.now }
    {
        self.entries.len()
    }

    pub fn entries(&self) -> &[Entry]
        ensures { result.now ≡ self.now }
    {
        &self.entries
    }

    /// What the action was answered that stands at this position, counted from 0, where it is an action of a call.
    pub fn answer_at(&self, position: usize) -> Option<&Answer>
        ensures { option_copied result ≡ answer_at self.now position }
    {
        match self.entries.get(position) {
            Some(Entry::Act { answer, .. }) => Some(answer),
            _ => None,
        }
    }

    /// Puts an entry at the end.
    pub fn push(&mut self, entry: Entry) -> Result<(), AllocError>
        ensures ok { OnOk result (self.new ≡ self.old ++ entry ∷ []) }
        ensures err { OnErr result (self.new ≡ self.old) }
    {
        self.entries.push(entry)?;
        Ok(())
    }
}

#[cfg(test)]
mod tests {
    use super::*;

    #[test]
    fn a_trace_keeps_its_entries_in_order(rt: HostRuntime) -> Result<(), AllocError> {
        let mut trace = Trace::new(rt.alloc());
        assert!(rt; trace.answer_at(0).is_none());
        trace.push(Entry::Act {
            thread: 0,
            now: 0,
            mark: Mark::Plain,
            action: Action::Load(8),
            answer: Answer::Word(1),
        })?;
        trace.push(Entry::Mkfs(64))?;
        assert!(rt; matches!(trace.answer_at(0), Some(Answer::Word(1))));
        assert!(rt; trace.answer_at(1).is_none());
        assert_eq!(rt; trace.len(), 2);
        assert!(rt; matches!(trace.entries(), [Entry::Act { .. }, Entry::Mkfs(64)]));
        Ok(())
    }
}
