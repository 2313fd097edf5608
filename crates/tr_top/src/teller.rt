// What a run prints.
ghost use Rattle.std.specs.Prelude.{◌≡◌, ◌≤◌};
ghost use Rattle.tr_top.specs.Running.{TellsEntry};

use crate::stop::Stop;
use std::alloc::Global;
use tr_outside::{Sink, write_all};
use tr_text::{append_brief_text, append_full_text};
use tr_types::Entry;

/// How much of a run is told.
#[derive(Clone, Copy, Debug, PartialEq, Eq)]
pub(crate) enum Detail {
    /// Replies, stray stores and what ends a process or a recovery.
    Brief,
    /// Each entry.
    Full,
}

/// Tells a sink the entries of a run, with room for the text of one.
#[derive(Debug, Drop)]
pub(crate) struct Teller {
    pub detail: Detail,
    text: Vec<u8>,
}

impl Teller {
    pub fn new(alloc: Global, detail: Detail) -> Teller
        ensures { result.detail ≡ detail }
    {
        Teller {
            detail,
            text: Vec::new(alloc),
        }
    }

    /// Hands the entry's text to `out`, in one piece.
    pub fn tell<O: Sink>(&mut self, out: &mut O, entry: &Entry) -> Result<(), Stop>
        ensures detail { self.new.detail ≡ self.old.detail }
        ensures told { TellsEntry self.old.detail result entry.now (O.written out.old) (O.written out.new) (O.faults out.old) (O.faults out.new) }
        ensures later { O.faults out.old ≤ O.faults out.new }
    {
        self.text.clear();
        match self.detail {
            Detail::Brief => append_brief_text(&mut self.text, entry)?,
            Detail::Full => append_full_text(&mut self.text, entry)?,
        }
        write_all(out, &self.text)?;
        Ok(())
    }
}
