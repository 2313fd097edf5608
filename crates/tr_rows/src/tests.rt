// Whole runs, over sources and sinks in memory.
use pm_words::NoMemory;
use std::alloc::Global;
use tr_outside::{MemSink, MemSource};
use tr_top::{Outcome, Status, zofs_run};

mod changed;
mod entries;
mod full;
mod limit;
mod oracle;
mod places;
mod saved;
mod slow;
mod space;
mod turns;
mod windows;

/// Room for an image of 1,024 pages, in bytes.
const SAVED_ROOM: usize = 4_194_304;

/// What a run did.
#[derive(Drop)]
struct Ran {
    outcome: Outcome,
    out: MemSink,
    saved: MemSink,
}

/// Runs a script, with room for so many bytes of replies and for an image of at most 1,024 pages.
fn run_text(alloc: Global, text: &[u8], room: usize) -> Result<Ran, NoMemory> {
    run_word(alloc, "run", text, room)
}

/// Does the same by a word of the command line.
fn run_word(alloc: Global, word: &str, text: &[u8], room: usize) -> Result<Ran, NoMemory> {
    let mut words = Vec::new(alloc);
    words.push(String::from_str(alloc, word)?)?;
    let mut image = MemSource::new(Vec::new(alloc), Vec::new(alloc));
    let mut script = MemSource::new(Vec::from_slice(alloc, text)?, Vec::new(alloc));
    let mut out = MemSink::new(alloc, room, Vec::new(alloc))?;
    let mut saved = MemSink::new(alloc, SAVED_ROOM, Vec::new(alloc))?;
    let outcome = zofs_run(alloc, &words, &mut image, &mut script, &mut out, &mut saved);
    Ok(Ran {
        outcome,
        out,
        saved,
    })
}

/// Whether the run is done and has printed this.
fn is_done(ran: &Ran, out: &str) -> bool {
    ran.outcome.status == Status::Done && ran.out.bytes() == out.as_bytes()
}
