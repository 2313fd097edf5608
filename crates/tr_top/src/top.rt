// The top call.
ghost use Rattle.std.specs.Prelude.{◌≡◌, ◌≤◌, ◌<◌, [], map, length, IfOk, IfErr, MatchOption, false};
ghost use Rattle.std.specs.String.{string_bytes};
ghost use Rattle.tr_types.specs.Fold.{Each};
ghost use Rattle.tr_outside.specs.ImageBytes.{image_bytes};
ghost use Rattle.tr_script.specs.Grammar.{MayStand, declared, nothing_declared};
ghost use Rattle.tr_top.specs.Run.{pages_made};
ghost use Rattle.tr_top.specs.declared.teller.Detail.{Detail};
ghost use Rattle.tr_top.specs.Top.{IsAnswered, IsForm, ReadsScript, RunEnds, outside_of, sinks_of};
ghost use Rattle.tr_top.specs.Completes.{Completes};
ghost use Rattle.tr_top.specs.Ending.{IsRefusal, IsSaved, stop_status};

use crate::runner::Runner;
use crate::stop::Stop;
use crate::teller::Detail;
use pm_words::Image;
use std::alloc::Global;
use tr_outside::{ReadError, Sink, Source, read_up_to, write_image};
use tr_script::{Line, Script, ScriptFault, Status, read_script};
use tr_types::Trace;

/// The greatest length of a script in bytes.
const TEXT_LIMIT: usize = 4_194_304;

/// How a run ended, and its trace.
#[derive(Debug, Drop)]
pub struct Outcome {
    pub status: Status,
    pub trace: Trace,
}

/// Does what the command line's words say, which are `run` or `trace`: it reads a script, runs it, writes to `out` the
/// replies as they come, or each entry in full, and at the end the image to `saved`. A script begins with a new image, so
/// `image` isn't read.
pub fn zofs_run<I: Source, S: Source, O: Sink, D: Sink>(
    alloc: Global,
    words: &[String],
    image: &mut I,
    script: &mut S,
    out: &mut O,
    saved: &mut D,
) -> Outcome
    ensures unread { image.new ≡ image.old }
    ensures answered { IsAnswered (map string_bytes words.now)
        (outside_of (I.left image.old) (I.faults image.old) (S.left script.old) (S.faults script.old)
        (sinks_of (O.written out.old) (O.faults out.old) (D.written saved.old) (D.faults saved.old)))
        (outside_of (I.left image.new) (I.faults image.new) (S.left script.new) (S.faults script.new)
        (sinks_of (O.written out.new) (O.faults out.new) (D.written saved.new) (D.faults saved.new)))
        result.status result.trace }
{
    let _ = image;
    let Some(detail) = form_of(words) else {
        return nothing_begun(alloc, Status::Usage);
    };
    match read(alloc, script) {
        Ok(script) => run(alloc, detail, &script, out, saved),
        Err(status) => nothing_begun(alloc, status),
    }
}

/// A law of what [`zofs_run`] ensures: accepted words and a script, with no fault counted, lead to the script's end, to
/// want of memory, or to a full trace with a further entry due.
pub fn completes_law()
    ensures { Completes }
{}

// The detail that the words ask for, which are `run` or `trace` alone.
fn form_of(words: &[String]) -> Option<Detail>
    ensures { MatchOption result ((detail : Detail) → IsForm (map string_bytes words.now) detail → ⊥) (IsForm (map string_bytes words.now)) }
{
    let [word] = words else {
        return None;
    };
    if word.as_str() == "run" {
        Some(Detail::Brief)
    } else if word.as_str() == "trace" {
        Some(Detail::Full)
    } else {
        None
    }
}

fn nothing_begun(alloc: Global, status: Status) -> Outcome
    ensures status { result.status ≡ status }
    ensures trace { result.trace ≡ [] }
{
    Outcome {
        status,
        trace: Trace::new(alloc),
    }
}

// Reads all that the source has left, and the script that it says.
fn read<S: Source>(alloc: Global, source: &mut S) -> Result<Script, Status>
    ensures script { IfOk result (ReadsScript (S.left source.old) (S.left source.new)) }
    ensures refused { IfErr result (IsRefusal (S.left source.old) (S.left source.new) (S.faults source.old) (S.faults source.new)) }
    ensures later { S.faults source.old ≤ S.faults source.new }
{
    let text = match read_up_to(alloc, source, TEXT_LIMIT + 1) {
        Ok(text) => text,
        Err(ReadError::Fault) => return Err(Status::ReadFault),
        Err(ReadError::NoMemory) => return Err(Status::NoMemory),
    };
    match read_script(alloc, &text) {
        Ok(script) => Ok(script),
        Err(ScriptFault::BadLine { line, column }) => Err(Status::BadScript { line, column }),
        Err(ScriptFault::NoMemory) => Err(Status::NoMemory),
    }
}

// How many pages the image has that the script makes.
fn pages_made(script: &Script) -> u32
    ensures { result ≡ pages_made script.now }
{
    match script.lines() {
        [Line::Mkfs(pages), ..] => *pages,
        _ => 0,
    }
}

// Runs a script to its end, and saves the image.
fn run<O: Sink, D: Sink>(
    alloc: Global,
    detail: Detail,
    script: &Script,
    out: &mut O,
    saved: &mut D,
) -> Outcome
    requires orderly { Each declared MayStand nothing_declared script.now }
    requires some { 0 < length script.now }
    ensures ends { RunEnds detail
        (sinks_of (O.written out.old) (O.faults out.old) (D.written saved.old) (D.faults saved.old))
        (sinks_of (O.written out.new) (O.faults out.new) (D.written saved.new) (D.faults saved.new))
        script.now result.status result.trace }
    ensures out_later { O.faults out.old ≤ O.faults out.new }
    ensures saved_later { D.faults saved.old ≤ D.faults saved.new }
{
    let Ok(mut runner) = Runner::begin(alloc, script, detail, pages_made(script)) else {
        return nothing_begun(alloc, Status::NoMemory);
    };
    match runner.run(out) {
        Ok(()) => {
            let (image, trace) = runner.into_end();
            Outcome {
                status: save(&image, saved),
                trace,
            }
        }
        Err(stop) => Outcome {
            status: status_of(stop),
            trace: runner.into_trace(),
        },
    }
}

fn status_of(stop: Stop) -> Status
    ensures { result ≡ stop_status stop }
{
    match stop {
        Stop::Full => Status::Full,
        Stop::NoMemory => Status::NoMemory,
        Stop::OutFailed => Status::WriteFault,
    }
}

// Saves the image at the end of a run.
fn save<D: Sink>(image: &Image, saved: &mut D) -> Status
    ensures saved { IsSaved result (D.written saved.old) (D.written saved.new) (D.faults saved.old) (D.faults saved.new) (image_bytes image.now) }
    ensures later { D.faults saved.old ≤ D.faults saved.new }
{
    match write_image(saved, image) {
        Ok(()) => Status::Done,
        Err(_) => Status::WriteFault,
    }
}
