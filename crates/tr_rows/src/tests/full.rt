// A run whose trace gets full.
use super::{run_text, run_word};
use pm_words::NoMemory;
use std::alloc::Global;
use tr_top::Status;
use tr_types::Entry;

/// How often the root is asked for: more than a trace has room for.
const QUESTIONS: usize = 16_000;

/// The greatest number of entries of a trace.
const TRACE_LIMIT: usize = 4_194_304;

/// Three entries come before the `create`. That takes 31: its call, the look, the map, the window's opening, four loads,
/// the call for pages, 19 stores, the window's closing, the end of the map, and the reply. A question takes 264: seven
/// such ones around 256 loads, one for each bucket, and one for the file. 15,887 of them leave room for 102 entries.
const ANSWERED: usize = 15_887;

/// What a question prints, 22 bytes.
const ANSWER: &str = "t1 info dir 1 0 0 666\n";

/// The last of the 102: behind its call, its look, its map and the window's opening the question gives 98 loads, of which the
/// last is of bucket 97, at byte 2,048 + 8 * 97 of page 39. (The file is in bucket 217.)
const LAST_TOLD: &str = "t1 0 plain load 162568 = word 0\n";

/// More than a line of this trace has on average, in bytes.
const LINE_ROOM: usize = 48;

fn long_script(alloc: Global) -> Result<String, NoMemory> {
    let questions = "do t1 stat /\n".repeat(alloc, QUESTIONS)?;
    Ok(format!(in alloc;
        "mkfs 64\nprocess p1 0 0\nthread t1 p1\ndo t1 create /f 666\n{questions}"
    )?)
}

/// How many calls of the trace were answered.
fn count_replies(entries: &[Entry]) -> usize {
    entries
        .iter()
        .filter(|entry| matches!(entry, Entry::Reply { .. }))
        .count()
}

#[test]
fn each_reply_of_a_full_trace_is_printed(rt: HostRuntime) -> Result<(), NoMemory> {
    let script = long_script(rt.alloc())?;
    let ran = run_text(rt.alloc(), script.as_bytes(), 22 * QUESTIONS)?;
    assert_eq!(rt; ran.outcome.status, Status::Full);
    assert_eq!(rt; ran.outcome.trace.len(), TRACE_LIMIT);
    assert!(rt; ran.saved.bytes().is_empty());
    // the first reply is that of the `create`
    assert_eq!(rt; count_replies(ran.outcome.trace.entries()), ANSWERED + 1);
    let answers = ANSWER.repeat(rt.alloc(), ANSWERED)?;
    let replies = format!(in rt.alloc(); "t1 made\n{answers}")?;
    assert!(rt; ran.out.bytes() == replies.as_bytes());
    Ok(())
}

#[test]
fn each_entry_of_a_full_trace_is_told(rt: HostRuntime) -> Result<(), NoMemory> {
    let script = long_script(rt.alloc())?;
    let ran = run_word(
        rt.alloc(),
        "trace",
        script.as_bytes(),
        LINE_ROOM * TRACE_LIMIT,
    )?;
    assert_eq!(rt; ran.outcome.status, Status::Full);
    assert!(rt; ran.saved.bytes().is_empty());
    let told = ran.out.bytes();
    assert_eq!(rt;
        told.iter().filter(|byte| **byte == b'\n').count(),
        TRACE_LIMIT
    );
    assert!(rt; told.ends_with(LAST_TOLD.as_bytes()));
    Ok(())
}
