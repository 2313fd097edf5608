// Whole runs, over sources and sinks in memory. Expected words and addresses are reckoned from the layout by hand.
use crate::{Outcome, Status, zofs_run};
use pm_words::NoMemory;
use std::alloc::Global;
use tr_outside::{MemSink, MemSource};
use tr_types::{Action, Command, Entry, Mark};

/// Makes a file and asks for it.
const FIRST_RUN: &str =
    "mkfs 64\nprocess p1 0 0\nthread t1 p1\ndo t1 create /f 666\ndo t1 stat /f\n";

const FIRST_REPLIES: &str = "t1 made\nt1 info file 0 0 0 666\n";

/// What a trace of that run tells beside its actions.
const FIRST_EVENTS: &str =
    "mkfs 64\nnew p1 0 0\nnew t1 p1\nt1 call create /f 666\nt1 reply made\nt1 call stat /f\nt1 reply info file 0 0 0 666\n";

/// Bytes of a page, and of an image of 64 pages.
const PAGE_BYTES: usize = 4096;

const IMAGE_BYTES: usize = 262_144;

/// Which call of each fails, counted from 1; no call where it is 0.
#[derive(Clone, Copy, Debug)]
struct Fails {
    script: u32,
    out: u32,
    saved: u32,
}

const NONE: Fails = Fails {
    script: 0,
    out: 0,
    saved: 0,
};

/// What a run did.
#[derive(Drop)]
struct Ran {
    outcome: Outcome,
    out: MemSink,
    saved: MemSink,
}

impl Ran {
    /// Whether the saved image has this word at the byte address `at`.
    fn has_word(&self, at: usize, word: u64) -> bool {
        let bytes = self.saved.bytes().get(at..);
        bytes.is_some_and(|bytes| bytes.starts_with(&word.to_le_bytes()))
    }
}

/// Runs the program on these words and this script, with room for an image of so many bytes.
fn run_on(
    alloc: Global,
    words: &[&str],
    script: &str,
    fails: Fails,
    room: usize,
) -> Result<Ran, NoMemory> {
    let mut given = Vec::new(alloc);
    for word in words {
        given.push(String::from_str(alloc, word)?)?;
    }
    let mut image = MemSource::new(Vec::new(alloc), Vec::new(alloc));
    let text = Vec::from_slice(alloc, script.as_bytes())?;
    let mut source = MemSource::new(text, vec![in alloc; fails.script]?);
    let mut out = MemSink::new(alloc, 4096, vec![in alloc; fails.out]?)?;
    let mut saved = MemSink::new(alloc, room, vec![in alloc; fails.saved]?)?;
    let outcome = zofs_run(alloc, &given, &mut image, &mut source, &mut out, &mut saved);
    Ok(Ran {
        outcome,
        out,
        saved,
    })
}

/// Runs a script of at most 67 pages of which no call fails.
fn run_script(alloc: Global, script: &str) -> Result<Ran, NoMemory> {
    run_on(alloc, &["run"], script, NONE, 67 * PAGE_BYTES)
}

/// Runs the commands of these rows in an image of 64 pages. Answers also what they are to print, the rows' replies.
fn run_rows(alloc: Global, rows: &[(&str, &str)]) -> Result<(Ran, String), NoMemory> {
    let mut script = String::from_str(alloc, "mkfs 64\nprocess p1 0 0\nthread t1 p1\n")?;
    let mut replies = String::new(alloc);
    for (command, reply) in rows {
        writeln!(script, "do t1 {command}")?;
        writeln!(replies, "t1 {reply}")?;
    }
    Ok((run_script(alloc, &script)?, replies))
}

/// A script that makes so many files, `/0` first, in an image of so many pages.
fn creates(alloc: Global, pages: u32, count: u32) -> Result<String, NoMemory> {
    let mut script = format!(in alloc; "mkfs {pages}\nprocess p1 0 0\nthread t1 p1\n")?;
    for i in 0..count {
        writeln!(script, "do t1 create /{i} 666")?;
    }
    Ok(script)
}

#[test]
fn the_first_run_makes_a_file(rt: HostRuntime) -> Result<(), NoMemory> {
    let ran = run_script(rt.alloc(), FIRST_RUN)?;
    assert_eq!(rt; ran.outcome.status, Status::Done);
    assert_eq!(rt; ran.out.bytes(), FIRST_REPLIES.as_bytes());
    assert_eq!(rt; ran.saved.bytes().len(), IMAGE_BYTES);
    // the owners of pages 40 and 41; the first entry page; the bucket of `f`, which is 217; in that page's first
    // place no further entry, the target, the length and the letter; and the file's kind
    for (at, word) in [
        (16_704, 1),
        (16_712, 1),
        (159_776, 163_840),
        (163_528, 164_096),
        (164_096, 0),
        (164_104, 167_936),
        (164_112, 1),
        (164_120, 102),
        (167_936, 1),
    ] {
        assert!(rt; ran.has_word(at, word), "at {at}");
    }
    Ok(())
}

#[test]
fn the_first_run_begins_as_its_script(rt: HostRuntime) -> Result<(), NoMemory> {
    let ran = run_script(rt.alloc(), FIRST_RUN)?;
    match ran.outcome.trace.entries() {
        [first, second, third, fourth, ..] => {
            assert!(rt; matches!(first, Entry::Mkfs(64)));
            assert!(rt; matches!(second, Entry::Process { process: 0, .. }));
            assert!(rt;
                matches!(
                    third,
                    Entry::Thread {
                        thread: 0,
                        process: 0
                    }
                )
            );
            assert!(rt;
                matches!(
                    fourth,
                    Entry::Call {
                        thread: 0,
                        command: Command::Create { .. }
                    }
                )
            );
        }
        _ => assert!(rt; false, "fewer entries"),
    }
    Ok(())
}

/// How many actions have the mark.
fn count_marked(entries: &[Entry], wanted: Mark) -> usize {
    entries
        .iter()
        .filter(|entry| matches!(entry, Entry::Act { mark, .. } if *mark == wanted))
        .count()
}

/// Whether the entry is the commit that puts the first place of page 40 into the bucket of `f`.
fn commits_f(entry: &Entry) -> bool {
    matches!(
        entry,
        Entry::Act {
            mark: Mark::Commit,
            action: Action::Store(163_528, 164_096),
            ..
        }
    )
}

#[test]
fn the_first_run_opens_two_windows_and_commits_once(rt: HostRuntime) -> Result<(), NoMemory> {
    let ran = run_script(rt.alloc(), FIRST_RUN)?;
    let entries = ran.outcome.trace.entries();
    for (mark, count) in [(Mark::Open, 2), (Mark::Close, 2), (Mark::Commit, 1)] {
        assert_eq!(rt; count_marked(entries, mark), count, "{mark:?}");
    }
    assert!(rt; entries.iter().any(commits_f));
    Ok(())
}

#[test]
fn each_reply_is_a_line(rt: HostRuntime) -> Result<(), NoMemory> {
    let (ran, replies) = run_rows(
        rt.alloc(),
        &[
            ("create /f 666", "made"),
            ("create /f 666", "exists"),
            ("stat /g", "notfound"),
            ("stat /", "info dir 1 0 0 666"),
        ],
    )?;
    assert_eq!(rt; ran.outcome.status, Status::Done);
    assert_eq!(rt; ran.out.bytes(), replies.as_bytes());
    Ok(())
}

/// Whether the line tells an action of t1 and how it was answered.
fn tells_action(line: &str) -> bool {
    let marks = [
        "plain", "open", "close", "take", "note", "check", "point", "commit",
    ];
    let Some((action, answer)) = line.split_once(" = ") else {
        return false;
    };
    let Some(told) = action.strip_prefix("t1 0 ") else {
        return false;
    };
    marks.iter().any(|mark| told.starts_with(mark))
        && ["word ", "done", "found ", "mapped ", "pages "]
            .iter()
            .any(|kind| answer.starts_with(kind))
}

#[test]
fn a_trace_tells_each_entry(rt: HostRuntime) -> Result<(), NoMemory> {
    let ran = run_on(rt.alloc(), &["trace"], FIRST_RUN, NONE, IMAGE_BYTES)?;
    assert_eq!(rt; ran.outcome.status, Status::Done);
    let text = str::from_utf8(ran.out.bytes()).unwrap_or("");
    let mut events = String::new(rt.alloc());
    for line in text.lines() {
        if !tells_action(line) {
            writeln!(events, "{line}")?;
        }
    }
    assert_eq!(rt; events.as_str(), FIRST_EVENTS);
    assert_eq!(rt; text.lines().count(), ran.outcome.trace.entries().len());
    Ok(())
}

#[test]
fn a_trace_is_told_entry_by_entry(rt: HostRuntime) -> Result<(), NoMemory> {
    for (out, told) in [(1, ""), (2, "mkfs 64\n"), (3, "mkfs 64\nnew p1 0 0\n")] {
        let fails = Fails {
            script: 0,
            out,
            saved: 0,
        };
        let ran = run_on(rt.alloc(), &["trace"], FIRST_RUN, fails, IMAGE_BYTES)?;
        assert_eq!(rt; ran.outcome.status, Status::WriteFault, "{fails:?}");
        assert_eq!(rt; ran.out.bytes(), told.as_bytes(), "{fails:?}");
        assert!(rt; ran.saved.bytes().is_empty(), "{fails:?}");
    }
    Ok(())
}

#[test]
fn a_new_image_is_saved(rt: HostRuntime) -> Result<(), NoMemory> {
    let ran = run_script(rt.alloc(), "mkfs 64")?;
    assert_eq!(rt; ran.outcome.status, Status::Done);
    assert_eq!(rt; ran.out.bytes(), b"".as_slice());
    assert_eq!(rt; ran.saved.bytes().len(), IMAGE_BYTES);
    // the signature and the size; the root coffer's two pages, and the first free one; an empty bucket
    for (at, word) in [
        (0, 0x5952555341455254),
        (16, 64),
        (16_688, 1),
        (16_696, 1),
        (16_704, 0),
        (163_528, 0),
    ] {
        assert!(rt; ran.has_word(at, word), "at {at}");
    }
    Ok(())
}

#[test]
fn the_greatest_image_is_saved(rt: HostRuntime) -> Result<(), NoMemory> {
    let ran = run_on(rt.alloc(), &["run"], "mkfs 16384", NONE, 67_108_864)?;
    assert_eq!(rt; ran.outcome.status, Status::Done);
    assert_eq!(rt; ran.saved.bytes().len(), 67_108_864);
    Ok(())
}

// Of 64 pages 24 are free. Twelve files take 13, and ten more take 11.
#[test]
fn no_page_is_left_for_a_file(rt: HostRuntime) -> Result<(), NoMemory> {
    let mut script = creates(rt.alloc(), 64, 23)?;
    script.push_str("do t1 create /0 666\n")?;
    let ran = run_script(rt.alloc(), &script)?;
    let made = "t1 made\n".repeat(rt.alloc(), 22)?;
    let replies = format!(in rt.alloc(); "{made}t1 nospace 1 0\nt1 exists\n")?;
    assert_eq!(rt; ran.out.bytes(), replies.as_bytes());
    Ok(())
}

// Of 67 pages 27 are free. Two times twelve files take 26.
#[test]
fn no_page_is_left_for_an_entry_page(rt: HostRuntime) -> Result<(), NoMemory> {
    let script = creates(rt.alloc(), 67, 25)?;
    let ran = run_script(rt.alloc(), &script)?;
    let made = "t1 made\n".repeat(rt.alloc(), 24)?;
    let replies = format!(in rt.alloc(); "{made}t1 nospace 2 1\n")?;
    assert_eq!(rt; ran.out.bytes(), replies.as_bytes());
    Ok(())
}

#[test]
fn names_of_one_bucket_are_told_apart(rt: HostRuntime) -> Result<(), NoMemory> {
    let (ran, replies) = run_rows(
        rt.alloc(),
        &[
            ("create /aa 666", "made"),
            ("stat /bH", "notfound"),
            ("create /bH 666", "made"),
            ("create /e- 666", "made"),
            ("stat /aa", "info file 0 0 0 666"),
            ("stat /bH", "info file 0 0 0 666"),
            ("stat /e-", "info file 0 0 0 666"),
            ("create /aa 666", "exists"),
            ("stat /", "info dir 3 0 0 666"),
        ],
    )?;
    assert_eq!(rt; ran.out.bytes(), replies.as_bytes());
    // the bucket leads to the name that came last, in the third place of page 40
    assert!(rt; ran.has_word(163_256, 164_736));
    Ok(())
}

#[test]
fn the_last_of_255_letters_counts(rt: HostRuntime) -> Result<(), NoMemory> {
    let front = "x".repeat(rt.alloc(), 254)?;
    let create = format!(in rt.alloc(); "create /{front}y 666")?;
    let same = format!(in rt.alloc(); "stat /{front}y")?;
    let other = format!(in rt.alloc(); "stat /{front}z")?;
    let (ran, replies) = run_rows(
        rt.alloc(),
        &[
            (&create, "made"),
            (&same, "info file 0 0 0 666"),
            (&other, "notfound"),
        ],
    )?;
    assert_eq!(rt; ran.out.bytes(), replies.as_bytes());
    Ok(())
}

#[test]
fn a_failed_call_ends_the_run(rt: HostRuntime) -> Result<(), NoMemory> {
    // the call of the script's source, of `out` and of `saved` that fails; the status, the replies and the bytes saved
    for (script, out, saved, status, replies, bytes) in [
        (1, 0, 0, Status::ReadFault, "", 0),
        (2, 0, 0, Status::ReadFault, "", 0),
        (3, 0, 0, Status::Done, FIRST_REPLIES, IMAGE_BYTES),
        (4, 0, 0, Status::Done, FIRST_REPLIES, IMAGE_BYTES),
        (0, 1, 0, Status::WriteFault, "", 0),
        (0, 2, 0, Status::WriteFault, "t1 made\n", 0),
        (0, 3, 0, Status::Done, FIRST_REPLIES, IMAGE_BYTES),
        (0, 4, 0, Status::Done, FIRST_REPLIES, IMAGE_BYTES),
        (0, 0, 1, Status::WriteFault, FIRST_REPLIES, 0),
        (0, 0, 2, Status::WriteFault, FIRST_REPLIES, PAGE_BYTES),
        (0, 0, 3, Status::WriteFault, FIRST_REPLIES, 2 * PAGE_BYTES),
        (0, 0, 4, Status::WriteFault, FIRST_REPLIES, 3 * PAGE_BYTES),
    ] {
        let fails = Fails { script, out, saved };
        let ran = run_on(rt.alloc(), &["run"], FIRST_RUN, fails, IMAGE_BYTES)?;
        assert_eq!(rt; ran.outcome.status, status, "{fails:?}");
        assert_eq!(rt; ran.out.bytes(), replies.as_bytes(), "{fails:?}");
        assert_eq!(rt; ran.saved.bytes().len(), bytes, "{fails:?}");
    }
    Ok(())
}

// Each first call fails, so that a call shows as a fault.
#[test]
fn other_words_do_nothing(rt: HostRuntime) -> Result<(), NoMemory> {
    let all = Fails {
        script: 1,
        out: 1,
        saved: 1,
    };
    let forms: [&[&str]; 28] = [
        &[],
        &["run", "run"],
        &["run", "help"],
        &["run", "-v"],
        &["run", ""],
        &["Run"],
        &["trace", "trace"],
        &["trace", "run"],
        &["Trace"],
        &[""],
        &["help"],
        &["--help"],
        &["-h"],
        &["mkfs"],
        &["mkfs", "63"],
        &["mkfs", "16385"],
        &["mkfs", "064"],
        &["mkfs", "+64"],
        &["mkfs", "-64"],
        &["mkfs", "6 4"],
        &["mkfs", "64", "64"],
        &["check", "check"],
        &["soak", "1"],
        &["soak", "1", "2001"],
        &["soak", "01", "1"],
        &["soak", "18446744073709551616", "0"],
        &["live", "live"],
        &["audit", "x"],
    ];
    for words in forms {
        let ran = run_on(rt.alloc(), words, FIRST_RUN, all, IMAGE_BYTES)?;
        assert_eq!(rt; ran.outcome.status, Status::Usage, "{words:?}");
        assert!(rt; ran.outcome.trace.entries().is_empty(), "{words:?}");
    }
    Ok(())
}

#[test]
fn a_text_that_is_no_script_does_nothing(rt: HostRuntime) -> Result<(), NoMemory> {
    for (text, line, column) in [
        ("", 1, 1),
        ("mkfs 63\n", 1, 6),
        (
            "mkfs 64\nprocess p1 0 0\nthread t1 p1\ndo t1 create /f 666\ndo t1 list /\n",
            5,
            7,
        ),
    ] {
        for word in ["run", "trace"] {
            let ran = run_on(rt.alloc(), &[word], text, NONE, IMAGE_BYTES)?;
            assert_eq!(rt;
                ran.outcome.status,
                Status::BadScript { line, column },
                "{word} {text:?}"
            );
            assert!(rt; ran.outcome.trace.entries().is_empty(), "{word} {text:?}");
            assert!(rt; ran.out.bytes().is_empty(), "{word} {text:?}");
            assert!(rt; ran.saved.bytes().is_empty(), "{word} {text:?}");
        }
    }
    Ok(())
}
