// Stray stores outside every call and beside the window of another thread's call.
use super::{Ran, is_done, run_text};
use pm_words::NoMemory;
use std::alloc::Global;

/// Both threads in one process.
const TOGETHER: &str = "process p1 0 0\nthread t1 p1\nthread t2 p1\n";

/// Thread 1 in a process of its own, which has nothing mapped.
const APART: &str = "process p1 0 0\nprocess p2 0 0\nthread t1 p2\nthread t2 p1\n";

/// A script with a stray store of thread 1 between the lines `before` and `after`: what the store is answered, and
/// what all else prints.
#[derive(Clone, Copy, Debug)]
struct Row<'a> {
    head: &'a str,
    before: &'a str,
    addr: u32,
    after: &'a str,
    fault: &'a str,
    replies: &'a str,
}

fn run_lines(alloc: Global, row: &Row, stray: &str) -> Result<Ran, NoMemory> {
    let Row {
        head,
        before,
        after,
        ..
    } = row;
    let script = format!(in alloc; "mkfs 64\n{head}{before}{stray}{after}")?;
    run_text(alloc, script.as_bytes(), 4096)
}

/// Whether the run prints what the row says, and saves the image of the same run without the stray store.
fn holds(alloc: Global, row: &Row) -> Result<bool, NoMemory> {
    let stray = format!(in alloc; "stray t1 {} 7\n", row.addr)?;
    let quiet = run_lines(alloc, row, "")?;
    let ran = run_lines(alloc, row, &stray)?;
    let out = format!(in alloc; "t1 stray fault {}\n{}", row.fault, row.replies)?;
    Ok(
        is_done(&quiet, row.replies)
            && is_done(&ran, &out)
            && ran.saved.bytes() == quiet.saved.bytes(),
    )
}

// Page 38 is the root coffer's control page and page 39 its root directory, pages 40 and 41 those of the new file.
#[test]
fn a_window_of_another_thread_is_closed_to_strays(rt: HostRuntime) -> Result<(), NoMemory> {
    for (head, addr, fault) in [
        (TOGETHER, 159_744, "key"),
        (TOGETHER, 155_648, "key"),
        (TOGETHER, 163_832, "key"),
        // a kernel page, the first and the last free page, past the image, and the last word of all
        (TOGETHER, 0, "unmapped"),
        (TOGETHER, 163_840, "unmapped"),
        (TOGETHER, 262_136, "unmapped"),
        (TOGETHER, 262_144, "unmapped"),
        (TOGETHER, 67_108_856, "unmapped"),
        (APART, 159_744, "unmapped"),
        (APART, 0, "unmapped"),
    ] {
        let row = Row {
            head,
            before: "call t2 create /f 666\nopen t2\n",
            addr,
            after: "finish t2\n",
            fault,
            replies: "t2 made\n",
        };
        assert!(rt; holds(rt.alloc(), &row)?, "{row:?}");
    }
    Ok(())
}

#[test]
fn a_window_for_loads_refuses_every_store(rt: HostRuntime) -> Result<(), NoMemory> {
    for (head, addr, fault) in [
        (TOGETHER, 159_744, "readonly"),
        (TOGETHER, 155_648, "readonly"),
        (TOGETHER, 0, "unmapped"),
        (TOGETHER, 163_840, "unmapped"),
        (APART, 159_744, "unmapped"),
    ] {
        let row = Row {
            head,
            before: "call t2 stat /\nopen t2\n",
            addr,
            after: "finish t2\n",
            fault,
            replies: "t2 info dir 0 0 0 666\n",
        };
        assert!(rt; holds(rt.alloc(), &row)?, "{row:?}");
    }
    Ok(())
}

#[test]
fn before_a_window_nothing_is_mapped(rt: HostRuntime) -> Result<(), NoMemory> {
    for (before, after, replies) in [
        ("", "", ""),
        ("", "do t2 create /f 666\n", "t2 made\n"),
        ("call t2 create /f 666\n", "finish t2\n", "t2 made\n"),
        ("call t2 create /f 666\n", "", ""),
    ] {
        let row = Row {
            head: TOGETHER,
            before,
            addr: 159_744,
            after,
            fault: "unmapped",
            replies,
        };
        assert!(rt; holds(rt.alloc(), &row)?, "{row:?}");
    }
    Ok(())
}

/// Begins a call of thread 2 and opens its window.
const CALL: &str =
    "mkfs 64\nprocess p1 0 0\nthread t1 p1\nthread t2 p1\ncall t2 create /f 666\nopen t2\n";

// Page 41 is that of the new file.
#[test]
fn behind_a_window_nothing_is_mapped(rt: HostRuntime) -> Result<(), NoMemory> {
    let quiet = format!(in rt.alloc(); "{CALL}finish t2\n")?;
    let quiet = run_text(rt.alloc(), quiet.as_bytes(), 4096)?;
    for (lines, out) in [
        (
            "finish t2\nstray t1 159744 7\nstray t1 167936 7\n",
            "t2 made\nt1 stray fault unmapped\nt1 stray fault unmapped\n",
        ),
        (
            "open t2\nstray t1 159744 7\n",
            "t2 made\nt1 stray fault unmapped\n",
        ),
        (
            "finish t2\nstray t2 159744 7\n",
            "t2 made\nt2 stray fault unmapped\n",
        ),
    ] {
        let script = format!(in rt.alloc(); "{CALL}{lines}")?;
        let ran = run_text(rt.alloc(), script.as_bytes(), 4096)?;
        assert!(rt; is_done(&ran, out), "{lines}");
        assert!(rt; ran.saved.bytes() == quiet.saved.bytes(), "{lines}");
    }
    Ok(())
}
