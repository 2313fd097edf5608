// Lines that give turns, and lines that stand while a call runs.
use super::{is_done, run_text};
use pm_words::NoMemory;
use std::alloc::Global;

const HEAD: &str = "mkfs 64\nprocess p1 0 0\nthread t1 p1\nthread t2 p1\n";

/// Whether a run of these lines is done and prints these replies.
fn prints(alloc: Global, lines: &str, replies: &str) -> Result<bool, NoMemory> {
    let script = format!(in alloc; "{HEAD}{lines}")?;
    let ran = run_text(alloc, script.as_bytes(), 4096)?;
    Ok(is_done(&ran, replies))
}

#[test]
fn a_call_goes_on_by_turns(rt: HostRuntime) -> Result<(), NoMemory> {
    for (lines, replies) in [
        // a thread without a call makes no turn
        ("finish t1\nopen t2\n", ""),
        ("call t1 create /f 666\nfinish t1\n", "t1 made\n"),
        // a call has one window, so that the second line brings it to its end
        ("call t1 create /f 666\nopen t1\nopen t1\n", "t1 made\n"),
        (
            "call t1 create /f 666\nopen t1\nopen t1\nopen t1\nfinish t1\n",
            "t1 made\n",
        ),
        ("call t1 create /f 666\nfinish t1\nfinish t1\n", "t1 made\n"),
        (
            "call t1 create /f 666\nfinish t2\nopen t2\nfinish t1\n",
            "t1 made\n",
        ),
        ("do t1 create /f 666\nfinish t1\nopen t1\n", "t1 made\n"),
    ] {
        assert!(rt; prints(rt.alloc(), lines, replies)?, "{lines}");
    }
    Ok(())
}

#[test]
fn threads_call_in_turn(rt: HostRuntime) -> Result<(), NoMemory> {
    for (lines, replies) in [
        (
            "call t1 create /f 666\nfinish t1\ncall t2 create /g 666\nfinish t2\nfinish t2\ncall t1 stat /g\nfinish t1\ndo t2 stat /\n",
            "t1 made\nt2 made\nt1 info file 0 0 0 666\nt2 info dir 2 0 0 666\n",
        ),
        (
            "call t1 create /f 666\nopen t1\nfinish t1\ncall t2 create /f 666\nopen t2\nfinish t2\n",
            "t1 made\nt2 exists\n",
        ),
        (
            "call t1 stat /f\nopen t1\nprocess p2 0 0\nthread t3 p2\nfinish t1\ndo t3 create /f 666\ndo t1 stat /f\n",
            "t1 notfound\nt3 made\nt1 info file 0 0 0 666\n",
        ),
        (
            "process p64 0 0\nthread t256 p64\ncall t256 create /f 666\nopen t256\nstray t1 159744 7\nstray t2 159744 7\nfinish t256\n",
            "t1 stray fault unmapped\nt2 stray fault unmapped\nt256 made\n",
        ),
    ] {
        assert!(rt; prints(rt.alloc(), lines, replies)?, "{lines}");
    }
    Ok(())
}

/// Whether these lines save the image that those lines save.
fn saves_alike(alloc: Global, lines: &str, others: &str) -> Result<bool, NoMemory> {
    let script = format!(in alloc; "{HEAD}{lines}")?;
    let ran = run_text(alloc, script.as_bytes(), 4096)?;
    let script = format!(in alloc; "{HEAD}{others}")?;
    let other = run_text(alloc, script.as_bytes(), 4096)?;
    Ok(is_done(&ran, "") && ran.saved.bytes() == other.saved.bytes())
}

#[test]
fn a_script_that_ends_within_a_call_saves_the_present_words(
    rt: HostRuntime,
) -> Result<(), NoMemory> {
    for lines in [
        "call t1 create /f 666\n",
        "call t1 create /f 666\nopen t1\n",
        "call t1 stat /\nopen t1\n",
    ] {
        assert!(rt; saves_alike(rt.alloc(), lines, "")?, "{lines}");
    }
    Ok(())
}

#[test]
fn lines_that_give_nothing_leave_no_entry(rt: HostRuntime) -> Result<(), NoMemory> {
    for lines in ["", "finish t1\n", "open t2\nfinish t2\n"] {
        let script = format!(in rt.alloc(); "{HEAD}{lines}")?;
        let ran = run_text(rt.alloc(), script.as_bytes(), 4096)?;
        assert_eq!(rt; ran.outcome.trace.len(), 4, "{lines}");
    }
    Ok(())
}
