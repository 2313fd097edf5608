// Where whole runs find a script bad.
use super::run_text;
use pm_words::NoMemory;
use std::alloc::Global;
use tr_top::Status;

/// Whether a run of the text is bad at this place, and does nothing.
fn is_bad_at(alloc: Global, text: &str, line: u32, column: u32) -> Result<bool, NoMemory> {
    let ran = run_text(alloc, text.as_bytes(), 4096)?;
    Ok(
        ran.outcome.status == Status::BadScript { line, column }
            && ran.outcome.trace.entries().is_empty()
            && ran.out.bytes().is_empty()
            && ran.saved.bytes().is_empty(),
    )
}

#[test]
fn first_lines_have_bad_places(rt: HostRuntime) -> Result<(), NoMemory> {
    for (text, line, column) in [
        ("", 1, 1),
        ("# a note", 2, 1),
        ("# a note\n\n", 3, 1),
        ("mkfs 63\n", 1, 6),
        ("mkfs 63", 1, 6),
        ("mkfs 16385\n", 1, 6),
        ("mkfs 064\n", 1, 6),
        ("mkfs  64\n", 1, 6),
        ("mkfs\n", 1, 5),
        ("mkfs 64 \n", 1, 9),
        ("mkfs 64 1\n", 1, 9),
        ("Mkfs 64\n", 1, 1),
        ("# a note\n\nmkfs 63\n", 3, 6),
        ("step t1 1\n", 1, 1),
        ("process p1 0 0\n", 1, 1),
        ("# a note\nprocess p1 0 0\n", 2, 1),
        ("mkfs 64\nmkfs 64\n", 2, 1),
        ("mkfs 64\nproces p1 0 0\n", 2, 1),
        ("mkfs 64\nprocess p1 5 5\n", 2, 12),
        ("mkfs 64\nthread t1 p1\n", 2, 11),
        ("mkfs 64\ndo t1 stat /\n", 2, 4),
    ] {
        assert!(rt; is_bad_at(rt.alloc(), text, line, column)?, "{text:?}");
    }
    Ok(())
}

/// Whether the line is bad at this column below a process and a thread.
fn is_bad_behind_three(alloc: Global, last: &str, column: u32) -> Result<bool, NoMemory> {
    let text = format!(in alloc; "mkfs 64\nprocess p1 0 0\nthread t1 p1\n{last}\n")?;
    is_bad_at(alloc, &text, 4, column)
}

#[test]
fn declarations_and_commands_have_bad_columns(rt: HostRuntime) -> Result<(), NoMemory> {
    for (last, column) in [
        ("process p1 0 0", 9),
        ("process p65 0 0", 9),
        ("process p0 0 0", 9),
        ("process p2 4294967296 0", 12),
        ("process p2 0", 13),
        ("thread t1 p1", 8),
        ("thread t257 p1", 8),
        ("thread t2 p2", 11),
        ("do t2 stat /", 4),
        ("do t1 stat", 11),
        ("do t1 stat //", 12),
        ("do t1 stat /.", 12),
        ("do t1 stat /a/..", 12),
        ("do t1 stat f", 12),
        ("do t1 list /", 7),
        ("do t1 create / 666", 14),
        ("do t1 create /f 668", 17),
        ("do t1 create /f 0666", 17),
        ("do t1 create /f 607", 17),
    ] {
        assert!(rt; is_bad_behind_three(rt.alloc(), last, column)?, "{last}");
    }
    Ok(())
}

#[test]
fn turns_and_strays_have_bad_columns(rt: HostRuntime) -> Result<(), NoMemory> {
    for (last, column) in [
        ("call t2 stat /", 6),
        ("call t1 stat", 13),
        ("finish", 7),
        ("finish t2", 8),
        ("finish t1 1", 11),
        ("open p1", 6),
        ("stray t2 0 0", 7),
        ("stray t1 4 0", 10),
        ("stray t1 08 0", 10),
        ("stray t1 67108864 0", 10),
        ("stray t1 0", 11),
        ("stray t1 0 18446744073709551616", 12),
        ("stray t1 0 0 0", 14),
        ("hold t1", 1),
        ("tick 1", 1),
    ] {
        assert!(rt; is_bad_behind_three(rt.alloc(), last, column)?, "{last}");
    }
    Ok(())
}

#[test]
fn lines_within_a_call_have_bad_places(rt: HostRuntime) -> Result<(), NoMemory> {
    for (lines, line, column) in [
        ("call t1 stat /\n", 7, 1),
        ("do t1 stat /\n", 7, 1),
        ("call t2 stat /\n", 7, 1),
        ("do t2 stat /\n", 7, 1),
        ("stray t1 0 0\n", 7, 7),
        // the call has ended, but no line has finished it
        ("open t1\nopen t1\nstray t1 0 0\n", 9, 7),
        ("open t1\nopen t1\ndo t2 stat /\n", 9, 1),
        ("finish t2\ndo t2 stat /\n", 8, 1),
    ] {
        let text = format!(in rt.alloc();
            "# a note\nmkfs 64\nprocess p1 0 0\nthread t1 p1\nthread t2 p1\ncall t1 stat /\n{lines}"
        )?;
        assert!(rt; is_bad_at(rt.alloc(), &text, line, column)?, "{lines}");
    }
    Ok(())
}

#[test]
fn a_name_of_256_letters_is_bad(rt: HostRuntime) -> Result<(), NoMemory> {
    let name = "n".repeat(rt.alloc(), 256)?;
    let last = format!(in rt.alloc(); "do t1 create /{name} 666")?;
    assert!(rt; is_bad_behind_three(rt.alloc(), &last, 14)?);
    Ok(())
}
