use super::{ScriptFault, read_script};
use crate::Line;
use std::alloc::{AllocError, Global};
use tr_types::{Command, Cred};

/// The line and the column at which the text is bad.
fn bad_place(alloc: Global, text: &[u8]) -> Option<(u32, u32)> {
    match read_script(alloc, text) {
        Err(ScriptFault::BadLine { line, column }) => Some((line, column)),
        _ => None,
    }
}

fn is_bad_at(alloc: Global, text: &str, line: u32, column: u32) -> bool {
    bad_place(alloc, text.as_bytes()) == Some((line, column))
}

#[test]
fn first_bad_word_is_named(rt: HostRuntime) {
    for (text, line, column) in [
        ("", 1, 1),
        ("\n", 2, 1),
        ("# a note", 2, 1),
        ("# a note\n\n", 3, 1),
        ("mkfs", 1, 5),
        ("mkfs\n", 1, 5),
        ("mkfs ", 1, 6),
        ("mkfs 64 ", 1, 9),
        ("mkfs 64 \n", 1, 9),
        ("mkfs 64 1\n", 1, 9),
        ("mkfs  64\n", 1, 6),
        ("mkfs 063", 1, 6),
        ("mkfs 064\n", 1, 6),
        ("mkfs 63", 1, 6),
        ("mkfs +64", 1, 6),
        ("mkfs -64", 1, 6),
        ("mkfs 16385\n", 1, 6),
        ("mkfs 4294967360\n", 1, 6),
        ("mkfs 18446744073709551680\n", 1, 6),
        ("Mkfs 64\n", 1, 1),
        (" mkfs 64\n", 1, 1),
        ("# a note\n\nmkfs 63\n", 3, 6),
        ("process p1 0 0\n", 1, 1),
        ("# a note\nprocess p1 0 0\n", 2, 1),
        ("step t1 1\n", 1, 1),
        ("mkfs 64\nmkfs 64\n", 2, 1),
        ("mkfs 64\nproces p1 0 0\n", 2, 1),
        ("mkfs 64\nthread t1 p1\n", 2, 11),
        ("mkfs 64\ndo t1 stat /\n", 2, 4),
        ("mkfs 64\nstray t1 0 0\n", 2, 7),
        ("mkfs 64\nprocess p0 0 0\n", 2, 9),
        ("mkfs 64\nprocess p65 0 0\n", 2, 9),
        ("mkfs 64\nprocess p01 0 0\n", 2, 9),
        ("mkfs 64\nprocess t1 0 0\n", 2, 9),
        ("mkfs 64\nprocess p1 5 5\n", 2, 12),
        ("mkfs 64\nprocess p1 0 5\n", 2, 14),
        ("mkfs 64\nprocess p2 0 0 0\n", 2, 16),
        ("mkfs 64\nprocess p1 0 0\nthread t0 p1\n", 3, 8),
        ("mkfs 64\nprocess p1 0 0\nthread t2\n", 3, 10),
        ("mkfs 64\nprocess p1 0 0\n\n# a note\ndo t1 stat /\n", 5, 4),
    ] {
        assert!(rt; is_bad_at(rt.alloc(), text, line, column), "{text:?}");
    }
}

/// The column at which the line is bad below an image, a process and a thread, and then these lines.
fn bad_column(alloc: Global, above: &str, last: &str) -> Result<Option<u32>, AllocError> {
    let text = format!(in alloc; "mkfs 64\nprocess p1 0 0\nthread t1 p1\n{above}{last}\n")?;
    Ok(bad_place(alloc, text.as_bytes()).map(|(_, column)| column))
}

/// Whether the line is bad at this column below these lines, or good where there is none.
fn is_column(
    alloc: Global,
    above: &str,
    last: &str,
    column: Option<u32>,
) -> Result<bool, AllocError> {
    let found = bad_column(alloc, above, last)?;
    Ok(found == column)
}

#[test]
fn bad_words_of_declarations_and_commands(rt: HostRuntime) -> Result<(), AllocError> {
    for (last, column) in [
        ("process p1 0 0", 9),
        ("process p65 0 0", 9),
        ("process p0 0 0", 9),
        ("process p2 4294967296 0", 12),
        ("process p2 0", 13),
        ("thread t1 p1", 8),
        ("thread t257 p1", 8),
        ("thread t2 p2", 11),
        ("do", 3),
        ("do t2 stat /", 4),
        ("do t1 ", 7),
        ("do t1 list /", 7),
        ("do t1 stat", 11),
        ("do t1 stat //", 12),
        ("do t1 stat /.", 12),
        ("do t1 stat /..", 12),
        ("do t1 stat /a/..", 12),
        ("do t1 stat f", 12),
        ("do t1 stat / /", 14),
        ("do t1 stat /a ", 15),
        ("do t1 create / 666", 14),
        ("do t1 create /\x7f 666", 14),
        ("do t1 create /f", 16),
        ("do t1 create /f 668", 17),
        ("do t1 create /f 0666", 17),
        ("do t1 create /f 607", 17),
        ("do t1 create /f 666 1", 21),
    ] {
        assert!(rt; is_column(rt.alloc(), "", last, Some(column))?, "{last:?}");
    }
    Ok(())
}

#[test]
fn bad_words_of_calls_and_strays(rt: HostRuntime) -> Result<(), AllocError> {
    for (last, column) in [
        ("call t1", 8),
        ("call t2 stat /", 6),
        ("finish", 7),
        ("finish t2", 8),
        ("finish t1 1", 11),
        ("open p1", 6),
        ("stray t2 0 0", 7),
        ("stray t1", 9),
        ("stray t1 4 0", 10),
        ("stray t1 08 0", 10),
        ("stray t1 67108864 0", 10),
        ("stray t1 8", 11),
        ("stray t1 8 18446744073709551616", 12),
        ("stray t1 8 00", 12),
        ("stray t1 8 0 0", 14),
    ] {
        assert!(rt; is_column(rt.alloc(), "", last, Some(column))?, "{last:?}");
    }
    Ok(())
}

#[test]
fn lines_that_are_not_built_are_bad_at_once(rt: HostRuntime) -> Result<(), AllocError> {
    for last in [
        "mkfs 64",
        "tick 1",
        "tick  1",
        "step t1 1",
        "hold t1",
        "before t1",
        "past t1",
        "corrupt p1",
        "kill p1",
        "wild t1 fence",
        "crash none",
        "crashin t1 0 none",
        "recover",
        "rstep 1",
        "coffers",
    ] {
        assert!(rt; is_column(rt.alloc(), "", last, Some(1))?, "{last:?}");
    }
    Ok(())
}

#[test]
fn within_a_call_no_other_is_given(rt: HostRuntime) -> Result<(), AllocError> {
    for (above, last, column) in [
        ("call t1 stat /\n", "call t1 stat /", Some(1)),
        ("call t1 stat /\n", "do t1 stat /", Some(1)),
        ("call t1 stat /\n", "stray t1 0 0", Some(7)),
        ("call t1 stat /\nopen t1\n", "do t1 stat /", Some(1)),
        (
            "thread t2 p1\ncall t1 stat /\nfinish t2\n",
            "do t2 stat /",
            Some(1),
        ),
        (
            "thread t2 p1\ncall t1 stat /\nfinish t2\n",
            "stray t1 0 0",
            Some(7),
        ),
        ("thread t2 p1\ncall t1 stat /\n", "stray t2 0 0", None),
        ("call t1 stat /\n", "process p2 0 0", None),
        ("call t1 stat /\nfinish t1\n", "stray t1 0 0", None),
        ("call t1 stat /\nfinish t1\n", "do t1 stat /", None),
    ] {
        assert!(rt;
            is_column(rt.alloc(), above, last, column)?,
            "{above:?} {last:?}"
        );
    }
    Ok(())
}

#[test]
fn good_scripts_are_read(rt: HostRuntime) -> Result<(), ScriptFault> {
    for (text, lines) in [
        ("mkfs 64", 1),
        ("mkfs 16384\n", 1),
        ("# a note\n\n#\nmkfs 256\n\n# the end", 1),
        ("mkfs 64\nprocess p64 0 0\nthread t256 p64\n", 3),
        (
            "mkfs 64\nprocess p1 0 0\n\nthread t1 p1\n# a note\ndo t1 stat /...\n",
            4,
        ),
        (
            "mkfs 64\nprocess p1 0 0\nthread t1 p1\nthread t2 p1\ncall t2 create /f 666\nopen t2\nstray t1 159744 7\nfinish t2\n",
            8,
        ),
        (
            "mkfs 64\nprocess p1 0 0\nprocess p2 0 0\nthread t1 p2\nthread t2 p1\ncall t2 create /f 666\nopen t2\nstray t1 159744 7\nfinish t2\n",
            9,
        ),
    ] {
        let script = read_script(rt.alloc(), text.as_bytes())?;
        assert_eq!(rt; script.lines().len(), lines, "{text:?}");
    }
    Ok(())
}

#[test]
fn words_become_numbers_and_paths(rt: HostRuntime) -> Result<(), ScriptFault> {
    let text = "mkfs 64\nprocess p3 0 0\nthread t2 p3\ndo t2 create /a 666\ndo t2 stat /\n";
    let script = read_script(rt.alloc(), text.as_bytes())?;
    match script.lines() {
        [
            Line::Mkfs(64),
            Line::Process { process: 2, cred },
            Line::Thread {
                thread: 1,
                process: 2,
            },
            Line::Do {
                thread: 1,
                command: Command::Create { path, mode: 438 },
            },
            Line::Do {
                thread: 1,
                command: Command::Stat { path: root },
            },
        ] => {
            assert_eq!(rt; *cred.get(), Cred::new(0, 0));
            assert_eq!(rt; path.as_bytes(), b"/a".as_slice());
            assert_eq!(rt; root.as_bytes(), b"/".as_slice());
        }
        _ => assert!(rt; false, "other lines"),
    }
    Ok(())
}

#[test]
fn lines_of_a_call_and_a_stray_store(rt: HostRuntime) -> Result<(), ScriptFault> {
    let text =
        "mkfs 64\nprocess p1 0 0\nthread t1 p1\nthread t9 p1\ncall t9 stat /b\nopen t9\nstray t1 67108856 18446744073709551615\nfinish t9\n";
    let script = read_script(rt.alloc(), text.as_bytes())?;
    match script.lines() {
        [
            ..,
            Line::Call {
                thread: 8,
                command: Command::Stat { path },
            },
            Line::Open { thread: 8 },
            Line::Stray {
                thread: 0,
                addr: 67108856,
                word: 18446744073709551615,
            },
            Line::Finish { thread: 8 },
        ] => assert_eq!(rt; path.as_bytes(), b"/b".as_slice()),
        _ => assert!(rt; false, "other lines"),
    }
    Ok(())
}

fn is_filled_good(alloc: Global, first: &str, length: usize) -> Result<bool, AllocError> {
    let text = filled(alloc, first, length)?;
    Ok(read_script(alloc, &text).is_ok())
}

/// Whether a text of this first line, filled up to so many bytes, is bad at this place.
fn is_filled_bad_at(
    alloc: Global,
    first: &str,
    length: usize,
    place: Option<(u32, u32)>,
) -> Result<bool, AllocError> {
    let text = filled(alloc, first, length)?;
    Ok(bad_place(alloc, &text) == place)
}

/// A text of a first line, and a second that fills it up to so many bytes.
fn filled(alloc: Global, first: &str, length: usize) -> Result<Vec<u8>, AllocError> {
    let mut text = Vec::from_slice(alloc, first.as_bytes())?;
    text.push(b'#')?;
    for _ in text.len()..length {
        text.push(b'.')?;
    }
    Ok(text)
}

#[test]
fn first_byte_past_the_limit_is_bad(rt: HostRuntime) -> Result<(), AllocError> {
    assert!(rt; is_filled_good(rt.alloc(), "mkfs 64\n", 4_194_304)?);
    let longer = Some((2, 4_194_297));
    assert!(rt; is_filled_bad_at(rt.alloc(), "mkfs 64\n", 4_194_305, longer)?);
    let earlier = Some((1, 6));
    assert!(rt; is_filled_bad_at(rt.alloc(), "mkfs 63\n", 4_194_305, earlier)?);
    Ok(())
}

#[test]
fn no_later_place_than_the_limit_is_bad(rt: HostRuntime) -> Result<(), AllocError> {
    let note = filled(rt.alloc(), "", 4_194_305)?;
    assert_eq!(rt; bad_place(rt.alloc(), &note), Some((1, 4_194_305)));
    Ok(())
}
