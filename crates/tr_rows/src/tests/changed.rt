// A good script with a byte changed, and each front of it, against a plain reader.
use super::oracle::bad_place;
use super::run_text;
use pm_words::NoMemory;
use std::alloc::{AllocError, Global};
use tr_script::{ScriptFault, read_script};
use tr_top::Status;

/// A script that has each kind of line.
const SCRIPT: &[u8] =
    b"# a\nmkfs 64\n\nprocess p1 0 0\nthread t1 p1\nthread t2 p1\ncall t1 create /f 666\nopen t1\nstray t2 0 16\nfinish t1\n#\ndo t2 stat /f\ndo t1 stat /\n";

/// What each byte is changed to.
const BYTES: [u8; 8] = [b' ', b'\n', b'0', b'2', b't', b'/', b'#', 200];

/// The line and column at which a run finds its script bad. None where it is done.
fn found_bad(status: Status) -> Option<Option<(usize, usize)>> {
    match status {
        Status::Done => Some(None),
        Status::BadScript { line, column } => Some(Some((line as usize, column as usize))),
        _ => None,
    }
}

/// Whether a run judges the text as the plain reader does.
fn is_run_alike(alloc: Global, text: &[u8]) -> Result<bool, NoMemory> {
    let ran = run_text(alloc, text, 4096)?;
    let place = bad_place(alloc, text)?;
    Ok(found_bad(ran.outcome.status) == Some(place))
}

/// The line and column at which the program's reader finds the text bad. None where it is a script.
fn read_bad(alloc: Global, text: &[u8]) -> Result<Option<(usize, usize)>, NoMemory> {
    match read_script(alloc, text) {
        Ok(_) => Ok(None),
        Err(ScriptFault::BadLine { line, column }) => Ok(Some((line as usize, column as usize))),
        Err(ScriptFault::NoMemory) => Err(AllocError),
    }
}

/// The script with its byte at `at` changed.
fn changed(alloc: Global, at: usize, byte: u8) -> Result<Vec<u8>, NoMemory> {
    let mut text = Vec::from_slice(alloc, SCRIPT)?;
    if let Some(place) = text.get_mut(at) {
        *place = byte;
    }
    Ok(text)
}

#[test]
fn a_changed_byte_is_read_as_a_plain_reader_does(rt: HostRuntime) -> Result<(), NoMemory> {
    for at in 0..SCRIPT.len() {
        for byte in BYTES {
            let text = changed(rt.alloc(), at, byte)?;
            let read = read_bad(rt.alloc(), &text)?;
            assert_eq!(rt; read, bad_place(rt.alloc(), &text)?, "byte {byte} at {at}");
        }
    }
    Ok(())
}

#[test]
fn a_front_is_judged_as_a_plain_reader_does(rt: HostRuntime) -> Result<(), NoMemory> {
    for length in 0..=SCRIPT.len() {
        let alike = is_run_alike(rt.alloc(), &SCRIPT[..length])?;
        assert!(rt; alike, "a front of {length} bytes");
    }
    Ok(())
}

#[test]
fn a_plain_reader_tells_bad_places(rt: HostRuntime) -> Result<(), NoMemory> {
    for (text, place) in [
        ("mkfs 64", None),
        ("", Some((1, 1))),
        ("# a note", Some((2, 1))),
        ("# a note\n", Some((2, 1))),
        ("mkfs", Some((1, 5))),
        ("mkfs ", Some((1, 6))),
        ("mkfs 064\n", Some((1, 6))),
        ("mkfs 64 1\n", Some((1, 9))),
        ("mkfs 64\nprocess p2 0\n", Some((2, 13))),
        ("mkfs 64\nthread t1 p1\n", Some((2, 11))),
        ("mkfs 64\nprocess p1 0 0\nthread p1 p1\n", Some((3, 8))),
    ] {
        let told = bad_place(rt.alloc(), text.as_bytes())?;
        assert_eq!(rt; told, place, "{text:?}");
    }
    Ok(())
}
