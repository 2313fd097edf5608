// Long paths.
use super::NOW;
use kern_stand::{RowFault, Table, wrong_calls_in};
use std::alloc::{AllocError, Global};
use std::test::Fail;

/// The length of a name in a long path, with the `/` before it.
const NAME: usize = 200;

const IN_THE_ROOT: &str =
    "Found { first: FoundAt { id: 1, exact: false, path_len: 1, perm: Perm { uid: 0, gid: 0, mode: 438 } }, second: None }";

// A path of this length in bytes. It isn't one more than a multiple of `NAME`.
fn long_path(alloc: Global, length: usize) -> Result<String, AllocError> {
    let mut path = String::new(alloc);
    for place in 0..length {
        path.push(if place % NAME == 0 { '/' } else { 'a' })?;
    }
    Ok(path)
}

// The lines that have another outcome over a new image.
fn wrong_over_new(alloc: Global, lines: &str) -> Result<String, RowFault> {
    wrong_calls_in(alloc, &[], NOW, &[Table { stored: &[], lines }])
}

// What else than wanted comes of finding a path of this length.
fn wrong_find(alloc: Global, length: usize, want: &str) -> Result<String, RowFault> {
    let path = long_path(alloc, length)?;
    let line = format!(in alloc; "0 find {path} -> {want}")?;
    wrong_over_new(alloc, &line)
}

// What else than wanted comes of a new coffer with a path of this length.
fn wrong_new(alloc: Global, length: usize, want: &str) -> Result<String, RowFault> {
    let path = long_path(alloc, length)?;
    let lines = format!(in alloc;
        "0 map / write shared\n0 new 1 {path} dir 600 159744:0:2 155648:0\n0 find {path} -> {want}"
    )?;
    wrong_over_new(alloc, &lines)
}

#[test]
fn a_path_to_look_for_has_at_most_1024_bytes(rt: HostRuntime) -> Result<(), Fail> {
    assert_eq!(rt; wrong_find(rt.alloc(), 1024, IN_THE_ROOT)?.as_str(), "");
    assert_eq!(rt; wrong_find(rt.alloc(), 1025, "BadPath")?.as_str(), "");
    Ok(())
}

#[test]
fn the_path_of_a_new_coffer_has_at_most_440_bytes(rt: HostRuntime) -> Result<(), Fail> {
    let made =
        "Found { first: FoundAt { id: 2, exact: true, path_len: 440, perm: Perm { uid: 0, gid: 0, mode: 384 } }, second: None }";
    assert_eq!(rt; wrong_new(rt.alloc(), 440, made)?.as_str(), "");
    assert_eq!(rt; wrong_new(rt.alloc(), 441, IN_THE_ROOT)?.as_str(), "");
    Ok(())
}
