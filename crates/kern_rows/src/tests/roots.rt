// The coffers of images, by number and by path.
use super::three::THREE;
use kern_stand::{Table, wrong_entries_in};
use std::test::Fail;

const NEW_IMAGE: &str = "\
find /x/y -> Found { id: 1, exact: false, path_len: 1 }
find / -> Found { id: 1, exact: true, path_len: 1 }
entry 1 -> Root { perm: Perm { uid: 0, gid: 0, mode: 438 }, state: Standing, kind: 0, control: 38, root: 39 }
entry 0 -> None
entry 2 -> None
entry 256 -> None
entry 257 -> None
entry 65535 -> None
path 1 -> /
children 1 -> []
";

// A path lies in the coffer with the longest path of whole names, and a coffer directly under the next above.
const WITH_THREE: &str = "\
find /a/b/c -> Found { id: 3, exact: false, path_len: 4 }
find /ab/c -> Found { id: 4, exact: false, path_len: 3 }
find /abc -> Found { id: 1, exact: false, path_len: 1 }
find /a/bb -> Found { id: 2, exact: false, path_len: 2 }
find /a/b -> Found { id: 3, exact: true, path_len: 4 }
children 1 -> [2, 4]
children 2 -> [3]
children 3 -> []
path 4 -> /ab
path 0 -> NoCoffer
path 5 -> NoCoffer
path 257 -> NoCoffer
children 0 -> NoCoffer
children 5 -> NoCoffer
children 257 -> NoCoffer
";

// Coffer 2 is quarantined.
const QUARANTINE: [(u64, u64); 1] = [(20992, 2)];

const QUARANTINED: &str = "\
entry 2 -> Root { perm: Perm { uid: 0, gid: 0, mode: 438 }, state: Quarantined, kind: 0, control: 40, root: 41 }
find /a/x -> Found { id: 2, exact: false, path_len: 2 }
";

// Two pairs are committed: coffer 4 has root page 46, and owns it.
const COMMITTED_PAIRS: [(u64, u64); 5] = [
    (4096, 2),
    (4160, 22056),
    (4168, 46),
    (4176, 16752),
    (4184, 4),
];

const COMMITTED: &str = "\
entry 4 -> Root { perm: Perm { uid: 0, gid: 0, mode: 384 }, state: Standing, kind: 0, control: 44, root: 46 }
";

// `/gd`, coffer 5 of pages 46 and 47, is in the bucket of `/a`, behind it.
const FIFTH: [(u64, u64); 8] = [
    (16752, 5),
    (16760, 5),
    (22528, 1),
    (22560, 46),
    (22568, 47),
    (22584, 3),
    (22600, 0x0064_672f),
    (21040, 5),
];

const SAME_BUCKET: &str = "\
find /gd/x -> Found { id: 5, exact: false, path_len: 3 }
find /a/x -> Found { id: 2, exact: false, path_len: 2 }
find /qb/x -> Found { id: 1, exact: false, path_len: 1 }
";

const TABLES: [Table; 4] = [
    // coffers lie under others by whole names
    Table {
        stored: &[],
        lines: WITH_THREE,
    },
    // a quarantined coffer is there
    Table {
        stored: &QUARANTINE,
        lines: QUARANTINED,
    },
    // a committed pair counts before the word itself
    Table {
        stored: &COMMITTED_PAIRS,
        lines: COMMITTED,
    },
    // coffers of one bucket are told apart
    Table {
        stored: &FIFTH,
        lines: SAME_BUCKET,
    },
];

#[test]
fn a_new_image_has_the_root_coffer_alone(rt: HostRuntime) -> Result<(), Fail> {
    let table = Table {
        stored: &[],
        lines: NEW_IMAGE,
    };
    assert_eq!(rt; wrong_entries_in(rt.alloc(), &[], &[table])?.as_str(), "");
    Ok(())
}

#[test]
fn coffers_are_found_by_number_and_by_path(rt: HostRuntime) -> Result<(), Fail> {
    assert_eq!(rt; wrong_entries_in(rt.alloc(), &THREE, &TABLES)?.as_str(), "");
    Ok(())
}
