// Calls that change the pages or the entry of a coffer.
use super::super::three::THREE;
use super::NOW;
use kern_stand::{Table, wrong_calls_in};
use std::test::Fail;

// Each line but the last two has what refuses the next one as well.
const ENLARGE_REFUSED: &str = "\
0 enlarge 1 0 -> NotHeld
0 map / read shared
0 enlarge 1 0 -> NotHeld
0 map / write shared
0 enlarge 1 0 -> BadCount
0 enlarge 1 1025 -> BadCount
0 enlarge 1 1024 -> NoPages { asked: 1024, free: 18 }
0 enlarge 1 19 -> NoPages { asked: 19, free: 18 }
";

// A word of page 46.
const USED_PAGE: [(u64, u64); 1] = [(188424, 99)];

const ENLARGE: &str = "\
0 map / write shared
1 map / read shared
1 load 46 -> NotMapped
0 enlarge 1 2 -> Pages([46, 47]), 1169 steps 16752=1 16760=1 188424=0
0 load 47 -> Loaded
1 load 46 -> Loaded
2 load 46 -> NotMapped
0 enlarge 1 16 -> Pages([48, 49, 50, 51, 52, 53, 54, 55, 56, 57, 58, 59, 60, 61, 62, 63]), 9279 steps 16768=1 16776=1 16784=1 16792=1 16800=1 16808=1 16816=1 16824=1 16832=1 16840=1 16848=1 16856=1 16864=1 16872=1 16880=1 16888=1
";

// Each line but the last has what refuses the next one as well.
const SHRINK_REFUSED: &str = "\
0 shrink 2 40 163840:1 -> NotHeld
0 map /a write shared
0 enlarge 2 3
0 shrink 2 40 155648:1 -> NotYours(38)
0 shrink 2 41 163841:1 -> NotYours(40)
0 shrink 2 40 163840:1 -> NotYours(40)
0 shrink 2 46,41 163840:1 -> NotYours(41)
0 shrink 2 46,47,46 163840:1 -> NotYours(46)
0 shrink 2 46,42 163840:1 -> NotYours(42)
0 shrink 2 46,63 163840:1 -> NotYours(63)
0 shrink 2 46,64 163840:1 -> NotYours(64)
0 shrink 2 46 163840:1 -> GuardFailed { addr: 163840, word: 0 }
";

const SHRINK: &str = "\
0 map /a write shared
3 map /a read shared
0 enlarge 2 3
3 load 46 -> Loaded
0 shrink 2 48,46 163840:0 -> Done, 17 steps 16752=0 16768=0
0 load 48 -> NotMapped
3 load 46 -> NotMapped
3 load 47 -> Loaded
";

// Each refusal but the last two has the next one's cause as well.
const MODE: &str = "\
1 mode 9 640 -> NoCoffer
1 mode 4 640 -> Denied { right: Right(4), id: 0, path_len: 0 }
0 mode 4 640 -> NotHeld
0 map /ab own shared
0 mode 4 640 -> NotHeld
0 map /ab write alone
0 mode 4 640 -> NotHeld
0 map /ab own alone
0 mode 4 640 -> Done, 19 steps 22040=416
0 find /ab -> Found { first: FoundAt { id: 4, exact: true, path_len: 3, perm: Perm { uid: 0, gid: 0, mode: 416 } }, second: None }
";

const RECOVER: &str = "\
0 recover 9 ready -> NotHeld
0 recover 2 quarantined -> NotHeld
256 recover 9 ready -> NoCoffer
256 recover 257 ready -> NoCoffer
256 recover 2 quarantined -> Done, 13 steps 20992=2
0 map /a read shared -> Quarantined { id: 2, path_len: 2 }
256 recover 2 ready -> Done, 13 steps 20992=1
0 map /a read shared -> Mapped(Mapped { id: 2, key: 1, control: 40, root: 41, pages: 2, path_len: 2, perm: Perm { uid: 0, gid: 0, mode: 438 } })
";

const TABLES: [Table; 6] = [
    // enlarge refuses in the order of its row
    Table {
        stored: &[],
        lines: ENLARGE_REFUSED,
    },
    // enlarge gives all holders zeroed pages
    Table {
        stored: &USED_PAGE,
        lines: ENLARGE,
    },
    // shrink refuses in the order of its row
    Table {
        stored: &[],
        lines: SHRINK_REFUSED,
    },
    // shrink takes pages from all holders
    Table {
        stored: &[],
        lines: SHRINK,
    },
    // mode is for the sole holder with the right own
    Table {
        stored: &[],
        lines: MODE,
    },
    // recover sets a state for the recovery alone
    Table {
        stored: &[],
        lines: RECOVER,
    },
];

#[test]
fn calls_on_one_coffer_follow_their_rows(rt: HostRuntime) -> Result<(), Fail> {
    assert_eq!(rt;
        wrong_calls_in(rt.alloc(), &THREE, NOW, &TABLES)?.as_str(),
        ""
    );
    Ok(())
}
