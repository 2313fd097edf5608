// Coffers that go.
use super::super::three::THREE;
use super::{LEASES, NOW};
use kern_stand::{Table, wrong_calls_in};
use std::test::Fail;

// Each line has what refuses the next one as well.
const DELETE_REFUSED: &str = "\
1 delete 9 1 159744:0:0 155648:0 -> NoCoffer
1 delete 2 1 159744:0:0 155648:0 -> Denied { right: Right(4), id: 0, path_len: 0 }
0 delete 2 1 159744:0:0 155648:0 -> NotHeld
0 map /a own alone
0 delete 2 1 163840:0:0 155648:0 -> NotHeld
0 map / read shared
0 delete 2 1 163840:0:0 155648:0 -> NotHeld
0 map / write shared
0 delete 2 1 163840:0:0 155648:0 -> NotEmptyList
0 map /a write shared
0 delete 2 1 163840:0:0 155648:0 -> NotHeld
0 map /ab own shared
0 delete 4 1 163840:0:0 155648:1 -> NotHeld
0 map /ab write alone
0 delete 4 1 163840:0:0 155648:1 -> NotHeld
0 map /ab own alone
0 delete 4 2 163840:0:0 163840:0 -> NotHeld
0 delete 4 1 163840:0:0 155648:1 -> NotYours(40)
0 delete 4 1 159744:1:0 155648:1 -> GuardFailed { addr: 155648, word: 0 }
0 delete 4 1 159744:1:0 155656:25769803777 -> GuardFailed { addr: 155656, word: 25769803777 }
0 delete 4 1 159744:1:0 155648:0 -> LinkDiffers { addr: 159744, word: 0 }
";

const DELETE: &str = "\
0 map / write shared
0 map /ab own alone
0 load 44 -> Loaded
0 delete 4 1 159744:0:9 155664:30064771073 -> Done, 240 steps 16736=0 16744=0 22016=0 22040=0 22048=0 22056=0 22072=0 22088=0 152040=0 159744=9
0 load 44 -> NotMapped
0 unmap 4 -> NotHeld
0 find /ab/x -> Found { first: FoundAt { id: 1, exact: false, path_len: 1, perm: Perm { uid: 0, gid: 0, mode: 438 } }, second: None }
";

// Each line has what refuses the next one as well.
const MERGE_REFUSED: &str = "\
1 merge 9 2 42 161792:0:0 155648:1 -> NoCoffer
1 merge 3 2 42 161792:0:0 155648:1 -> Denied { right: Right(4), id: 0, path_len: 0 }
0 merge 2 1 40 163840:0:0 155648:0 -> NotHeld
0 map / write shared
0 map /a own alone
0 merge 2 1 40 163840:0:0 155648:0 -> NotEmptyList
0 map /a write shared
0 map /a/b own shared
0 merge 3 2 42 161792:0:0 155648:1 -> NotHeld
0 map /a/b own alone
0 merge 3 1 43 161792:0:0 155648:0 -> NotHeld
0 merge 3 2 42 161792:0:0 155648:1 -> NotYours(39)
0 merge 3 2 42 169984:0:0 155648:1 -> NotYours(38)
0 merge 3 2 42 169984:0:0 163840:1 -> NotYours(42)
0 merge 3 2 43,41 169984:0:0 163840:1 -> NotYours(41)
0 merge 3 2 43,43 169984:0:0 163840:1 -> NotYours(43)
0 merge 3 2 43 169984:1:0 163840:1 -> GuardFailed { addr: 163840, word: 0 }
0 merge 3 2 43 169984:1:0 163840:0 -> LinkDiffers { addr: 169984, word: 0 }
";

// Page 46 is coffer 3's too.
const THIRD_PAGE: [(u64, u64); 1] = [(16752, 3)];

const MERGE: &str = "\
0 map /a write shared
3 map /a read shared
0 map /a/b own alone
0 merge 3 2 43 169984:0:4 163840:0 -> Done, 244 steps 16720=0 16728=2 16752=0 21504=0 21528=0 21536=0 21544=0 21560=0 21576=0 153184=0 169984=4
0 load 42 -> NotMapped
0 load 46 -> NotMapped
0 load 43 -> Loaded
3 load 43 -> Loaded
0 unmap 3 -> NotHeld
";

const TABLES: [Table; 4] = [
    // delete refuses in the order of its row
    Table {
        stored: &LEASES,
        lines: DELETE_REFUSED,
    },
    // delete frees the pages and ends the map
    Table {
        stored: &LEASES,
        lines: DELETE,
    },
    // merge refuses in the order of its row
    Table {
        stored: &[],
        lines: MERGE_REFUSED,
    },
    // merge passes the listed pages alone
    Table {
        stored: &THIRD_PAGE,
        lines: MERGE,
    },
];

#[test]
fn deletes_and_merges_follow_their_rows(rt: HostRuntime) -> Result<(), Fail> {
    assert_eq!(rt;
        wrong_calls_in(rt.alloc(), &THREE, NOW, &TABLES)?.as_str(),
        ""
    );
    Ok(())
}
