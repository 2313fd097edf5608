// New coffers. A path as `/x` is in bucket 178, `/a/d` in 102 and `/a/f` in 0.
use super::super::three::THREE;
use super::{LEASES, NOW};
use kern_stand::{Table, wrong_calls_in};
use std::test::Fail;

// Each line but the last two has what refuses the next one as well.
const NEW_REFUSED: &str = "\
0 new 1 / file 600 159744:0:2 155648:0 -> NotHeld
0 map / read shared
0 new 1 / file 600 159744:0:2 155648:0 -> NotHeld
0 map / write shared
0 new 1 / file 600 163840:0:2 155648:0 -> BadPath
0 new 1 /a/x file 600 159744:0:2 155648:0 -> BadPath
0 new 1 /x file 600 163840:0:2 167936:1 -> NotYours(40)
0 new 1 /x file 600 159744:0:2 167936:1 -> NotYours(41)
0 new 1 /x file 600 159748:0:2 155648:1 -> NotYours(39)
0 new 1 /x file 600 262144:0:2 155648:1 -> NotYours(64)
0 new 1 /x file 600 159744:1:2 155648:1 -> GuardFailed { addr: 155648, word: 0 }
0 new 1 /x file 600 159744:1:2 155656:25769803777 -> GuardFailed { addr: 155656, word: 25769803777 }
0 new 1 /a file 600 159744:1:2 155648:0 -> LinkDiffers { addr: 159744, word: 0 }
0 enlarge 1 17
0 new 1 /a file 600 159744:0:2 155648:0 -> Taken
0 new 1 /x file 600 159744:0:2 155648:0 -> NoPages { asked: 2, free: 1 }
";

// The lease of this tick still holds.
const NEW: &str = "\
0 map / write shared
0 new 1 /x dir 600 159744:0:2 155664:30064771073 -> Made(5), 1398 steps 16752=5 16760=5 22528=1 22552=384 22560=46 22568=47 22584=2 22600=30767 152976=5 159744=2
0 load 46 -> NotMapped
0 map /x write shared -> Mapped(Mapped { id: 5, key: 2, control: 46, root: 47, pages: 2, path_len: 2, perm: Perm { uid: 0, gid: 0, mode: 384 } })
";

// Each line but the last has what refuses the next one as well.
const SPLIT_REFUSED: &str = "\
1 split 2 / 46 600 169984:0:1 163840:0 -> NotHeld
0 split 2 /a/d 46 600 169984:0:1 163840:0 -> NotHeld
1 map /a write shared
0 map /a write shared
0 enlarge 2 2
1 split 2 / 46 600 169984:0:1 163840:0 -> Denied { right: Right(4), id: 0, path_len: 0 }
1 split 2 /a/d 46 666 169984:0:1 163840:0 -> Denied { right: Right(4), id: 0, path_len: 0 }
0 split 2 / 40 600 155648:0:1 163840:0 -> BadPath
0 split 2 /x 46 600 169984:0:1 163840:0 -> BadPath
0 split 2 /a/d 40 600 155648:0:1 159744:1 -> NotYours(38)
0 split 2 /a/d 40 600 169984:0:1 159744:1 -> NotYours(39)
0 split 2 /a/d 40 600 169984:0:1 163840:1 -> NotYours(40)
0 split 2 /a/d 46,41 600 169984:0:1 163840:1 -> NotYours(41)
0 split 2 /a/d 46,46 600 169984:0:1 163840:1 -> NotYours(46)
0 split 2 /a/d 46,48 600 169984:0:1 163840:1 -> NotYours(48)
0 split 2 /a/d 46 600 169984:1:1 163840:1 -> GuardFailed { addr: 163840, word: 0 }
0 split 2 /a/b 46 600 169984:1:1 163840:0 -> LinkDiffers { addr: 169984, word: 0 }
0 enlarge 2 16
0 split 2 /a/b 46 600 169984:0:1 163840:0 -> Taken
0 split 2 /a/d 46 600 169984:0:1 163840:0 -> NoPages { asked: 1, free: 0 }
";

// Coffer 2 is uid 5's and gid 6's. Pages 46, 47 and 48 are its own too: 46 a directory's page with some words,
// 47 a file's.
const OWN_PAGES: [(u64, u64); 11] = [
    (21000, 5),
    (21008, 6),
    (16752, 2),
    (16760, 2),
    (16768, 2),
    (188424, 7),
    (188432, 8),
    (188440, 9),
    (188448, 10),
    (192512, 1),
    (192520, 7),
];

// With the mode that the coffer has nothing is done, whatever else is wrong.
const SPLIT: &str = "\
0 map /a write shared
3 map /a read shared
0 split 2 / 40 666 169984:9:1 163840:9 -> Same
0 load 46 -> Loaded
3 load 48 -> Loaded
0 split 2 /a/d 46,48 640 169984:0:1 163840:0 -> Made(5), 832 steps 16752=5 16768=5 16776=5 22528=1 22536=5 22544=6 22552=416 22560=49 22568=46 22584=4 22600=1680826671 152368=5 169984=1 188424=0 188432=0 188440=0
0 load 46 -> NotMapped
3 load 48 -> NotMapped
0 load 47 -> Loaded
0 split 2 /a/f 47 640 169992:0:1 163840:0 -> Made(6), 818 steps 16760=6 16784=6 23040=1 23048=5 23056=6 23064=416 23072=50 23080=47 23096=4 23112=1714381103 151552=6 169992=1
0 load 47 -> NotMapped
0 load 41 -> Loaded
";

const TABLES: [Table; 4] = [
    // new refuses in the order of its row
    Table {
        stored: &LEASES,
        lines: NEW_REFUSED,
    },
    // new stores an entry and a link
    Table {
        stored: &LEASES,
        lines: NEW,
    },
    // split refuses in the order of its row
    Table {
        stored: &[],
        lines: SPLIT_REFUSED,
    },
    // split takes pages from all holders
    Table {
        stored: &OWN_PAGES,
        lines: SPLIT,
    },
];

#[test]
fn new_coffers_and_splits_follow_their_rows(rt: HostRuntime) -> Result<(), Fail> {
    assert_eq!(rt;
        wrong_calls_in(rt.alloc(), &THREE, NOW, &TABLES)?.as_str(),
        ""
    );
    Ok(())
}
