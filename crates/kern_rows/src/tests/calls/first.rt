// The first calls on a new image, at tick 0.
use kern_stand::{Table, wrong_calls_in};
use std::test::Fail;

const ENLARGE_THE_ROOT: &str = "\
0 map / write shared -> Mapped(Mapped { id: 1, key: 1, control: 38, root: 39, pages: 2, path_len: 1, perm: Perm { uid: 0, gid: 0, mode: 438 } })
0 enlarge 1 2 -> Pages([40, 41]), 1169 steps 16704=1 16712=1
";

const ANOTHERS_COFFER: &str = "\
1 map / write shared -> Mapped(Mapped { id: 1, key: 1, control: 38, root: 39, pages: 2, path_len: 1, perm: Perm { uid: 0, gid: 0, mode: 438 } })
1 new 1 /a file 600 162912:0:0 155648:0 -> Made(2), 1398 steps 16704=2 16712=2 20992=1 21000=5 21008=5 21016=384 21024=40 21032=41 21048=2 21064=24879 151912=2 167936=1
1 new 1 /a file 600 162912:0:0 155648:0 -> Taken
2 delete 2 1 162912:0:0 155648:0 -> Denied { right: Right(4), id: 0, path_len: 0 }
";

const TABLES: [Table; 2] = [
    // the least free pages are given
    Table {
        stored: &[],
        lines: ENLARGE_THE_ROOT,
    },
    // a coffer is made once and deleted by its owner alone
    Table {
        stored: &[],
        lines: ANOTHERS_COFFER,
    },
];

#[test]
fn the_first_calls_follow_their_rows(rt: HostRuntime) -> Result<(), Fail> {
    assert_eq!(rt; wrong_calls_in(rt.alloc(), &[], 0, &TABLES)?.as_str(), "");
    Ok(())
}
