// Finding, mapping and unmapping.
use super::super::three::THREE;
use super::NOW;
use kern_stand::{Table, wrong_calls_in};
use std::test::Fail;

const FIND: &str = "\
1 find / -> Found { first: FoundAt { id: 1, exact: true, path_len: 1, perm: Perm { uid: 0, gid: 0, mode: 438 } }, second: None }
1 find /a/b/c /abc -> Found { first: FoundAt { id: 3, exact: false, path_len: 4, perm: Perm { uid: 0, gid: 0, mode: 420 } }, second: Some(FoundAt { id: 1, exact: false, path_len: 1, perm: Perm { uid: 0, gid: 0, mode: 438 } }) }
1 find /1/2/3/4/5/6/7/8/9/10/11/12/13/14/15/16/17/18/19/20/21/22/23/24/25/26/27/28/29/30/31/32 -> Found { first: FoundAt { id: 1, exact: false, path_len: 1, perm: Perm { uid: 0, gid: 0, mode: 438 } }, second: None }
1 find /1/2/3/4/5/6/7/8/9/10/11/12/13/14/15/16/17/18/19/20/21/22/23/24/25/26/27/28/29/30/31/32/33 -> BadPath
1 find / /1/2/3/4/5/6/7/8/9/10/11/12/13/14/15/16/17/18/19/20/21/22/23/24/25/26/27/28/29/30/31/32/33 -> BadPath
";

// The coffer of a bad path is denied, one that is denied is quarantined, and that is in use.
const MAP_REFUSED: &str = "\
1 map /ab/2/3/4/5/6/7/8/9/10/11/12/13/14/15/16/17/18/19/20/21/22/23/24/25/26/27/28/29/30/31/32/33 read shared -> BadPath
1 map /a/b write shared -> Denied { right: Right(2), id: 3, path_len: 4 }
1 map / own shared -> Denied { right: Right(4), id: 1, path_len: 1 }
3 map /ab own alone
256 recover 4 quarantined
1 map /ab/x read shared -> Denied { right: Right(1), id: 4, path_len: 3 }
0 map /ab/x read shared -> Quarantined { id: 4, path_len: 3 }
7 map /a/b own alone
3 map /a/b read shared -> InUse { thread: 7, id: 3, path_len: 4 }
7 map /a read shared
4 map /a read shared
0 map /a write alone -> InUse { thread: 4, id: 2, path_len: 2 }
";

// Threads 0 and 4 are of one process, which has one key for a coffer.
const MAP: &str = "\
1 map / write shared -> Mapped(Mapped { id: 1, key: 1, control: 38, root: 39, pages: 2, path_len: 1, perm: Perm { uid: 0, gid: 0, mode: 438 } })
0 map /ab/c own shared -> Mapped(Mapped { id: 4, key: 1, control: 44, root: 45, pages: 2, path_len: 3, perm: Perm { uid: 0, gid: 0, mode: 384 } })
4 map /a/b read shared -> Mapped(Mapped { id: 3, key: 2, control: 42, root: 43, pages: 2, path_len: 4, perm: Perm { uid: 0, gid: 0, mode: 420 } })
4 map /ab read shared -> Mapped(Mapped { id: 4, key: 1, control: 44, root: 45, pages: 2, path_len: 3, perm: Perm { uid: 0, gid: 0, mode: 384 } })
4 load 45 -> Loaded
2 load 45 -> NotMapped
";

const UNMAP: &str = "\
0 unmap 1 -> NotHeld
0 map / read shared
4 unmap 1 -> NotHeld
0 unmap 2 -> NotHeld
0 load 38 -> Loaded
0 unmap 1 -> Done
0 load 38 -> NotMapped
0 unmap 1 -> NotHeld
";

const TABLES: [Table; 4] = [
    // find refuses a path of 33 names
    Table {
        stored: &[],
        lines: FIND,
    },
    // map refuses in the order of its row
    Table {
        stored: &[],
        lines: MAP_REFUSED,
    },
    // map answers what is mapped
    Table {
        stored: &[],
        lines: MAP,
    },
    // unmap ends the threads own map
    Table {
        stored: &[],
        lines: UNMAP,
    },
];

#[test]
fn finds_and_maps_follow_their_rows(rt: HostRuntime) -> Result<(), Fail> {
    assert_eq!(rt;
        wrong_calls_in(rt.alloc(), &THREE, NOW, &TABLES)?.as_str(),
        ""
    );
    Ok(())
}
