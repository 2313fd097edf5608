// An image with 256 coffers and no free page. It has 554 pages, of which 41 are the kernel's: its root coffer
// has the pages 41 and 42, and 43 too, and each of the others, `/1` to `/255`, two of the pages behind.
ghost use Rattle.std.specs.Prelude.{IfOk, OnOk};
ghost use Rattle.kern_calls.specs.Calls.{IsMounted};

use super::NOW;
use kern_journal::new_image;
use kern_stand::{RowFault, Stand};
use std::alloc::Global;
use std::test::Fail;

const PAGES: u32 = 554;

const FULL: &str = "\
0 new 1 /1 dir 600 174080:0:0 167936:0 -> Taken
0 new 1 /x dir 600 174080:0:0 167936:0 -> TooMany
0 split 1 /1 43 600 174080:0:0 167936:0 -> Taken
0 split 1 /x 43 600 174080:0:0 167936:0 -> TooMany
0 enlarge 1 1 -> NoPages { asked: 1, free: 0 }
";

// A process with a map under each of its 15 keys, held by its threads 0 and 4.
const ALL_KEYS: &str = "\
0 map / read shared
0 map /1 read shared
0 map /2 read shared
0 map /3 read shared
0 map /4 read shared
0 map /5 read shared
0 map /6 read shared
4 map /7 read shared
4 map /8 read shared
4 map /9 read shared
4 map /10 read shared
4 map /11 read shared
4 map /12 read shared
4 map /13 read shared
4 map /14 read shared -> Mapped(Mapped { id: 15, key: 15, control: 70, root: 71, pages: 2, path_len: 3, perm: Perm { uid: 0, gid: 0, mode: 384 } })
3 map /16 own alone -> Mapped(Mapped { id: 17, key: 1, control: 74, root: 75, pages: 2, path_len: 3, perm: Perm { uid: 0, gid: 0, mode: 384 } })
0 map /16 read shared -> InUse { thread: 3, id: 17, path_len: 3 }
0 map /15 read shared -> NoKey { id: 16, path_len: 3 }
0 map /14 read shared -> Mapped(Mapped { id: 15, key: 15, control: 70, root: 71, pages: 2, path_len: 3, perm: Perm { uid: 0, gid: 0, mode: 384 } })
0 unmap 4 -> Done
0 map /15 read shared -> Mapped(Mapped { id: 16, key: 4, control: 72, root: 73, pages: 2, path_len: 3, perm: Perm { uid: 0, gid: 0, mode: 384 } })
";

// Over such an image. Thread 0 holds the root coffer for writing.
fn full_stand(alloc: Global) -> Result<Stand, RowFault>
    ensures { IfOk result (λ stand. IsMounted stand.kernel stand.words) }
{
    let words = new_image(alloc, PAGES)?;
    let mut stand = Stand::over(alloc, &words, NOW)?;
    fill(alloc, &mut stand)?;
    Ok(stand)
}

// Gives the root coffer its third page, and each other coffer its two.
fn fill(alloc: Global, stand: &mut Stand) -> Result<(), RowFault>
    requires { IsMounted stand.old.kernel stand.old.words }
    ensures { OnOk result (IsMounted stand.new.kernel stand.new.words) }
{
    stand.prepare("0 map / write shared")?;
    stand.prepare("0 enlarge 1 1")?;
    for name in 1..256 {
        let line = format!(in alloc; "0 new 1 /{name} dir 600 174080:0:0 167936:0")?;
        stand.prepare(&line)?;
    }
    Ok(())
}

// The lines of a table that have another outcome over such an image.
fn wrong_when_full(alloc: Global, table: &str) -> Result<String, RowFault> {
    let mut stand = full_stand(alloc)?;
    stand.wrong_lines(table)
}

#[test]
fn there_are_at_most_256_coffers(rt: HostRuntime) -> Result<(), Fail> {
    assert_eq!(rt; wrong_when_full(rt.alloc(), FULL)?.as_str(), "");
    Ok(())
}

#[test]
fn a_process_has_15_keys(rt: HostRuntime) -> Result<(), Fail> {
    assert_eq!(rt; wrong_when_full(rt.alloc(), ALL_KEYS)?.as_str(), "");
    Ok(())
}
