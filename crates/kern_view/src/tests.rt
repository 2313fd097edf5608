// Damaged images of 64 pages, each place worked out from the layout: the journal's pages are 1 to 3, the
// owner table is page 4, the coffer table begins in page 5, and the path buckets are in page 37.
ghost use Rattle.std.specs.Prelude.{◌≡◌, length};

use crate::{first_fault, is_path_text};
use kern_journal::new_image;
use pm_words::{NoMemory, Words};
use std::alloc::Global;
use std::test::Fail;

/// Bytes of 64 pages.
const BYTES: u64 = 262_144;

/// A second coffer `/a`, of pages 40 and 41, in bucket 45.
const SECOND: [(u64, u64); 9] = [
    (16704, 2),
    (16712, 2),
    (20992, 1),
    (21016, 0o666),
    (21024, 40),
    (21032, 41),
    (21048, 2),
    (21064, 0x612f),
    (151912, 2),
];

fn put(words: &mut Words, pairs: &[(u64, u64)]) -> Result<(), NoMemory>
    requires { length words.old ≡ 32768 }
    ensures { length words.new ≡ length words.old }
{
    for &(addr, word) in pairs {
        if addr % 8 == 0 && addr < BYTES {
            words.store(addr, word)?;
        }
    }
    Ok(())
}

// The first fault of a new image with these words changed.
fn fault_with(alloc: Global, damage: &[(u64, u64)]) -> Result<Option<u64>, NoMemory> {
    let mut words = new_image(alloc, 64)?;
    put(&mut words, damage)?;
    first_fault(alloc, &words)
}

// The first fault of a new image with a second coffer, and with these words changed.
fn fault_of_two(alloc: Global, damage: &[(u64, u64)]) -> Result<Option<u64>, NoMemory> {
    let mut words = new_image(alloc, 64)?;
    put(&mut words, &SECOND)?;
    put(&mut words, damage)?;
    first_fault(alloc, &words)
}

#[test]
fn an_image_of_zeros_fails_at_its_first_word(rt: HostRuntime) -> Result<(), Fail> {
    let words = Words::blank(rt.alloc(), 64)?;
    assert_eq!(rt; first_fault(rt.alloc(), &words)?, Some(0));
    Ok(())
}

#[test]
fn sound_images_have_no_fault(rt: HostRuntime) -> Result<(), Fail> {
    assert_eq!(rt; fault_with(rt.alloc(), &[])?, None);
    assert_eq!(rt; fault_of_two(rt.alloc(), &[])?, None);
    Ok(())
}

#[test]
fn words_that_tell_nothing_break_no_rule(rt: HostRuntime) -> Result<(), Fail> {
    // An unnamed word of the superblock, the owner table past the image's last page, the path bytes
    // past the path, an entry that is no coffer's, the bucket page past the buckets.
    for (addr, word) in [(24, 7), (16896, 257), (20560, 7), (21500, 7), (153600, 9)] {
        assert_eq!(rt; fault_with(rt.alloc(), &[(addr, word)])?, None, "at {addr}");
    }
    Ok(())
}

#[test]
fn faults_of_the_superblock_and_of_the_journals_count(rt: HostRuntime) -> Result<(), Fail> {
    for (addr, word) in [(0, 0), (8, 2), (16, 65), (4096, 765), (4096, 764)] {
        assert_eq!(rt;
            fault_with(rt.alloc(), &[(addr, word)])?,
            Some(addr),
            "{word} at {addr}"
        );
    }
    Ok(())
}

#[test]
fn committed_pairs_are_for_words_outside_the_journal(rt: HostRuntime) -> Result<(), Fail> {
    // Past the image, within a word, the journal's first and last word, the superblock's words.
    for addr in [BYTES, 163_841, 4096, 16376, 0, 8, 16] {
        let fault = fault_with(rt.alloc(), &[(4096, 1), (4160, addr)])?;
        assert_eq!(rt; fault, Some(4096), "for {addr}");
    }
    assert_eq!(rt; fault_with(rt.alloc(), &[(4096, 1), (4160, 24)])?, None);
    assert_eq!(rt;
        fault_with(rt.alloc(), &[(4096, 1), (4160, 262_136)])?,
        None
    );
    Ok(())
}

#[test]
fn faults_of_the_owner_table(rt: HostRuntime) -> Result<(), Fail> {
    // Of page 40, which is nobody's, and of page 37, which is the kernel's.
    for (addr, word) in [
        (16704, 257),
        (16704, 2),
        (16704, 65535),
        (16680, 0),
        (16680, 1),
    ] {
        assert_eq!(rt;
            fault_with(rt.alloc(), &[(addr, word)])?,
            Some(addr),
            "{word} at {addr}"
        );
    }
    // With the root coffer's entry gone its pages are a missing coffer's.
    assert_eq!(rt; fault_with(rt.alloc(), &[(20480, 3)])?, Some(16688));
    Ok(())
}

#[test]
fn faults_of_an_entry(rt: HostRuntime) -> Result<(), Fail> {
    // Its uid, gid and mode, the control page of another and none, the control page for a root page,
    // the length of its path, its kind, a path without `/`, and with an empty name.
    for (addr, word) in [
        (21000, 0x1_0000_0000),
        (21008, 0x1_0000_0000),
        (21016, 0o777),
        (21016, 0o1666),
        (21024, 38),
        (21024, 64),
        (21032, 40),
        (21048, 441),
        (21048, 0),
        (21056, 1),
        (21064, 0x6161),
        (21064, 0x2f2f),
    ] {
        assert_eq!(rt;
            fault_of_two(rt.alloc(), &[(addr, word)])?,
            Some(20992),
            "{word} at {addr}"
        );
    }
    Ok(())
}

#[test]
fn faults_of_two_entries(rt: HostRuntime) -> Result<(), Fail> {
    let alloc = rt.alloc();
    // A third entry with a state that is none; the path `/` twice; the root coffer elsewhere.
    assert_eq!(rt; fault_of_two(alloc, &[(21504, 3)])?, Some(21504));
    assert_eq!(rt;
        fault_of_two(alloc, &[(21048, 1), (21064, 0x2f)])?,
        Some(20480)
    );
    assert_eq!(rt;
        fault_of_two(alloc, &[(20536, 2), (20552, 0x622f)])?,
        Some(20480)
    );
    // No root coffer, and its pages nobody's.
    assert_eq!(rt;
        fault_of_two(alloc, &[(20480, 0), (16688, 0), (16696, 0)])?,
        Some(20480)
    );
    Ok(())
}

#[test]
fn faults_of_a_chain(rt: HostRuntime) -> Result<(), Fail> {
    // Out of the table, twice round, one that lacks, one of another bucket first and last.
    for (addr, word, place) in [
        (153584, 257, 153584),
        (20528, 1, 153584),
        (153584, 0, 153584),
        (151552, 1, 151552),
        (20528, 2, 153584),
        (20528, 3, 153584),
    ] {
        let fault = fault_of_two(rt.alloc(), &[(addr, word)])?;
        assert_eq!(rt; fault, Some(place), "{word} at {addr}");
    }
    Ok(())
}

#[test]
fn of_two_faults_the_earlier_stage_or_the_lesser_place_counts(rt: HostRuntime) -> Result<(), Fail> {
    let alloc = rt.alloc();
    assert_eq!(rt; fault_with(alloc, &[(16704, 257), (16, 65)])?, Some(16));
    assert_eq!(rt;
        fault_with(alloc, &[(16704, 257), (4096, 765)])?,
        Some(4096)
    );
    assert_eq!(rt;
        fault_with(alloc, &[(153584, 0), (16704, 257)])?,
        Some(16704)
    );
    assert_eq!(rt;
        fault_of_two(alloc, &[(153584, 0), (21056, 1)])?,
        Some(20992)
    );
    Ok(())
}

#[test]
fn tables_are_read_with_the_committed_pairs(rt: HostRuntime) -> Result<(), Fail> {
    let alloc = rt.alloc();
    // Page 40 becomes a missing coffer's, by the later of two pairs; then it is mended by it.
    let breaks = [
        (4096, 2),
        (4160, 16704),
        (4168, 0),
        (4176, 16704),
        (4184, 257),
    ];
    assert_eq!(rt; fault_with(alloc, &breaks)?, Some(16704));
    let mends = [
        (16704, 3),
        (4096, 2),
        (4160, 16704),
        (4168, 257),
        (4176, 16704),
        (4184, 0),
    ];
    assert_eq!(rt; fault_with(alloc, &mends)?, None);
    Ok(())
}

#[test]
fn paths_are_a_slash_or_names_behind_slashes(rt: HostRuntime) {
    for path in [b"/".as_slice(), b"/a", b"/a/b", b"/...", b"/!~", b"/.a"] {
        assert!(rt; is_path_text(path));
    }
    for path in [
        b"".as_slice(),
        b"a",
        b"//",
        b"/a/",
        b"/a//b",
        b"a/b",
        b"/.",
        b"/a/..",
        b"/ ",
        b"/\x7f",
    ] {
        assert!(rt; !is_path_text(path));
    }
}
