ghost use Rattle.std.specs.Prelude.{◌≡◌, length, IfOk};
ghost use Rattle.std.specs.Vec.{vec_len};
ghost use Rattle.pm_words.specs.Memory.{IsAddress};

use super::*;
use std::alloc::Global;
use std::test::Fail;

// Words of the smallest memory: 64 pages.
const WORDS: usize = 32_768;

fn zeros(alloc: Global, count: usize) -> Result<Vec<u64>, NoMemory>
    ensures len { IfOk result (λ v. vec_len v ≡ count) }
{
    let words = vec![in alloc; 0; count]?;
    Ok(words)
}

// 64 pages, with 7 in the word at address 24 and 0 in all others.
fn memory_with_a_seven(alloc: Global) -> Result<Words, NoMemory>
    ensures len { IfOk result (λ w. length w ≡ 32768) }
{
    let mut words = zeros(alloc, WORDS)?;
    words[3] = 7;
    Words::of_image(alloc, Image::new(words))
}

#[test]
fn hashes_are_those_of_fnv_1a(rt: HostRuntime) {
    assert_eq!(rt; fnv64(b""), 0xcbf2_9ce4_8422_2325);
    assert_eq!(rt; fnv64(b"a"), 0xaf63_dc4c_8601_ec8c);
    assert_eq!(rt; fnv64(b"foobar"), 0x8594_4171_f739_67e8);
}

#[test]
fn a_new_memory_shows_its_image(rt: HostRuntime) -> Result<(), Fail> {
    let memory = memory_with_a_seven(rt.alloc())?;
    assert_eq!(rt; memory.load(24), 7);
    assert_eq!(rt; memory.load(32), 0);
    assert_eq!(rt; memory.pages(), 64);
    Ok(())
}

#[test]
fn a_load_shows_the_last_store(rt: HostRuntime) -> Result<(), Fail> {
    let mut memory = memory_with_a_seven(rt.alloc())?;
    memory.store(24, 8)?;
    memory.store(24, 9)?;
    assert_eq!(rt; memory.load(24), 9);
    assert_eq!(rt; memory.load(16), 0);
    Ok(())
}

#[test]
fn an_image_shows_present_values(rt: HostRuntime) -> Result<(), Fail> {
    let mut memory = memory_with_a_seven(rt.alloc())?;
    memory.store(32, 5)?;
    let image = memory.image()?;
    assert_eq!(rt; image.words().len(), WORDS);
    assert_eq!(rt; image.words().get(3).copied(), Some(7));
    assert_eq!(rt; image.words().get(4).copied(), Some(5));
    Ok(())
}

// Whether these are the values that a crash may leave in the word at an address.
fn shows(memory: &Words, addr: u64, expected: &[u64]) -> Result<bool, NoMemory>
    requires { IsAddress (length memory.now) addr }
{
    Ok(memory.pending(addr)?.as_slice() == expected)
}

#[test]
fn a_store_keeps_the_durable_value(rt: HostRuntime) -> Result<(), Fail> {
    let mut memory = Words::blank(rt.alloc(), 64)?;
    memory.store(8, 7)?;
    assert!(rt; shows(&memory, 8, &[0, 7])?);
    Ok(())
}

// Makes 7 durable at address 8, and leaves 9 pending there.
fn make_seven_durable(memory: &mut Words) -> Result<(), NoMemory>
    requires { length memory.old ≡ 32768 }
    ensures len { length memory.new ≡ 32768 }
{
    memory.store(8, 7)?;
    memory.flush(0, 8)?;
    memory.store(8, 9)?;
    memory.fence(0);
    Ok(())
}

#[test]
fn a_fence_makes_the_flushed_value_durable(rt: HostRuntime) -> Result<(), Fail> {
    let mut memory = Words::blank(rt.alloc(), 64)?;
    make_seven_durable(&mut memory)?;
    assert!(rt; shows(&memory, 8, &[7, 9])?);
    assert_eq!(rt; memory.cas(8, 7, 1)?, 9);
    assert!(rt; shows(&memory, 8, &[7, 9])?);
    Ok(())
}

#[test]
fn a_crash_takes_the_durable_value(rt: HostRuntime) -> Result<(), Fail> {
    let mut memory = Words::blank(rt.alloc(), 64)?;
    make_seven_durable(&mut memory)?;
    memory.crash(Choice::None);
    assert_eq!(rt; memory.load(8), 7);
    assert_eq!(rt; memory.image()?.words().len(), WORDS);
    Ok(())
}

// Leaves 1 pending at address 8 and 2 at 64, the line of the first flushed by thread 0.
fn flush_first_line(memory: &mut Words) -> Result<(), NoMemory>
    requires { length memory.old ≡ 32768 }
    ensures len { length memory.new ≡ 32768 }
{
    memory.store(8, 1)?;
    memory.store(64, 2)?;
    memory.flush(0, 56)
}

#[test]
fn a_fence_comes_to_the_lines_of_its_thread(rt: HostRuntime) -> Result<(), Fail> {
    let mut memory = Words::blank(rt.alloc(), 64)?;
    flush_first_line(&mut memory)?;
    memory.fence(1);
    assert!(rt; shows(&memory, 8, &[0, 1])?);
    memory.fence(0);
    assert!(rt; shows(&memory, 8, &[1])?);
    assert!(rt; shows(&memory, 64, &[0, 2])?);
    Ok(())
}

// Stores 5 and 6 at address 8, and 7 at 16.
fn store_three(memory: &mut Words) -> Result<(), NoMemory>
    requires { length memory.old ≡ 32768 }
    ensures len { length memory.new ≡ 32768 }
{
    memory.store(8, 5)?;
    memory.store(8, 6)?;
    memory.store(16, 7)
}

// What a crash leaves at addresses 8 and 16, where 0, 5 and 6 may be left, and 0 and 7.
fn left_by(alloc: Global, pick: Choice) -> Result<(u64, u64), NoMemory> {
    let mut memory = Words::blank(alloc, 64)?;
    store_three(&mut memory)?;
    memory.crash(pick);
    Ok((memory.load(8), memory.load(16)))
}

// The hashes of the seeds' bytes and the addresses' were worked out apart from this crate: at 8, divided by 3, they leave
// 1, 0, 2, 1 and 1, and at 16, divided by 2, 1, 0, 1, 0 and 1.
#[test]
fn a_crash_picks_by_the_hash_of_seed_and_address(rt: HostRuntime) -> Result<(), Fail> {
    let picks = [
        (Choice::All, (6, 7)),
        (Choice::None, (0, 0)),
        (Choice::Seed(0), (5, 7)),
        (Choice::Seed(1), (0, 0)),
        (Choice::Seed(2), (6, 7)),
        (Choice::Seed(9), (5, 0)),
        (Choice::Seed(u64::MAX), (5, 7)),
    ];
    for (pick, left) in picks {
        assert_eq!(rt; left_by(rt.alloc(), pick)?, left);
    }
    Ok(())
}
