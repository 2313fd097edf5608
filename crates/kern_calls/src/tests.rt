// Mounting images of 64 pages. The owner table begins at address 16384, pair 0 of the journal at 4160.
ghost use Rattle.std.specs.Prelude.{◌≡◌, length, OnOk};

use crate::{Kernel, MountFault};
use kern_journal::{committed_count, new_image};
use pm_words::{NoMemory, Words};
use std::alloc::Global;
use std::test::Fail;

/// Bytes of 64 pages.
const BYTES: u64 = 262_144;

fn put(words: &mut Words, pairs: &[(u64, u64)]) -> Result<(), NoMemory>
    requires { length words.old ≡ 32768 }
    ensures { length words.new ≡ length words.old }
{
    for &(addr, word) in pairs {
        if addr % 8 == 0 && addr < BYTES {
            words.store(addr, word)?;
        }
    }
    Ok(())
}

// The fault of mounting these words; none where the kernel takes them.
fn fault(alloc: Global, words: &mut Words) -> Option<MountFault>
    ensures { length words.new ≡ length words.old }
{
    Kernel::mount(alloc, words).err()
}

#[test]
fn an_image_of_zeros_is_damaged_at_its_first_word(rt: HostRuntime) -> Result<(), Fail> {
    let mut words = Words::blank(rt.alloc(), 64)?;
    assert_eq!(rt;
        fault(rt.alloc(), &mut words),
        Some(MountFault::BadKernel(0))
    );
    Ok(())
}

#[test]
fn a_new_image_is_mounted(rt: HostRuntime) -> Result<(), Fail> {
    let mut words = new_image(rt.alloc(), 64)?;
    assert_eq!(rt; fault(rt.alloc(), &mut words), None);
    Ok(())
}

#[test]
fn committed_pairs_are_finished(rt: HostRuntime) -> Result<(), Fail> {
    let mut words = new_image(rt.alloc(), 64)?;
    put(
        &mut words,
        &[
            (4096, 2),
            (4160, 163840),
            (4168, 7),
            (4176, 163848),
            (4184, 8),
        ],
    )?;
    assert_eq!(rt; fault(rt.alloc(), &mut words), None);
    assert_eq!(rt; committed_count(&words), 0);
    assert_eq!(rt; (words.load(163840), words.load(163848)), (7, 8));
    Ok(())
}

#[test]
fn a_committed_pair_that_breaks_a_rule_isnt_finished(rt: HostRuntime) -> Result<(), Fail> {
    // It gives page 40 to a coffer that isn't there.
    let mut words = new_image(rt.alloc(), 64)?;
    put(&mut words, &[(4096, 1), (4160, 16704), (4168, 2)])?;
    assert_eq!(rt;
        fault(rt.alloc(), &mut words),
        Some(MountFault::BadKernel(16704))
    );
    assert_eq!(rt; (committed_count(&words), words.load(16704)), (1, 0));
    Ok(())
}

#[test]
fn a_committed_pair_mends_what_breaks_a_rule(rt: HostRuntime) -> Result<(), Fail> {
    let mut words = new_image(rt.alloc(), 64)?;
    put(
        &mut words,
        &[(16704, 2), (4096, 1), (4160, 16704), (4168, 0)],
    )?;
    assert_eq!(rt; fault(rt.alloc(), &mut words), None);
    assert_eq!(rt; (committed_count(&words), words.load(16704)), (0, 0));
    Ok(())
}
