// Lists of words that are stored all or not at all.
ghost use Rattle.std.specs.Prelude.{◌≡◌, [], ◌∷◌, length, All, IfOk, OnOk};
ghost use Rattle.pm_words.specs.Memory.{IsAddress};
ghost use Rattle.kern_model.specs.Inner.{IsReadable};
ghost use Rattle.kern_model.specs.JournalLaws.{IsReady};

use crate::{
    JournalFault, apply, apply_first, capacity, committed_count, kernel_word, new_image, redo,
};
use pm_words::{Choice, NoMemory, Words};
use std::alloc::Global;
use std::test::Fail;

/// Words of two lines.
const FIRST: u64 = 163_840;

const SECOND: u64 = 163_904;

const PAIRS: [(u64, u64); 2] = [(FIRST, 7), (SECOND, 9)];

#[test]
fn words_of_the_new_image_of_64_pages(rt: HostRuntime) -> Result<(), Fail> {
    let image = small(rt.alloc())?.image()?;
    // each address with its word, the owner table left out
    for (addr, word) in [
        (0usize, 6436300633531568724u64),
        (8, 1),
        (16, 64),
        (20480, 1),
        (20504, 438),
        (20512, 38),
        (20520, 39),
        (20536, 1),
        (20552, 47),
        (153584, 1),
    ] {
        assert_eq!(rt; image.words().get(addr / 8), Some(&word), "at {addr}");
    }
    Ok(())
}

#[test]
fn owners_of_the_new_image_of_64_pages(rt: HostRuntime) -> Result<(), Fail> {
    let words = small(rt.alloc())?;
    for page in 0..38u64 {
        assert_eq!(rt; words.load(16384 + 8 * page), 65535, "of page {page}");
    }
    assert_eq!(rt; (words.load(16688), words.load(16696)), (1, 1));
    assert_eq!(rt; words.load(16704), 0);
    Ok(())
}

#[test]
fn all_other_words_of_the_new_image_are_zero(rt: HostRuntime) -> Result<(), Fail> {
    let words = small(rt.alloc())?;
    let image = words.image()?;
    assert_eq!(rt; image.words().len(), 32768);
    assert_eq!(rt; image.words().iter().filter(|&&word| word != 0).count(), 50);
    Ok(())
}

#[test]
fn a_pair_is_applied(rt: HostRuntime) -> Result<(), Fail> {
    let alloc = rt.alloc();
    let mut words = small(alloc)?;
    assert_eq!(rt; capacity(&words), 764);
    assert_eq!(rt; apply(alloc, &mut words, &PAIRS[..1]), Ok(()));
    assert_eq!(rt; (words.load(FIRST), words.pending(FIRST)?.len()), (7, 1));
    assert_eq!(rt; (committed_count(&words), words.load(SECOND)), (0, 0));
    Ok(())
}

#[test]
fn too_many_pairs(rt: HostRuntime) -> Result<(), Fail> {
    let alloc = rt.alloc();
    let mut words = small(alloc)?;
    let pairs = many(alloc, 765)?;
    assert_eq!(rt;
        apply(alloc, &mut words, &pairs),
        Err(JournalFault::TooMany)
    );
    assert_eq!(rt; (words.load(FIRST), words.load(4160)), (0, 0));
    Ok(())
}

#[test]
fn nothing_to_redo(rt: HostRuntime) -> Result<(), Fail> {
    let alloc = rt.alloc();
    let mut words = small(alloc)?;
    redo(alloc, &mut words)?;
    assert_eq!(rt; committed_count(&words), 0);
    Ok(())
}

// The first 9 events make the pairs and their number durable.
#[test]
fn committed_pairs_are_read_before_they_are_stored(rt: HostRuntime) -> Result<(), Fail> {
    let alloc = rt.alloc();
    let mut words = small(alloc)?;
    cut(alloc, &mut words, &PAIRS, 9, Choice::None)?;
    assert_eq!(rt; (committed_count(&words), words.load(FIRST)), (2, 0));
    assert_eq!(rt;
        (kernel_word(&words, FIRST), kernel_word(&words, SECOND)),
        (7, 9)
    );
    Ok(())
}

// Of 17 events the first 6 write the pairs, and none is made at 0; from the 7th on the pairs' number
// is present, and from the 9th on it is durable.
#[test]
fn a_crash_leaves_all_or_none(rt: HostRuntime) -> Result<(), Fail> {
    for k in 0..18 {
        let oldest = if k < 9 { (0, 0) } else { (7, 9) };
        assert_eq!(rt;
            left_after(rt.alloc(), k, Choice::None),
            Ok(oldest),
            "after {k}"
        );
        let present = if k < 7 { (0, 0) } else { (7, 9) };
        assert_eq!(rt;
            left_after(rt.alloc(), k, Choice::All),
            Ok(present),
            "after {k}"
        );
    }
    Ok(())
}

// So many pairs.
fn many(alloc: Global, count: usize) -> Result<Vec<(u64, u64)>, NoMemory>
    ensures { IfOk result (λ pairs. All (λ p. IsAddress 32768 p.0) pairs.items) }
{
    let mut pairs = Vec::new(alloc);
    for _ in 0..count {
        pairs.push((FIRST, 7))?;
    }
    Ok(pairs)
}

// What the two words hold after a crash in the midst of storing them, and `redo`.
fn left_after(alloc: Global, k: u32, pick: Choice) -> Result<(u64, u64), JournalFault> {
    let mut words = small(alloc).map_err(|_| JournalFault::NoMemory)?;
    cut(alloc, &mut words, &PAIRS, k, pick)?;
    redo(alloc, &mut words).map_err(|_| JournalFault::NoMemory)?;
    Ok((words.load(FIRST), words.load(SECOND)))
}

// The new image of 64 pages, whose journal is empty.
fn small(alloc: Global) -> Result<Words, NoMemory>
    ensures len { IfOk result (λ words. length words ≡ 32768) }
    ensures readable { IfOk result (λ words. IsReadable words) }
    ensures ready { IfOk result (λ words. IsReady words ((163840, 7) ∷ (163904, 9) ∷ [])) }
{
    new_image(alloc, 64)
}

// The first events of `apply`, and a crash.
fn cut(
    alloc: Global,
    words: &mut Words,
    pairs: &[(u64, u64)],
    k: u32,
    pick: Choice,
) -> Result<(), JournalFault>
    requires { IsReady words.old pairs.now }
    ensures readable { OnOk result (IsReadable words.new) }
    ensures len { length words.new ≡ length words.old }
{
    apply_first(alloc, words, pairs, k)?;
    words.crash(pick);
    Ok(())
}
