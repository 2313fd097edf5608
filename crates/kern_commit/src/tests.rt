// Pages that come zeroed, and pairs that go through the journal.
ghost use Rattle.std.specs.Prelude.{◌≡◌, length, IfOk};
ghost use Rattle.zo_layout.specs.Layout.{committed_word};
ghost use Rattle.kern_model.specs.JournalLaws.{IsDurable};

use crate::{commit, count_events};
use kern_journal::new_image;
use pm_words::{NoMemory, Words};
use std::alloc::Global;
use std::test::Fail;

/// The first page of the new image that isn't owned.
const PAGE: u32 = 40;

/// The first word and the last word of that page.
const FIRST: u64 = 163_840;

const LAST: u64 = 167_928;

/// A word of another page.
const OTHER: u64 = 172_032;

#[test]
fn of_two_pairs_for_one_word_the_later_one_stands(rt: HostRuntime) -> Result<(), Fail> {
    let alloc = rt.alloc();
    let mut words = small(alloc)?;
    commit(
        alloc,
        &mut words,
        &[],
        &[(OTHER, 7), (FIRST, 8), (OTHER, 9)],
    )?;
    assert_eq!(rt; (words.load(OTHER), words.pending(OTHER)?.len()), (9, 1));
    assert_eq!(rt; words.load(FIRST), 8);
    Ok(())
}

#[test]
fn a_given_page_comes_zeroed(rt: HostRuntime) -> Result<(), Fail> {
    let alloc = rt.alloc();
    let mut words = used_page(alloc)?;
    commit(alloc, &mut words, &[PAGE], &[(OTHER, 7), (OTHER, 9)])?;
    assert_eq!(rt;
        (words.load(FIRST), words.load(LAST), words.load(OTHER)),
        (0, 0, 9)
    );
    assert_eq!(rt;
        (words.pending(FIRST)?.len(), words.pending(LAST)?.len()),
        (1, 1)
    );
    Ok(())
}

// A page: 512 stores, 64 flushes and a fence. A pair: its two words in the journal, which are in one
// line, the number, the word itself and the number again.
#[test]
fn steps_of_a_page_and_a_pair(rt: HostRuntime) -> Result<(), Fail> {
    let alloc = rt.alloc();
    let words = small(alloc)?;
    assert_eq!(rt; count_events(alloc, &words, &[PAGE], &[]), Ok(577));
    assert_eq!(rt; count_events(alloc, &words, &[], &[(OTHER, 7)]), Ok(13));
    assert_eq!(rt;
        count_events(alloc, &words, &[PAGE, 41], &[(OTHER, 7), (OTHER, 9)]),
        Ok(1166)
    );
    Ok(())
}

// The new image of 64 pages.
fn small(alloc: Global) -> Result<Words, NoMemory>
    ensures len { IfOk result (λ words. length words ≡ 32768) }
    ensures idle { IfOk result (λ words. IsDurable words committed_word 0) }
{
    new_image(alloc, 64)
}

// The same, with something stored in page 40.
fn used_page(alloc: Global) -> Result<Words, NoMemory>
    ensures len { IfOk result (λ words. length words ≡ 32768) }
    ensures idle { IfOk result (λ words. IsDurable words committed_word 0) }
{
    let mut words = small(alloc)?;
    words.store(FIRST, 5)?;
    words.store(LAST, 6)?;
    Ok(words)
}
