// Where the words of a directory may lead.
ghost use Rattle.std.specs.Prelude.{◌≡◌, ◌≢◌, ◌↔◌, ℕ, IsTrue, MatchOption};
ghost use Rattle.tr_types.specs.declared.action.Answer.{Answer};
ghost use Rattle.zo_hash_dir.specs.Addresses.{IsEntryAddress, IsPageAddress, IsTarget, IsLink};

use tr_types::Answer;
use zo_layout::PAGE_BYTES;
use zo_plan::{Addr, Link};

/// Bytes of an entry page before its first place.
const BEFORE_PLACES: u64 = 256;

/// Bytes of a place in an entry page.
const PLACE_BYTES: u64 = 320;

/// The target of an entry whose child is a coffer of its own.
const CHILD_COFFER: u64 = 1;

/// Where a word leads that is to have the address of an entry, or 0.
pub(crate) fn entry_link(word: u64) -> Link
    ensures { IsLink IsEntryAddress word result }
{
    if word % PAGE_BYTES < BEFORE_PLACES {
        if word == 0 { Link::End } else { Link::Astray }
    } else if (word % PAGE_BYTES - BEFORE_PLACES) % PLACE_BYTES == 0 {
        Link::of(word)
    } else {
        Link::Astray
    }
}

/// Where a word leads that is to have the address of a page, or 0.
pub(crate) fn page_link(word: u64) -> Link
    ensures { IsLink IsPageAddress word result }
{
    if word % PAGE_BYTES == 0 {
        Link::of(word)
    } else {
        Link::Astray
    }
}

/// Whether a word can be an entry's target.
pub(crate) fn is_target(word: u64) -> bool
    ensures { IsTrue result ↔ IsTarget word }
{
    word == CHILD_COFFER || is_page(word)
}

/// Whether a word has the address of an entry.
pub(crate) fn is_entry(word: u64) -> bool
    ensures { IsTrue result ↔ IsEntryAddress word }
{
    matches!(entry_link(word), Link::To(_))
}

fn is_page(word: u64) -> bool
    ensures { IsTrue result ↔ IsPageAddress word }
{
    matches!(page_link(word), Link::To(_))
}

/// The word that a load was answered, if it was.
pub(crate) fn loaded(answer: &Answer) -> Option<u64>
    ensures { MatchOption result ((word : ℕ) → answer.now ≢ Answer.Word word) (λ word. answer.now ≡ Answer.Word word) }
{
    match answer {
        Answer::Word(word) => Some(*word),
        _ => None,
    }
}
