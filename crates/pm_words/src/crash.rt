//! What a crash leaves of the pending words.

ghost use Rattle.std.specs.Prelude.{◌≡◌, ℕ, ◌+◌, ◌*◌, ◌/◌, ◌<◌, ◌≤◌, ◌^◌, ◌≢◌, ◌++◌, [], length, slice_index_or};
ghost use Rattle.pm_words.specs.View.{values_at, older_at, ArePending};
ghost use Rattle.pm_words.specs.Crash.{picked};
ghost use Rattle.pm_words.specs.Hash.{fnv64_of};
ghost use Rattle.std.specs.Int.{w64, to_le_bytes};

use crate::Choice;
use crate::fnv::fnv64;
use crate::pending::{LINE_WORDS, Line, Older, count_of, value_at};
use indexmap::IndexMap;

const WORD_BYTES: usize = 8;

// The value that a crash leaves in the word at a place, of the line's older values and the present one.
fn left_of(choice: Choice, place: usize, older: &[Older], present: u64) -> u64
    requires { place < 2 ^ 60 }
    ensures left { result ≡ picked choice (8 * place) (values_at place older.now) present }
{
    match choice {
        Choice::All => present,
        Choice::None => value_at(older, place, 0, present),
        Choice::Seed(seed) => {
            let count = count_of(older, place) as u64 + 1;
            let addr = (WORD_BYTES * place) as u64;
            value_at(
                older,
                place,
                (hash_of(seed, addr) % count) as usize,
                present,
            )
        }
    }
}

// The hash of the bytes of a seed and of an address, the lowest first.
fn hash_of(seed: u64, addr: u64) -> u64
    ensures { result ≡ fnv64_of (to_le_bytes w64 seed ++ to_le_bytes w64 addr) }
{
    let mut bytes = [0u8; 16];
    bytes[..8].copy_from_slice(&seed.to_le_bytes());
    bytes[8..].copy_from_slice(&addr.to_le_bytes());
    fnv64(&bytes)
}

// Leaves in each word of a line the value that the choice names.
fn settle_line(present: &mut [u64], choice: Choice, line: usize, words: &Line)
    requires inside { 8 * line + 8 ≤ length present.old }
    requires small { length present.old < 2 ^ 60 }
    ensures len { length present.new ≡ length present.old }
    ensures here { (k : ℕ) → k / 8 ≡ line → slice_index_or present.new k 0 ≡ picked choice (8 * k) (values_at k words.now.older) (slice_index_or present.old k 0) }
    ensures others { (k : ℕ) → k / 8 ≢ line → slice_index_or present.new k 0 ≡ slice_index_or present.old k 0 }
{
    let first = LINE_WORDS * line;
    for place in first..first + LINE_WORDS {
        present[place] = left_of(choice, place, words.older(), present[place]);
    }
}

/// Leaves in each pending word the value that the choice names, and no entry. Takes no memory, and
/// time in proportion to the words that are pending.
pub fn settle(present: &mut [u64], pending: &mut IndexMap<usize, Line>, choice: Choice)
    requires small { length present.old < 2 ^ 60 }
    requires pending { ArePending (length present.old) pending.old.entries }
    ensures len { length present.new ≡ length present.old }
    ensures left { (k : ℕ) → slice_index_or present.new k 0 ≡ picked choice (8 * k) (older_at pending.old.entries k) (slice_index_or present.old k 0) }
    ensures none { pending.new.entries ≡ [] }
{
    while let Some((line, words)) = pending.pop() {
        settle_line(present, choice, line, &words);
    }
}
