// The names of entries, in words of eight letters.
ghost use Rattle.std.specs.Prelude.{◌≡◌, ◌↔◌, ℕ, ◌*◌, ◌/◌, ◌%◌, ◌^◌, ◌≤◌, ◌<◌, length, take, drop, slice_index, IsTrue, MatchOption, OnSome};
ghost use Rattle.zo_hash_dir.specs.Letters.{letters_word};

use byteorder::{ByteOrder, LittleEndian};

/// Letters of a name in a word.
const LETTERS: usize = 8;

/// The letters of a name in its word `i`: eight, or fewer at its end, or none behind it.
pub(crate) fn letters_at(name: &[u8], i: u32) -> Option<&[u8]>
    ensures letters { MatchOption result (length name.now ≤ 8 * i)
        (λ letters. letters.now ≡ take 8 (drop (8 * i) name.now)) }
    ensures some { OnSome result (8 * i < length name.now) }
{
    let start = LETTERS * i as usize;
    if start >= name.len() {
        return None;
    }
    let rest = &name[start..];
    if rest.len() <= LETTERS {
        Some(rest)
    } else {
        Some(&rest[..LETTERS])
    }
}

/// The word of at most eight letters, the first one lowest, with zeros behind them.
pub(crate) fn word_of_letters(letters: &[u8]) -> u64
    requires { length letters.now ≤ 8 }
    ensures { result ≡ letters_word letters.now }
{
    let mut bytes = [0u8; LETTERS];
    bytes[..letters.len()].copy_from_slice(letters);
    LittleEndian::read_u64(&bytes)
}

/// Whether a word begins with at most eight letters. What stands behind them doesn't count.
pub(crate) fn begins_with(word: u64, letters: &[u8]) -> bool
    requires { length letters.now ≤ 8 }
    ensures { IsTrue result ↔ ((k : ℕ) → k < length letters.now → slice_index letters.now k ≡ word / 256 ^ k % 256) }
{
    let mut bytes = [0u8; LETTERS];
    LittleEndian::write_u64(&mut bytes, word);
    &bytes[..letters.len()] == letters
}
