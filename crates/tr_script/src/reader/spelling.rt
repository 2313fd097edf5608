// What a single word spells.
ghost use Rattle.std.specs.Prelude.{◌≡◌, ◌≢◌, ◌↔◌, ◌⊎◌, ℕ, ◌+◌, ◌^◌, ◌<◌, ◌≤◌, ◌∷◌, IsTrue, IfSome, IfNone, length, slice_index, codes};
ghost use Rattle.std.specs.Fmt.{decimal};
ghost use Rattle.tr_script.specs.Grammar.{IsScriptAddress};
ghost use Rattle.tr_text.specs.Spelling.{process_name, thread_name};
ghost use Rattle.zo_model.specs.Commands.{IsName, IsPath, IsPathOfOne};

/// Processes are `p1` to `p64`, threads `t1` to `t256`.
const PROCESSES: u64 = tr_types::PROCESSES as u64;

const THREADS: u64 = tr_types::THREADS as u64;

/// The least and the greatest number of pages of an image.
const LEAST_PAGES: u64 = 64;

const MOST_PAGES: u64 = 16_384;

/// The bytes of a word, and the address of the last word of the greatest image.
const WORD_BYTES: u64 = 8;

const LAST_ADDRESS: u64 = 67_108_856;

/// The greatest length of a name in bytes.
const NAME_LIMIT: usize = 255;

/// Whether a number may begin so: with no sign, and with no zero that further bytes follow.
fn begins_plain(word: &[u8]) -> bool
    ensures { IsTrue result ↔ ((slice_index word.now 0 ≢ 43) × (slice_index word.now 0 ≡ 48 → length word.now ≤ 1)) }
{
    match word {
        [b'+', ..] | [b'0', _, ..] => false,
        _ => true,
    }
}

/// The number that the word writes in decimal, without a sign or a leading zero.
pub fn number_word(word: &[u8]) -> Option<u64>
    ensures some { IfSome result (λ n. word.now ≡ decimal n) }
    ensures none { IfNone result ((n : ℕ) → n < 2 ^ 64 → word.now ≢ decimal n) }
{
    if !begins_plain(word) {
        return None;
    }
    let text = str::from_utf8(word).ok()?;
    text.parse().ok()
}

/// The number of pages that the word writes, where an image can have so many.
pub fn size_word(word: &[u8]) -> Option<u32>
    ensures some { IfSome result (λ pages. (word.now ≡ decimal pages) × (64 ≤ pages) × (pages ≤ 16384)) }
    ensures none { IfNone result ((pages : ℕ) → 64 ≤ pages → pages ≤ 16384 → word.now ≢ decimal pages) }
{
    match number_word(word)? {
        pages if LEAST_PAGES <= pages && pages <= MOST_PAGES => Some(pages as u32),
        _ => None,
    }
}

/// The address in bytes that the word writes, where the greatest image has a word there.
pub fn address_word(word: &[u8]) -> Option<u64>
    ensures some { IfSome result (λ addr. (word.now ≡ decimal addr) × IsScriptAddress addr) }
    ensures none { IfNone result ((addr : ℕ) → IsScriptAddress addr → word.now ≢ decimal addr) }
{
    match number_word(word)? {
        addr if addr % WORD_BYTES == 0 && addr <= LAST_ADDRESS => Some(addr),
        _ => None,
    }
}

/// One less than the number that stands behind the letter, where it is from 1 to `most`.
fn numbered_word(letter: u8, most: u64, word: &[u8]) -> Option<u64>
    ensures some { IfSome result (λ n. (word.now ≡ letter ∷ decimal (n + 1)) × (n < most)) }
    ensures none { IfNone result ((n : ℕ) → n < most → word.now ≢ letter ∷ decimal (n + 1)) }
{
    let (first, digits) = word.split_first()?;
    if *first != letter {
        return None;
    }
    match number_word(digits)? {
        number if 1 <= number && number <= most => Some(number - 1),
        _ => None,
    }
}

/// The process that the word names: `p1` is process 0.
pub fn process_word(word: &[u8]) -> Option<u8>
    ensures some { IfSome result (λ process. (word.now ≡ process_name process) × (process < 64)) }
    ensures none { IfNone result ((process : ℕ) → process < 64 → word.now ≢ process_name process) }
{
    let process = numbered_word(b'p', PROCESSES, word)?;
    Some(process as u8)
}

/// The thread that the word names: `t1` is thread 0.
pub fn thread_word(word: &[u8]) -> Option<u16>
    ensures some { IfSome result (λ thread. (word.now ≡ thread_name thread) × (thread < 256)) }
    ensures none { IfNone result ((thread : ℕ) → thread < 256 → word.now ≢ thread_name thread) }
{
    let thread = numbered_word(b't', THREADS, word)?;
    Some(thread as u16)
}

fn is_name(name: &[u8]) -> bool
    ensures { IsTrue result ↔ IsName name.now }
{
    !name.is_empty()
        && name.len() <= NAME_LIMIT
        && name
            .iter()
            .all(|byte| byte.is_ascii_graphic() && *byte != b'/')
        && name != b".".as_slice()
        && name != b"..".as_slice()
}

/// Whether the word is `/` and one name.
pub fn is_path_of_one(word: &[u8]) -> bool
    ensures { IsTrue result ↔ IsPathOfOne word.now }
{
    match word {
        [b'/', name @ ..] => is_name(name),
        _ => false,
    }
}

/// Whether the word is `/`, or `/` and one name.
pub fn is_path(word: &[u8]) -> bool
    ensures { IsTrue result ↔ IsPath word.now }
{
    word == b"/".as_slice() || is_path_of_one(word)
}
