// Lists of pairs, and the words of an entry.
ghost use Rattle.std.specs.Prelude.{◌≡◌, ◌+◌, ◌*◌, ◌<◌, ◌≤◌, ◌^◌, [], ◌∷◌, ◌++◌, ℕ, length, take, drop, replicate, nat_lt, IfOk, OnOk};
ghost use Rattle.std.specs.List.{position_or_len};
ghost use Rattle.std.specs.Int.{w64, from_le_bytes};
ghost use Rattle.kern_model.specs.PathMap as map;
ghost use Rattle.kern_roots.specs.Reading.{state_word};
ghost use Rattle.kern_roots.specs.Changes.{new_coffer};

use crate::types::Root;
use std::alloc::{AllocError, Global};
use zo_layout::word_of;

/// Words of an entry.
const ENTRY_WORDS: usize = 64;

/// Words of an entry in which the path stands: the last ones.
const PATH_WORDS: usize = 55;

/// These words in their places from an address on.
pub fn from_address(alloc: Global, start: u64, ws: &[u64]) -> Result<Vec<(u64, u64)>, AllocError>
    requires near { start < 2 ^ 61 }
    requires few { length ws.now < 2 ^ 40 }
    ensures { IfOk result (λ pairs. pairs.items ≡ map.from_address start ws.now) }
{
    let mut pairs = Vec::new(alloc);
    for (i, &word) in ws.iter().enumerate() {
        pairs.push((word_of(start, i as u64), word))?;
    }
    Ok(pairs)
}

/// Zeros for all words of an entry.
pub fn cleared(alloc: Global, entry: u64) -> Result<Vec<(u64, u64)>, AllocError>
    requires { entry < 2 ^ 60 }
    ensures { IfOk result (λ pairs. pairs.items ≡ map.from_address entry map.no_words) }
{
    from_address(alloc, entry, &[0; ENTRY_WORDS])
}

/// Puts a pair in its place by address.
pub fn put_pair(pairs: &mut Vec<(u64, u64)>, pair: (u64, u64)) -> Result<(), AllocError>
    ensures { OnOk result (pairs.new.items ≡ map.with_pair pair pairs.old.items) }
{
    let place = place_of(pairs, pair.0);
    pairs.insert(place, pair)?;
    Ok(())
}

// How many pairs stand before the first one of a greater address.
fn place_of(pairs: &[(u64, u64)], addr: u64) -> usize
    ensures place { result ≡ position_or_len (λ q. nat_lt addr q.0) pairs.now }
    ensures inside { result ≤ length pairs.now }
{
    pairs.iter().take_while(|q| q.0 <= addr).count()
}

/// All words of a new coffer's entry. `next` is the next coffer of its bucket.
pub fn entry_words(
    alloc: Global,
    path: &[u8],
    root: &Root,
    next: u64,
) -> Result<Vec<u64>, AllocError>
    ensures words { (id : ℕ) → IfOk result (λ ws. ws.items ≡ map.entry_words (new_coffer id path.now root.now) next) }
    ensures length { IfOk result (λ ws. length ws.items ≡ 64) }
{
    let mut ws = Vec::from_slice(alloc, &fields(root, next, path.len() as u64))?;
    for i in 0..PATH_WORDS {
        ws.push(text_word(path, i))?;
    }
    Ok(ws)
}

// The words of an entry before its path.
fn fields(root: &Root, next: u64, path_length: u64) -> [u64; 9]
    ensures { let r = root.now in
        result ≡ state_word r.state ∷ r.perm.uid ∷ r.perm.gid ∷ r.perm.mode ∷ r.control ∷ r.root ∷ next ∷ path_length ∷ r.kind ∷ [] }
{
    [
        root.state.word(),
        u64::from(root.perm.uid),
        u64::from(root.perm.gid),
        u64::from(root.perm.mode),
        u64::from(root.control),
        u64::from(root.root),
        next,
        path_length,
        u64::from(root.kind),
    ]
}

// Word `i` of a text: eight bytes of it, the first one lowest, with zeros behind its end.
fn text_word(text: &[u8], i: usize) -> u64
    requires { i < PATH_WORDS }
    ensures { result ≡ from_le_bytes w64 (take 8 (drop (8 * i) text.now ++ replicate 8 0)) }
{
    u64::from_le_bytes(eight_bytes(text, 8 * i))
}

// Eight bytes of a text from a place on, with zeros behind its end.
fn eight_bytes(text: &[u8], start: usize) -> [u8; 8]
    ensures { result ≡ take 8 (drop start text.now ++ replicate 8 0) }
{
    let mut bytes = [0u8; 8];
    if text.len() <= start {
        return bytes;
    }
    let rest = &text[start..];
    let count = rest.len().min(8);
    bytes[..count].copy_from_slice(&rest[..count]);
    bytes
}
