// The entry of a coffer, word by word.
ghost use Rattle.std.specs.Prelude.{◌≡◌, ◌<◌, ◌≤◌, ◌+◌, ◌*◌, ◌^◌, ◌/◌, ℕ, length, take, drop, true, nat_eq, IfOk};
ghost use Rattle.std.specs.Int.{w64, to_le_bytes};
ghost use Rattle.std.specs.List.{starts_with};
ghost use Rattle.zo_layout.specs.Layout as layout;
ghost use Rattle.pm_words.specs.Memory.{IsAddress, HasPages};
ghost use Rattle.tr_types.specs.Paths.{same_text};
ghost use Rattle.kern_model.specs.KernelView.{pages_of};
ghost use Rattle.kern_model.specs.Journal as journal;
ghost use Rattle.kern_model.specs.KernelTables.{is_id, path_length};
ghost use Rattle.kern_model.specs.KernelRules.{IsSoundKernel};
ghost use Rattle.kern_roots.specs.Reading.{root_of};
ghost use Rattle.kern_roots.specs.Entries as spec;

use crate::types::{Root, RootState};
use kern_model::LAST_COFFER;
use pm_words::Words;
use std::alloc::{AllocError, Global};
use tr_types::Perm;
use zo_layout::{
    coffer_control, coffer_entry, coffer_gid, coffer_kind, coffer_mode, coffer_next,
    coffer_path_length, coffer_path_word, coffer_root, coffer_state, coffer_uid,
};

const WORD_BYTES: usize = zo_layout::WORD_BYTES as usize;

/// The word at an address, as the kernel reads it.
pub fn read(words: &Words, addr: u64) -> u64
    requires sound { IsSoundKernel words.now }
    requires inside { IsAddress (length words.now) addr }
    ensures { result ≡ journal.kernel_word words.now addr }
{
    kern_journal::kernel_word(words, addr)
}

/// The address of a coffer's entry.
pub fn entry_at(words: &Words, id: u16) -> u64
    requires least { 1 ≤ id }
    ensures at { result ≡ layout.coffer_entry (pages_of words.now) id }
    ensures near { result < 2 ^ 60 }
    ensures size { HasPages (length words.now) }
{
    coffer_entry(words.pages(), id)
}

/// Whether there is a coffer of this number.
pub fn is_there(words: &Words, id: u16) -> bool
    requires sound { IsSoundKernel words.now }
    ensures { result ≡ spec.has_coffer words.now id }
{
    if id < 1 || LAST_COFFER < id {
        return false;
    }
    matches!(read(words, coffer_state(entry_at(words, id))), 1 | 2)
}

/// What the entry of a coffer says, but its path.
pub fn read_root(words: &Words, id: u16) -> Root
    requires sound { IsSoundKernel words.now }
    requires there { spec.has_coffer words.now id ≡ true }
    ensures { result ≡ root_of (spec.coffer_of words.now id) }
{
    let entry = entry_at(words, id);
    Root {
        perm: Perm {
            uid: read(words, coffer_uid(entry)) as u32,
            gid: read(words, coffer_gid(entry)) as u32,
            mode: read(words, coffer_mode(entry)) as u16,
        },
        state: RootState::named(read(words, coffer_state(entry))),
        kind: read(words, coffer_kind(entry)) as u8,
        control: read(words, coffer_control(entry)) as u32,
        root: read(words, coffer_root(entry)) as u32,
    }
}

/// The number of the next coffer in a coffer's bucket, or 0.
pub fn next_of(words: &Words, id: u16) -> u64
    requires sound { IsSoundKernel words.now }
    requires id { is_id id ≡ true }
    ensures { result ≡ journal.kernel_word words.now (layout.coffer_next (layout.coffer_entry (pages_of words.now) id)) }
{
    read(words, coffer_next(entry_at(words, id)))
}

// Bytes of a coffer's path.
fn path_len(words: &Words, id: u16) -> usize
    requires sound { IsSoundKernel words.now }
    requires there { spec.has_coffer words.now id ≡ true }
    ensures len { result ≡ path_length (pages_of words.now) (journal.kernel_word words.now) id }
    ensures most { result ≤ 440 }
{
    read(words, coffer_path_length(entry_at(words, id))) as usize
}

// Eight bytes of a coffer's path, from byte `8 * i` on.
fn path_piece(words: &Words, id: u16, i: u32) -> [u8; 8]
    requires sound { IsSoundKernel words.now }
    requires there { spec.has_coffer words.now id ≡ true }
    requires i { i < 55 }
    ensures { result ≡ spec.path_piece (pages_of words.now) (journal.kernel_word words.now) id i }
{
    read(words, coffer_path_word(entry_at(words, id), i)).to_le_bytes()
}

/// The path of a coffer.
pub fn read_path(alloc: Global, words: &Words, id: u16) -> Result<Vec<u8>, AllocError>
    requires sound { IsSoundKernel words.now }
    requires there { spec.has_coffer words.now id ≡ true }
    ensures { IfOk result (λ path. path.items ≡ spec.path_of words.now id) }
{
    let len = path_len(words, id);
    let mut path = Vec::new(alloc);
    for i in 0..pieces_of(len) {
        path.extend_from_slice(&path_piece(words, id, i))?;
    }
    path.truncate(len);
    Ok(path)
}

/// Whether a coffer has just this path.
pub fn has_path(words: &Words, id: u16, path: &[u8]) -> bool
    requires sound { IsSoundKernel words.now }
    requires there { spec.has_coffer words.now id ≡ true }
    ensures { result ≡ same_text (spec.path_of words.now id) path.now }
{
    if path_len(words, id) != path.len() {
        return false;
    }
    for i in 0..pieces_of(path.len()) {
        if !begins_with(&path_piece(words, id, i), piece_at(path, i)) {
            return false;
        }
    }
    true
}

// How many words a text of so many bytes takes.
fn pieces_of(len: usize) -> u32
    requires { len ≤ 440 }
    ensures cover { len ≤ 8 * result }
    ensures most { 8 * result < len + 8 }
{
    len.div_ceil(WORD_BYTES) as u32
}

// The bytes of a path that stand in its word `i`: eight, or fewer at its end.
fn piece_at(path: &[u8], i: u32) -> &[u8]
    requires { 8 * i < length path.now }
    ensures piece { result.now ≡ take 8 (drop (8 * i) path.now) }
    ensures short { length result.now ≤ 8 }
{
    let start = WORD_BYTES * i as usize;
    let rest = &path[start..];
    if rest.len() <= WORD_BYTES {
        rest
    } else {
        &rest[..WORD_BYTES]
    }
}

// Whether the eight bytes of a word begin with these.
fn begins_with(word: &[u8; 8], piece: &[u8]) -> bool
    ensures { result ≡ starts_with nat_eq word.now piece.now }
{
    word.starts_with(piece)
}
