// A name to be looked for.
ghost use Rattle.std.specs.Prelude.{◌≡◌, ◌↔◌, ℕ, ◌+◌, ◌*◌, ◌/◌, ◌%◌, ◌^◌, ◌<◌, length, slice_index, IsTrue};
ghost use Rattle.zo_layout.specs.Layout.{bucket_of as bucket_of_name};

use crate::letters::{begins_with, letters_at};
use std::marker::Model;
use zo_layout::bucket_of;

/// The bytes of one name, with the bucket that it has in each directory. The name is hashed once.
#[derive(Debug, Drop)]
pub struct Name {
    bytes: Vec<u8>,
    bucket: u8,
}

impl Model for Name {
    ghost use Rattle.std.specs.Prelude.{List, ℕ, ◌≡◌};
    ghost use Rattle.zo_layout.specs.Layout.{bucket_of as bucket_of_name};

    ghost Value = { List ℕ };

    ghost view = { λ n. n.bytes.items };

    ghost invariant = { λ n. n.bucket ≡ bucket_of_name n.bytes.items };
}

impl Name {
    pub fn new(bytes: Vec<u8>) -> Name
        ensures { result ≡ bytes.items }
    {
        let bucket = bucket_of(&bytes);
        Name { bytes, bucket }
    }

    pub fn as_bytes(&self) -> &[u8]
        ensures { result.now ≡ self.now }
    {
        &self.bytes
    }

    pub fn bucket(&self) -> u8
        ensures { result ≡ bucket_of_name self.now }
    {
        self.bucket
    }

    /// Whether the name goes on in its word `i`.
    pub(crate) fn has_word(&self, i: u32) -> bool
        ensures { IsTrue result ↔ 8 * i < length self.now }
    {
        letters_at(&self.bytes, i).is_some()
    }

    /// Whether this is word `i` of an entry with this name. What stands behind the name's end doesn't count.
    pub(crate) fn has_letters(&self, i: u32, word: u64) -> bool
        ensures { IsTrue result ↔ (8 * i < length self.now)
            × ((k : ℕ) → k < 8 → 8 * i + k < length self.now → slice_index self.now (8 * i + k) ≡ word / 256 ^ k % 256) }
    {
        match letters_at(&self.bytes, i) {
            Some(letters) => begins_with(word, letters),
            None => false,
        }
    }
}
