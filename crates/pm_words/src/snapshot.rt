//! The words of a memory at rest.

ghost use Rattle.std.specs.Prelude.{◌≡◌};

use std::marker::Model;

/// The words of a memory at rest, each with one value, in order of address.
#[derive(Drop)]
pub struct Image {
    words: Vec<u64>,
}

impl Model for Image {
    ghost use Rattle.std.specs.Prelude.{ℕ, List};

    ghost Value = { List ℕ };

    ghost view = { λ m. m.words.items };
}

impl Image {
    /// An image with these words.
    pub fn new(words: Vec<u64>) -> Image
        ensures words { result ≡ words.items }
    {
        Image { words }
    }

    /// The words, in order of address.
    pub fn words(&self) -> &[u64]
        ensures words { result.now ≡ self.now }
    {
        &self.words
    }

    /// The words, in order of address, with no copy made.
    pub(crate) fn into_words(self) -> Vec<u64>
        ensures words { result.items ≡ self }
    {
        self.words
    }
}
