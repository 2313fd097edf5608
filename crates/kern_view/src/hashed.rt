// Paths with their hashes.
ghost use Rattle.std.specs.Prelude.{◌≡◌};
ghost use Rattle.zo_layout.specs.Layout as layout;
ghost use Rattle.tr_types.specs.Paths.{same_text};

use std::marker::Model;
use zo_layout::name_hash;

/// The path of a coffer, by which it is found. Paths of different hashes differ, so that few are
/// compared byte by byte.
#[derive(Drop)]
pub struct HashedPath {
    bytes: Vec<u8>,
    hash: u64,
}

impl Model for HashedPath {
    ghost use Rattle.std.specs.Prelude.{◌≡◌, List, ℕ};
    ghost use Rattle.zo_layout.specs.Layout.{name_hash};

    ghost Value = { List ℕ };

    ghost view = { λ p. p.bytes.items };

    ghost invariant = { λ p. p.hash ≡ name_hash p.bytes.items };
}

impl HashedPath {
    pub fn new(bytes: Vec<u8>) -> HashedPath
        ensures { result ≡ bytes.items }
    {
        let hash = name_hash(&bytes);
        HashedPath { bytes, hash }
    }

    pub fn as_bytes(&self) -> &[u8]
        ensures { result.now ≡ self.now }
    {
        &self.bytes
    }

    /// The path bucket that it belongs to.
    pub fn bucket(&self) -> u8
        ensures { result ≡ layout.bucket_of self.now }
    {
        (self.hash & 0xff) as u8
    }

    pub fn is_same(&self, other: &HashedPath) -> bool
        ensures { result ≡ same_text self.now other.now }
    {
        self.hash == other.hash && self.bytes == other.bytes
    }
}
