// Paths, names and the lists that stand in calls, answers and replies.
ghost use Rattle.std.specs.Prelude.{◌≡◌, IfOk};

use sqlite_items::Items;
use std::alloc::{AllocError, Global};
use std::marker::Model;

/// Bytes of a file.
pub type Bytes = Items<u8>;

/// The names of a directory, in byte order.
pub type Names = Items<Name>;

/// Numbers of pages.
pub type Pages = Items<u32>;

/// A path: `/`, or names that each stand after a `/`.
#[derive(Debug, Drop)]
pub struct Path {
    bytes: Vec<u8>,
}

impl Model for Path {
    ghost use Rattle.std.specs.Prelude.{List, ℕ};

    ghost Value = { List ℕ };

    ghost view = { λ p. p.bytes.items };
}

impl Path {
    /// The path of these bytes, which the caller has found to be one.
    pub fn new(bytes: Vec<u8>) -> Path
        ensures { result ≡ bytes.items }
    {
        Path { bytes }
    }

    pub fn as_bytes(&self) -> &[u8]
        ensures { result.now ≡ self.now }
    {
        &self.bytes
    }

    /// The same path once more.
    pub fn copy(&self, alloc: Global) -> Result<Path, AllocError>
        ensures { IfOk result (λ path. path ≡ self.now) }
    {
        Ok(Path {
            bytes: Vec::from_slice(alloc, &self.bytes)?,
        })
    }
}

/// One name of a path.
#[derive(Debug, Drop)]
pub struct Name {
    bytes: Vec<u8>,
}

impl Model for Name {
    ghost use Rattle.std.specs.Prelude.{List, ℕ};

    ghost Value = { List ℕ };

    ghost view = { λ n. n.bytes.items };
}

impl Name {
    /// The name of these bytes, which the caller has found to be one.
    pub fn new(bytes: Vec<u8>) -> Name
        ensures { result ≡ bytes.items }
    {
        Name { bytes }
    }

    pub fn as_bytes(&self) -> &[u8]
        ensures { result.now ≡ self.now }
    {
        &self.bytes
    }
}
