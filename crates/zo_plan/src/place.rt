// Where a name stands in its directory, or where it would go.
ghost use Rattle.std.specs.Prelude.{◌≡◌, ◌<◌, ◌^◌, if◌then◌else◌, ◌==◌};

/// What a look-up of a name found, in words and addresses (bytes). A name that is missing has no entry; `before` is then the word
/// that ends its bucket's chain.
#[derive(Clone, Copy, Debug, PartialEq, Eq)]
pub struct Place {
    /// The address of the word that leads to the bucket's first entry.
    pub bucket: u64,
    /// The address of the word that leads to the entry: the bucket's, or word 0 of the entry before it.
    pub before: u64,
    /// The entry's address, or 0.
    pub entry: u64,
    /// The bucket's word: the address of its first entry, or 0.
    pub head: u64,
    /// The directory's word 4: the address of its first entry page, or 0.
    pub first: u64,
    /// The directory's word 5: the address of its first free entry, or 0.
    pub free: u64,
    /// Word 0 of that free entry: the address of the next free one, or 0; 0 where there is none.
    pub free_next: u64,
    ghost near: { free < 2 ^ 60 },
}

impl Place {
    /// How many entry pages are drawn for a link here: one where the directory has no free entry.
    pub fn entry_pages(&self) -> u32
        ensures { result ≡ if self.now.free == 0 then 1 else 0 }
    {
        if self.free == 0 { 1 } else { 0 }
    }
}
