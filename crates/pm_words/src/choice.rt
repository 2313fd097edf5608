//! What a crash leaves.

/// Which of a word's possible values a crash leaves in it.
#[derive(Clone, Copy, Debug, PartialEq, Eq)]
pub enum Choice {
    /// The present value of each word.
    All,
    /// The durable value of each word.
    None,
    /// One value of each word's list, by a hash of the seed and the word's address.
    Seed(u64),
}
