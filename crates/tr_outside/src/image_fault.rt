//! Why bytes are no image.

use thiserror::Error;

/// Why no image was read. The first of these that holds is answered, but `NoMemory` as soon as memory
/// runs out.
#[derive(Debug, PartialEq, Eq, Drop, Error)]
pub enum ImageFault {
    /// The source failed.
    #[error("a read failed")]
    ReadFault,
    /// There are fewer bytes than 262,144, this many.
    #[error("an image of too few bytes")]
    TooShort(u64),
    /// There are more bytes than 67,108,864. Only one past them is read and counted.
    #[error("an image of too many bytes")]
    TooLong(u64),
    /// The bytes, this many, are no whole number of pages of 4,096 bytes.
    #[error("an image of a part of a page")]
    NotWhole(u64),
    /// Memory for the bytes or the words ran out.
    #[error("out of memory")]
    NoMemory,
}
