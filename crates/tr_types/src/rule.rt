/// The rules of an image. An image is refused by the first rule that fails.
#[derive(Clone, Copy, Debug, PartialEq, Eq)]
pub enum Rule {
    TooShort,
    TooLong,
    NotWhole,
    Magic,
    Version,
    Count,
    Journal,
    Owner,
    Coffer,
    Bucket,
    Lease,
    Intent,
    Dir,
    Entry,
    File,
    Pool,
    Free,
}
