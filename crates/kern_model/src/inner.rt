// The single steps that the kernel makes in the memory.

/// One step that the kernel makes in the memory. Between two of them a crash may come.
#[derive(Clone, Copy, Debug, PartialEq, Eq)]
pub enum Inner {
    /// A value is stored in the word at a byte address.
    Store { addr: u64, value: u64 },
    /// The line of 64 bytes that a byte address is in is flushed.
    Flush { addr: u64 },
    /// What was flushed becomes durable.
    Fence,
}
