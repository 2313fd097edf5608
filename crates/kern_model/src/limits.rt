// What is told by numbers in the kernel's pages, and how much of each there may be.

/// The first word of an image: the bytes `TREASURY`, the first one lowest.
pub const TREASURY: u64 = 0x5952_5553_4145_5254;

/// The version of the format.
pub const VERSION: u64 = 1;

/// What the owner table says of a page that is nobody's.
pub const NOBODY: u16 = 0;

/// What the owner table says of a page that is the kernel's.
pub const KERNEL: u16 = 65_535;

/// The number of the root coffer, whose path is `/`.
pub const ROOT_COFFER: u16 = 1;

/// The greatest number of a coffer; the least is 1.
pub const LAST_COFFER: u16 = 256;

/// The longest path of a coffer, in bytes: 55 words of its entry.
pub const LONGEST_PATH: u16 = 440;

/// The longest path that is looked for, in bytes, and the most names that it has.
pub const LONGEST_LOOK: u16 = 1_024;

pub const MOST_NAMES: u16 = 32;

/// The bits that a mode may have: three octal digits, each of reading and writing.
pub const MODE_BITS: u16 = 0o666;

/// The greatest uid and gid.
pub const LAST_USER: u32 = u32::MAX;

/// The most pages that one call gives.
pub const MOST_GIVEN: u32 = 1_024;

/// The number under which the recovery calls, and the kernel flushes and fences. It is no thread's.
pub const NO_THREAD: u16 = 256;

/// The mode that the root coffer begins with.
pub const ROOT_MODE: u16 = 0o666;
