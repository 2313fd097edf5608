// What a thread asks of the kernel, and what the kernel answers.
use crate::{Pages, Path, Perm, Right};

/// A kernel call. A link is an address with the word before and the word after, a guard an address
/// with its word. Both addresses lie in pages of the parent.
#[derive(Debug, Drop)]
pub enum Kcall {
    Find {
        path: Path,
        also: Option<Path>,
    },
    Map {
        path: Path,
        right: Right,
        exclusive: bool,
    },
    Unmap {
        id: u16,
    },
    New {
        parent: u16,
        path: Path,
        kind: u8,
        mode: u16,
        link: (u64, u64, u64),
        guard: (u64, u64),
    },
    Delete {
        id: u16,
        parent: u16,
        link: (u64, u64, u64),
        guard: (u64, u64),
    },
    Enlarge {
        id: u16,
        count: u32,
    },
    Shrink {
        id: u16,
        pages: Pages,
        guard: (u64, u64),
    },
    Split {
        id: u16,
        path: Path,
        pages: Pages,
        mode: u16,
        link: (u64, u64, u64),
        guard: (u64, u64),
    },
    Merge {
        child: u16,
        parent: u16,
        pages: Pages,
        link: (u64, u64, u64),
        guard: (u64, u64),
    },
    Mode {
        id: u16,
        mode: u16,
    },
    Recover {
        id: u16,
        ready: bool,
    },
}

/// The coffer of a path: whether the path is the coffer's own, and the length of the coffer's path in bytes.
#[derive(Clone, Copy, Debug, PartialEq, Eq)]
pub struct FoundAt {
    pub id: u16,
    pub exact: bool,
    pub path_len: u16,
    pub perm: Perm,
}

/// A coffer as a thread has it mapped. `control` and `root` are page numbers, `pages` their count.
#[derive(Clone, Copy, Debug, PartialEq, Eq)]
pub struct Mapped {
    pub id: u16,
    pub key: u8,
    pub control: u32,
    pub root: u32,
    pub pages: u32,
    pub path_len: u16,
    pub perm: Perm,
}

/// A thread that has a coffer mapped.
#[derive(Clone, Copy, Debug, PartialEq, Eq)]
pub struct Holder {
    pub thread: u16,
    pub id: u16,
    pub key: u8,
    pub right: Right,
    pub exclusive: bool,
}

/// What the kernel answers. From `NotHeld` on, the call is refused and changes nothing.
#[derive(Debug, Drop)]
pub enum KernAnswer {
    Done,
    Same,
    Found {
        first: FoundAt,
        second: Option<FoundAt>,
    },
    Mapped(Mapped),
    Made(u16),
    Pages(Pages),
    NotHeld,
    BadPath,
    Denied {
        right: Right,
        id: u16,
        path_len: u16,
    },
    Quarantined {
        id: u16,
        path_len: u16,
    },
    InUse {
        thread: u16,
        id: u16,
        path_len: u16,
    },
    NoKey {
        id: u16,
        path_len: u16,
    },
    /// A page that isn't the coffer's, by its number.
    NotYours(u64),
    GuardFailed {
        addr: u64,
        word: u64,
    },
    LinkDiffers {
        addr: u64,
        word: u64,
    },
    Taken,
    TooMany,
    NoPages {
        asked: u32,
        free: u32,
    },
    NoCoffer,
    NotEmptyList,
    BadCount,
    NoMemory,
}
