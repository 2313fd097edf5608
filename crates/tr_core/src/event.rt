// What comes about beside the turns of calls.
use tr_types::Cred;

/// An event that is no turn of a call.
#[derive(Clone, Copy, Debug, Drop)]
pub enum FaultEvent {
    /// The image is a new one of so many pages.
    Mkfs(u32),
    /// A process starts, which acts for a user.
    Process { process: u8, cred: Cred },
    /// A thread starts in a process.
    Thread { thread: u16, process: u8 },
    /// A thread stores a word that its program didn't mean to, at an address in bytes.
    Stray { thread: u16, addr: u64, word: u64 },
}
