//! The memory of a machine with persistent memory: its words, and what a crash may leave of them.
//!
//! The memory is a row of words of 8 bytes, in pages of 4,096 bytes. An address is the byte address
//! of a word, a multiple of 8. A store changes a word at once, but only for as long as the machine
//! runs: a crash may leave the word's last durable value, or any value that was stored since. A flush
//! by a thread marks the present values of a line of 8 words, and the thread's next fence makes the
//! marked values durable.
#![tactic(auto)]

mod choice;
mod crash;
mod fences;
mod fnv;
mod laws;
mod marked;
mod memory;
mod pending;
mod snapshot;

pub use choice::Choice;
pub use fnv::fnv64;
pub use laws::{crash_law, history_law};
pub use memory::{LINE_BYTES, Words};
pub use snapshot::Image;

/// Memory for the machine's own tables ran out.
pub type NoMemory = std::alloc::AllocError;

#[cfg(test)]
mod tests;
