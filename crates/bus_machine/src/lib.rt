//! The machine: a memory, processes and their threads, and a kernel that says who may load and store.
//!
//! Threads act one step at a time. A load or a store is permitted by the rights on the page's coffer and
//! by the thread's own register PKRU; the kernel's calls change coffers, and who holds them. A crash ends
//! everyone, and may give words earlier values back.
#![tactic(auto)]

mod bus;
mod fault;
mod machine;

pub use fault::BusFault;
pub use kern_calls::MountFault;
pub use machine::{Machine, open_law};

#[cfg(test)]
mod tests;
