//! The kernel's calls: a kernel is put over the words of an image, knows who was started, who holds
//! which coffer and whose each page is, and answers each call by its row.
#![tactic(auto)]

mod call;
mod follow;
mod kernel;
mod maps;
mod mount;
mod plan;

pub use kernel::Kernel;
pub use mount::MountFault;

#[cfg(test)]
mod tests;
