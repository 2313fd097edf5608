//! Who may load and store which page.
//!
//! A page stands under the coffer that owns it, whether anybody has that mapped or not. A process maps
//! coffers, each under a key of its own, and with a coffer all pages that stand under it. A thread may
//! load a page where its process has mapped the page's coffer and the thread's own register PKRU has
//! the key open; it may store where moreover a thread of its process has mapped it for writing.
#![tactic(auto)]

mod laws;
mod mapping;
mod pkru;
mod rows;
mod tables;

pub use laws::{keys_law, pages_law, register_law, row_law};
pub use pkru::Pkru;
pub use tables::{MapFault, Tables};

#[cfg(test)]
mod tests;
