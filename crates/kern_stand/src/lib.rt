//! Images of a kernel, and a kernel over one of them that is asked line by line, for tests.
#![tactic(auto)]

mod entries;
mod fault;
mod image;
mod stand;
mod tables;

pub use fault::RowFault;
pub use stand::Stand;
pub use tables::{Table, wrong_calls_in, wrong_entries_in};
