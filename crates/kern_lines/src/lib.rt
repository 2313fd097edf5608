//! Kernel calls as the lines of a table write them, for tests.
#![tactic(auto)]

mod fault;
mod fields;
mod reader;

pub use fault::LineFault;
pub use fields::{number, path};
pub use reader::call_of;
