//! Scripts as texts and as data, and the ways in which a run ends.
#![tactic(auto)]

mod reader;
mod script;
mod status;

pub use reader::{ScriptFault, place_law, read_script};
pub use script::{Line, Script};
pub use status::Status;
