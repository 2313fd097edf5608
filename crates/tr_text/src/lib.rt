//! The texts of a trace's entries.
#![tactic(auto)]

mod actions;
mod calls;
mod entry;
mod law;
mod words;

pub use entry::{append_brief_text, append_full_text};
pub use law::{full_text_law, full_texts_law};
