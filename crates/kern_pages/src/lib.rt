//! Whose each page is, kept beside the owner table, so that a call finds free pages and the pages of a
//! coffer without a walk over that table.
#![tactic(auto)]

mod laws;
mod owners;
mod sets;

pub use laws::owners_law;
pub use owners::Owners;

#[cfg(test)]
mod tests;
