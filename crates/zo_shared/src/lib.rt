//! What calls that share a coffer may do to it, and on what each may rely while others act. Each function is empty, and its clause
//! is a law of the definitions alone.
#![tactic(auto)]

mod laws;

pub use laws::{rely_law, sound_law};
