//! The kernel's rules stay: what each call commits can be committed, no rule of the kernel's pages fails
//! after it, and a crash inside of it leaves all of it or none. Laws of the definitions, and no code.
#![tactic(auto)]

mod laws;

pub use laws::{crash_law, row_law, store_law};
