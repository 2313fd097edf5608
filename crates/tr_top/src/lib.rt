//! The top call: it reads a script, runs it on the machine, writes the replies as they come and the image at the end.
#![tactic(auto)]

mod runner;
mod stop;
mod teller;
#[cfg(test)]
mod tests;
mod top;

pub use top::{Outcome, completes_law, zofs_run};
pub use tr_script::{Line, Script, Status};
