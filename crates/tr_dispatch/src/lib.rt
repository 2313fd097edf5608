//! The session of one call: it finds and maps the coffer, opens its key alone, lets the call work, closes and unmaps.
#![tactic(auto)]

mod session;

pub use session::{Session, SessionStep};

#[cfg(test)]
mod tests;
