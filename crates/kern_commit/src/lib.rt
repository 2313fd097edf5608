//! What a kernel call stores, all or nothing: the pages that it gives come zeroed and durable first, and
//! then its pairs go through the journal.
#![tactic(auto)]

mod laws;
mod steps;

pub use laws::{commit_law, crash_law};
pub use steps::{commit, count_events};

#[cfg(test)]
mod tests;
