//! Leases of directories and of pools of pages: their words, and the calls that take them, give them back and watch them, one
//! action at a time.
#![tactic(auto)]

mod bid;
mod check;
mod give_back;
mod giving;
mod laws;
mod mend;
mod place;
mod pop;
mod push;
mod step;
mod take;
#[cfg(test)]
mod tests;
mod watch;
mod word;

pub use check::Check;
pub use give_back::GiveBack;
pub use laws::{beside_law, check_law, give_law, pop_law, push_law, take_law, watch_law};
pub use place::LeaseAt;
pub use pop::Pop;
pub use push::Push;
pub use step::LeaseStep;
pub use take::Take;
pub use watch::Watch;
pub use word::{LAST_TICK, LeaseWord, TRIES, is_kept};
