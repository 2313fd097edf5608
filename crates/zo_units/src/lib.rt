//! What the words of a coffer denote while calls cross, and whatever a crash leaves of them. Each function is empty, and
//! its clause is a law of the definitions alone.
#![tactic(auto)]

mod memory;
mod units;

pub use memory::{crash_law, memory_law, mend_law, own_law};
pub use units::{
    aside_law, commit_law, count_law, drops_law, flush_law, grow_law, recover_law, spare_law,
    start_law, store_law, survive_law, use_law,
};
