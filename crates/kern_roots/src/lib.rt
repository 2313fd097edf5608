//! The table of coffers and the path map: which coffer a path lies in, what a coffer's entry says, and
//! the pairs of words that a change of the table stores.
//!
//! All is read by the kernel's view, with the committed pairs laid over the words. A quarantined coffer
//! is there as one that stands.
#![tactic(auto)]

mod changing;
mod laws;
mod reading;
mod types;

pub use changing::{add, drop_entry, set_perm, set_root, set_state};
pub use laws::{add_law, bucket_law, drop_law, order_law, perm_law, root_law, state_law};
pub use reading::{above, children, entry_of, find, path_of};
pub use types::{Found, Pairs, Root, RootState, RootsFault};
