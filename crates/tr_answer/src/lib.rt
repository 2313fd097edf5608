//! What the file system answers, as its users see it: a plain, slow program over a list of coffers, each
//! with a list of all that stands in its tree.
#![tactic(auto)]

mod answers;
mod coffer;
mod decision;
mod names;
mod tree;

pub use answers::Coffers;
pub use coffer::Closed;
