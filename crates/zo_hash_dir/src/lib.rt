//! A directory whose names lie in 256 buckets: how a name is found and linked.
#![tactic(auto)]

mod addresses;
mod letters;
mod link_plan;
mod list;
mod lookup;
mod name;
#[cfg(test)]
mod tests;

pub use link_plan::plan_link;
pub use list::{ListRun, ListStep};
pub use lookup::{LookStep, Lookup};
pub use name::Name;
