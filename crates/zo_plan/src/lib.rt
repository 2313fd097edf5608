//! Changes of a directory as data: the stores that prepare one, the store by which it comes about, and those after it.
#![tactic(auto)]

mod course;
mod deed;
mod held;
mod laws;
mod link;
mod place;
mod plan;
mod run;
mod stores;

pub use held::Held;
pub use laws::{count_law, damaged_law, expired_law, look_law, place_law};
pub use link::{Addr, Link};
pub use place::Place;
pub use plan::{Operand, Plan, Put};
pub use run::{PlanRun, Step};
pub use stores::{StoreRun, StoreStep};
