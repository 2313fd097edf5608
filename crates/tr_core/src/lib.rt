//! The state of a run: the machine, the calls under way, and the trace of all that has come about.
#![tactic(auto)]

mod calls;
mod event;
mod fault;
mod limits;
mod run;
mod steps;

pub use event::FaultEvent;
pub use fault::CoreFault;
pub use limits::TRACE_LIMIT;
pub use run::{Core, Turned};
