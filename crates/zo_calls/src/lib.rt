//! One command in a mapped coffer, beside other calls: a step machine that takes leases, gives one action at a time and is told the
//! answer.
#![tactic(auto)]

mod caller;
mod change;
mod command;
mod op;
mod pages;
mod plan;
mod reading;
mod stage;
mod step;

pub use op::OpRun;
pub use step::OpStep;
