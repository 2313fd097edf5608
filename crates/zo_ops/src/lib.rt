//! One command in a mapped coffer: a step machine that gives one action at a time and is told the answer.
#![tactic(auto)]

mod op;

pub use op::{OpRun, OpStep};
