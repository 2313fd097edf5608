//! What the parts of the laboratory say to each other: actions and answers, commands and replies,
//! kernel calls, and the entries of a trace.
#![tactic(auto)]

mod action;
mod command;
mod entry;
mod kernel_call;
mod limits;
mod permission;
mod rule;
mod text;

pub use action::{Action, Answer, FaultKind};
pub use command::{Command, Kind, Reply};
pub use entry::{CofferList, CofferRow, CofferState, Entry, Mark, Pick, Trace, Why};
pub use kernel_call::{FoundAt, Holder, Kcall, KernAnswer, Mapped};
pub use limits::{PROCESSES, THREADS};
pub use permission::{Cred, Groups, Perm, Right, refuses};
pub use rule::Rule;
pub use text::{Bytes, Name, Names, Pages, Path};
