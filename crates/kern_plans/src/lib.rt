//! What a kernel call would do: the first refusal of its row that is due, or the row's answer, the pages
//! that it gives and the words that it stores. Nothing is changed here.
#![tactic(auto)]

mod asked;
mod calls;
mod checks;
mod giving;
mod linking;
mod naming;
mod owning;
mod planned;

pub use asked::Asked;
pub use calls::delete::delete;
pub use calls::enlarge::enlarge;
pub use calls::find::find;
pub use calls::merge::merge;
pub use calls::mode::mode;
pub use calls::new::new;
pub use calls::recover::recover;
pub use calls::shrink::shrink;
pub use calls::split::split;
pub use planned::Planned;
