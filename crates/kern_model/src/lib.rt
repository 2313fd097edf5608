//! What the kernel's pages say, who holds which coffer, and what the kernel's calls do: the definitions
//! that the kernel's crates and the machine share.
#![tactic(auto)]

mod inner;
mod limits;

pub use inner::Inner;
pub use limits::{
    KERNEL, LAST_COFFER, LAST_USER, LONGEST_LOOK, LONGEST_PATH, MODE_BITS, MOST_GIVEN, MOST_NAMES,
    NO_THREAD, NOBODY, ROOT_COFFER, ROOT_MODE, TREASURY, VERSION,
};
