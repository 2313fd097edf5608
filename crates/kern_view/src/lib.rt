//! What the kernel's pages say, and whether they say it rightly.
#![tactic(auto)]

mod buckets;
mod entries;
mod fault;
mod hashed;
mod laws;
mod overlay;
mod paths;
mod superblock;
mod tables;
mod view;

pub use fault::first_fault;
pub use laws::fault_law;
pub use paths::is_path_text;

#[cfg(test)]
mod tests;
