// The kernel's calls, each by its name. Map and Unmap store nothing and have no plan.
pub mod delete;
pub mod enlarge;
pub mod find;
pub mod merge;
pub mod mode;
pub mod new;
pub mod recover;
pub mod shrink;
pub mod split;
