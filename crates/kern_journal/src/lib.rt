//! The kernel's journal: lists of words that are stored all or not at all, whatever a crash cuts off.
//!
//! A list is a slice of pairs (byte address, value). Its pairs are written into the journal's pages
//! and made durable; then their number is, in the journal's word 0, by which they are committed; then
//! the words themselves are, and then a 0 in word 0. After a crash `redo` finishes what was committed,
//! and until then the kernel reads the committed pairs laid over the words.
#![tactic(auto)]

mod events;
mod image;
mod inner;
mod journal;
mod laws;
mod lines;

pub use events::journal_events;
pub use image::new_image;
pub use inner::{make, make_all};
pub use journal::{
    JournalFault, apply, apply_first, capacity, committed, committed_count, kernel_word, redo,
};
pub use laws::{apply_law, crash_law, cut_law, view_law};

#[cfg(test)]
mod tests;
