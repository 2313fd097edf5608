//! Whose each page of an image is: the owner table as the kernel reads it, and what is to be stored in
//! it so that pages come to a coffer or go back.
//!
//! Nothing here changes a word. What is to change is handed out as pairs, each the byte address of a
//! word and its new value, in order of address.
//!
//! A call on words has the condition that no rule of the kernel's pages fails. Pairs may be committed:
//! the table is read with them laid over the words.
#![tactic(auto)]

mod changes;
mod handed;
mod laws;
mod owners;

pub use changes::{grant, take_back};
pub use handed::{Grant, OwnerFault, Pairs};
pub use laws::{grant_law, owner_word_law, pass_law, take_back_law};
pub use owners::{free_pages, owner, pages_of};

#[cfg(test)]
mod tests;
