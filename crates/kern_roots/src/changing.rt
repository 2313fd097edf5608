// What is to be stored where a coffer comes, goes or changes. Nothing is stored here.
ghost use Rattle.std.specs.Prelude.{true, ◌≡◌, ◌≤◌, IfOk};
ghost use Rattle.kern_model.specs.KernelView.{pages_of};
ghost use Rattle.kern_model.specs.Journal.{kernel_word};
ghost use Rattle.kern_model.specs.KernelRules.{IsSoundKernel};
ghost use Rattle.kern_model.specs.PathMap as map;
ghost use Rattle.kern_roots.specs.Reading.{state_word};
ghost use Rattle.kern_roots.specs.Entries.{has_coffer};
ghost use Rattle.kern_roots.specs.Changes.{Adds, Changes, new_coffer};

mod chain;
mod pairs;
mod search;

use crate::reading::entry::{entry_at, next_of, read, read_path};
use crate::types::{Pairs, Root, RootState, RootsFault};
use chain::{bucket_at, leading_word};
use pairs::{cleared, entry_words, from_address, put_pair};
use pm_words::Words;
use search::{free_id, is_taken, is_used};
use sqlite_items::Items;
use std::alloc::{AllocError, Global};
use tr_types::{Path, Perm};
use zo_layout::{bucket_of, coffer_root, coffer_state, coffer_uid};

/// The least number that no coffer has, and the pairs that make it a new coffer's, at the front of its
/// path's bucket, in order of address.
///
/// `Taken` comes exactly where a coffer has just this path, before `TooMany`, which comes exactly where
/// there are 256 coffers.
pub fn add(
    alloc: Global,
    words: &Words,
    path: &Path,
    root: &Root,
) -> Result<(u16, Pairs), RootsFault>
    requires { IsSoundKernel words.now }
    ensures { Adds (pages_of words.now) (kernel_word words.now) path.now root.now result }
{
    if is_taken(words, path.as_bytes()) {
        return Err(RootsFault::Taken);
    }
    let Some(id) = free_id(words) else {
        return Err(RootsFault::TooMany);
    };
    let pairs = added_pairs(alloc, words, id, path.as_bytes(), root)?;
    Ok((id, pairs))
}

/// The pairs with which a coffer goes, in order of address: it leaves its bucket, and all words of its
/// entry become 0. `NoCoffer` comes exactly where no coffer has the number.
pub fn drop_entry(alloc: Global, words: &Words, id: u16) -> Result<Pairs, RootsFault>
    requires { IsSoundKernel words.now }
    ensures { Changes (pages_of words.now) (kernel_word words.now) id (map.dropped_pairs (pages_of words.now) (kernel_word words.now) id) result }
{
    if !is_used(words, id) {
        return Err(RootsFault::NoCoffer);
    }
    Ok(dropped_pairs(alloc, words, id)?)
}

/// The pairs that give a coffer another permission, in order of address. `NoCoffer` comes exactly where
/// no coffer has the number.
pub fn set_perm(alloc: Global, words: &Words, id: u16, perm: &Perm) -> Result<Pairs, RootsFault>
    requires { IsSoundKernel words.now }
    ensures { Changes (pages_of words.now) (kernel_word words.now) id (map.perm_pairs (pages_of words.now) id perm.now) result }
{
    if !is_used(words, id) {
        return Err(RootsFault::NoCoffer);
    }
    let fields = [
        u64::from(perm.uid),
        u64::from(perm.gid),
        u64::from(perm.mode),
    ];
    let pairs = from_address(alloc, coffer_uid(entry_at(words, id)), &fields)?;
    Ok(Items::from_vec(pairs))
}

/// The pair that gives a coffer another state. `NoCoffer` comes exactly where no coffer has the number.
pub fn set_state(
    alloc: Global,
    words: &Words,
    id: u16,
    state: RootState,
) -> Result<Pairs, RootsFault>
    requires { IsSoundKernel words.now }
    ensures { Changes (pages_of words.now) (kernel_word words.now) id (map.state_pairs (pages_of words.now) id (state_word state)) result }
{
    if !is_used(words, id) {
        return Err(RootsFault::NoCoffer);
    }
    Ok(Items::from_slice(alloc, &[(coffer_state(entry_at(words, id)), state.word())])?)
}

/// The pair that gives a coffer another root page. `NoCoffer` comes exactly where no coffer has the
/// number.
pub fn set_root(alloc: Global, words: &Words, id: u16, root: u32) -> Result<Pairs, RootsFault>
    requires { IsSoundKernel words.now }
    ensures { Changes (pages_of words.now) (kernel_word words.now) id (map.root_pairs (pages_of words.now) id root) result }
{
    if !is_used(words, id) {
        return Err(RootsFault::NoCoffer);
    }
    Ok(Items::from_slice(
        alloc,
        &[(coffer_root(entry_at(words, id)), u64::from(root))],
    )?)
}

// All words of a new coffer's entry, and its bucket's word.
fn added_pairs(
    alloc: Global,
    words: &Words,
    id: u16,
    path: &[u8],
    root: &Root,
) -> Result<Pairs, AllocError>
    requires sound { IsSoundKernel words.now }
    requires least { 1 ≤ id }
    ensures { IfOk result (λ pairs. pairs ≡ map.added_pairs (pages_of words.now) (kernel_word words.now) (new_coffer id path.now root.now)) }
{
    let bucket = bucket_at(words, bucket_of(path));
    let ws = entry_words(alloc, path, root, read(words, bucket))?;
    let mut pairs = from_address(alloc, entry_at(words, id), &ws)?;
    pairs.push((bucket, u64::from(id)))?;
    Ok(Items::from_vec(pairs))
}

// Zeros for all words of a coffer's entry, and the word that led to it now leads past it.
fn dropped_pairs(alloc: Global, words: &Words, id: u16) -> Result<Pairs, AllocError>
    requires sound { IsSoundKernel words.now }
    requires there { has_coffer words.now id ≡ true }
    requires least { 1 ≤ id }
    requires most { id ≤ 256 }
    ensures { IfOk result (λ pairs. pairs ≡ map.dropped_pairs (pages_of words.now) (kernel_word words.now) id) }
{
    let path = read_path(alloc, words, id)?;
    let lead = leading_word(words, bucket_of(&path), id);
    let mut pairs = cleared(alloc, entry_at(words, id))?;
    put_pair(&mut pairs, (lead, next_of(words, id)))?;
    Ok(Items::from_vec(pairs))
}

#[cfg(test)]
mod tests;
