// Which coffers there are, by number and by path.
ghost use Rattle.std.specs.Prelude.{◌≡◌, IfOk, IfErr, OnOk, IsSome, Some, true, option_map};
ghost use Rattle.tr_types.specs.Paths.{is_path_text};
ghost use Rattle.kern_model.specs.Kernel.{coffers};
ghost use Rattle.kern_model.specs.KernelRules.{IsSoundKernel};
ghost use Rattle.kern_model.specs.KernelTables.{Coffer};
ghost use Rattle.kern_model.specs.PathMap.{coffer_of_path, coffer_above, coffer_with, children_of};
ghost use Rattle.kern_roots.specs.Reading.{root_of, found_of, IsRefused};
ghost use Rattle.kern_roots.specs.Fronts.{is_child_of};

pub mod entry;
pub mod fronts;

use crate::types::{Found, Root, RootsFault};
use entry::{is_there, read_path, read_root};
use fronts::longest_front;
use kern_model::{LAST_COFFER, ROOT_COFFER};
use pm_words::Words;
use std::alloc::{AllocError, Global};
use tr_types::Path;

/// The coffer that a path lies in: the one with the longest path that the path begins with, by whole
/// names. Takes no memory. Its cost grows with the path's length, and not with the number of coffers.
pub fn find(words: &Words, path: &Path) -> Found
    requires sound { IsSoundKernel words.now }
    requires path { is_path_text path.now ≡ true }
    ensures { option_map (found_of path.now) (coffer_of_path (coffers words.now) path.now) ≡ Some result }
{
    let bytes = path.as_bytes();
    let front = longest_front(words, bytes, bytes.len());
    Found {
        id: front.id,
        exact: front.end == bytes.len(),
        path_len: front.end as u16,
    }
}

/// The coffer that lies above a path: the one with the longest path that the path begins with, by whole
/// names, and isn't. None lies above `/`. Takes no memory.
pub fn above(words: &Words, path: &Path) -> Option<u16>
    requires sound { IsSoundKernel words.now }
    requires path { is_path_text path.now ≡ true }
    ensures { result ≡ option_map (λ (c : Coffer). c.id) (coffer_above (coffers words.now) path.now) }
{
    let bytes = path.as_bytes();
    if bytes.len() < 2 {
        return None;
    }
    Some(longest_front(words, bytes, bytes.len() - 1).id)
}

/// What the entry of a coffer says; none where there is no such coffer. Takes no memory.
pub fn entry_of(words: &Words, id: u16) -> Option<Root>
    requires sound { IsSoundKernel words.now }
    ensures { result ≡ option_map root_of (coffer_with (coffers words.now) id) }
{
    if is_there(words, id) {
        Some(read_root(words, id))
    } else {
        None
    }
}

/// The path of a coffer.
pub fn path_of(alloc: Global, words: &Words, id: u16) -> Result<Path, RootsFault>
    requires sound { IsSoundKernel words.now }
    ensures ok { IfOk result (λ path. option_map (λ (c : Coffer). c.path) (coffer_with (coffers words.now) id) ≡ Some path) }
    ensures err { IfErr result (IsRefused (coffer_with (coffers words.now) id)) }
{
    if !is_there(words, id) {
        return Err(RootsFault::NoCoffer);
    }
    let path = read_path(alloc, words, id)?;
    Ok(Path::new(path))
}

/// The coffers that lie directly under a coffer, the least number first. It costs a look for the coffer
/// above each coffer's path.
pub fn children(alloc: Global, words: &Words, id: u16) -> Result<Vec<u16>, RootsFault>
    requires sound { IsSoundKernel words.now }
    ensures ok { IfOk result (λ ids. ids.items ≡ children_of (coffers words.now) id) }
    ensures there { OnOk result (IsSome (coffer_with (coffers words.now) id)) }
    ensures err { IfErr result (IsRefused (coffer_with (coffers words.now) id)) }
{
    if !is_there(words, id) {
        return Err(RootsFault::NoCoffer);
    }
    let ids = list_children(alloc, words, id)?;
    Ok(ids)
}

// The coffers that lie directly under the coffer `id`, the least number first.
fn list_children(alloc: Global, words: &Words, id: u16) -> Result<Vec<u16>, AllocError>
    requires sound { IsSoundKernel words.now }
    ensures { IfOk result (λ ids. ids.items ≡ children_of (coffers words.now) id) }
{
    let mut ids = Vec::new(alloc);
    for other in 1..=LAST_COFFER {
        if is_child(alloc, words, other, id)? {
            ids.push(other)?;
        }
    }
    Ok(ids)
}

// Whether there is a coffer `other`, and it lies directly under the coffer `id`.
fn is_child(alloc: Global, words: &Words, other: u16, id: u16) -> Result<bool, AllocError>
    requires sound { IsSoundKernel words.now }
    ensures { IfOk result (λ child. child ≡ is_child_of words.now other id) }
{
    if other == ROOT_COFFER || !is_there(words, other) {
        return Ok(false);
    }
    let path = read_path(alloc, words, other)?;
    Ok(longest_front(words, &path, path.len() - 1).id == id)
}
