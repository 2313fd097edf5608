// The coffer of a path, looked for by the path's fronts of whole names.
ghost use Rattle.std.specs.Prelude.{◌≡◌, ◌≤◌, ◌<◌, length, take, true, Some};
ghost use Rattle.tr_types.specs.Paths.{is_path_text};
ghost use Rattle.kern_model.specs.Kernel.{coffers};
ghost use Rattle.kern_model.specs.KernelRules.{IsSoundKernel};
ghost use Rattle.kern_roots.specs.Entries as entries;
ghost use Rattle.kern_roots.specs.Fronts as spec;

use super::entry::{has_path, next_of, read};
use kern_model::ROOT_COFFER;
use pm_words::Words;
use zo_layout::{bucket_of, path_bucket};

/// More coffers than a chain can have.
pub const LONGEST_CHAIN: u16 = 257;

/// A coffer whose path is the first `end` bytes of another path.
#[derive(Clone, Copy, Debug)]
pub struct Front {
    pub id: u16,
    pub end: usize,
}

/// The coffer with the longest path of those that the path begins with, by whole names, and that have
/// paths of at most `most` bytes.
pub fn longest_front(words: &Words, path: &[u8], most: usize) -> Front
    requires sound { IsSoundKernel words.now }
    requires path { is_path_text path.now ≡ true }
    requires least { 1 ≤ most }
    requires most { most ≤ length path.now }
    ensures coffer { spec.coffer_within (coffers words.now) path.now most ≡ Some (entries.coffer_of words.now result.id) }
    ensures front { entries.path_of words.now result.id ≡ take result.end path.now }
    ensures end { result.end ≤ most }
    ensures short { result.end ≤ 440 }
{
    let mut end = most;
    while end > 1 {
        if let Some(id) = coffer_at_front(words, path, end) {
            return Front { id, end };
        }
        end -= 1;
    }
    Front {
        id: ROOT_COFFER,
        end: 1,
    }
}

// The coffer whose path is the first `end` bytes of a path, where a name ends there.
fn coffer_at_front(words: &Words, path: &[u8], end: usize) -> Option<u16>
    requires sound { IsSoundKernel words.now }
    requires least { 2 ≤ end }
    requires most { end ≤ length path.now }
    ensures { spec.IsCofferAtFront words.now path.now end result }
{
    if !ends_name(path, end) {
        return None;
    }
    coffer_at(words, &path[..end])
}

// Whether a name of a path ends before the byte at `end`.
fn ends_name(path: &[u8], end: usize) -> bool
    requires { end ≤ length path.now }
    ensures { result ≡ spec.ends_name path.now end }
{
    if end == path.len() {
        return true;
    }
    path[end] == b'/'
}

/// The coffer that has just this path.
pub fn coffer_at(words: &Words, path: &[u8]) -> Option<u16>
    requires sound { IsSoundKernel words.now }
    ensures { spec.IsCofferAt words.now path.now result }
{
    let mut next = read(words, path_bucket(words.pages(), bucket_of(path)));
    for _step in 0..LONGEST_CHAIN {
        if next == 0 {
            return None;
        }
        let id = next as u16;
        if has_path(words, id, path) {
            return Some(id);
        }
        next = next_of(words, id);
    }
    None
}
