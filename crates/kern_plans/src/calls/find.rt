// Looking for coffers.
ghost use Rattle.std.specs.Prelude.{◌≡◌, ◌==◌, ◌||◌, nat_lt, List, length, count_by};
ghost use Rattle.tr_types.specs.Paths.{names_of};
ghost use Rattle.kern_model.specs.KernelRules.{IsSoundKernel};
ghost use Rattle.kern_model.specs.KernelCalls.{find_row, row_answer, found_for, is_bad_look as spec_bad_look, IsPathText, IsPathOrNone};
ghost use Rattle.tr_types.specs.declared.kernel_call.Holder.{Holder};

use kern_roots::entry_of;
use pm_words::Words;
use tr_types::{FoundAt, KernAnswer, Path};

/// The most bytes of a path that is looked for.
const MOST_BYTES: usize = kern_model::LONGEST_LOOK as usize;

/// The most names of a path that is looked for.
const MOST_NAMES: usize = kern_model::MOST_NAMES as usize;

/// The coffer of a path, and of a second one where it is given. `BadPath` where one of them has over
/// 1,024 bytes or 32 names. Takes no memory.
pub fn find(words: &Words, path: &Path, also: &Option<Path>) -> KernAnswer
    requires sound { IsSoundKernel words.now }
    requires path { IsPathText path.now }
    requires also { IsPathOrNone also.now }
    ensures { (holders : List Holder) → result ≡ row_answer (find_row words.now holders path.now also.now) }
{
    if is_bad_look(path) {
        return KernAnswer::BadPath;
    }
    match also {
        None => KernAnswer::Found {
            first: found_at(words, path),
            second: None,
        },
        Some(other) => {
            if is_bad_look(other) {
                return KernAnswer::BadPath;
            }
            KernAnswer::Found {
                first: found_at(words, path),
                second: Some(found_at(words, other)),
            }
        }
    }
}

// The coffer that a path lies in, with its permission.
fn found_at(words: &Words, path: &Path) -> FoundAt
    requires sound { IsSoundKernel words.now }
    requires path { IsPathText path.now }
    ensures { result ≡ found_for words.now path.now }
{
    let found = kern_roots::find(words, path);
    let root = entry_of(words, found.id).unwrap();
    FoundAt {
        id: found.id,
        exact: found.exact,
        path_len: found.path_len,
        perm: root.perm,
    }
}

// Whether a path is too long to be looked for, in bytes or in names.
fn is_bad_look(path: &Path) -> bool
    requires { IsPathText path.now }
    ensures { result ≡ spec_bad_look path.now }
{
    let bytes = path.as_bytes();
    is_long(bytes.len(), count_names(bytes))
}

fn is_long(bytes: usize, names: usize) -> bool
    ensures { result ≡ (nat_lt 1024 bytes || nat_lt 32 names) }
{
    MOST_BYTES < bytes || MOST_NAMES < names
}

// How many names a path has: each stands after a `/`, and `/` alone has none.
fn count_names(path: &[u8]) -> usize
    requires { IsPathText path.now }
    ensures { result ≡ length (names_of path.now) }
{
    if path.len() == 1 {
        0
    } else {
        count_slashes(path)
    }
}

fn count_slashes(path: &[u8]) -> usize
    ensures { result ≡ count_by (λ byte. byte == 47) path.now }
{
    path.iter().filter(|byte| **byte == b'/').count()
}
