// Which numbers and paths coffers have.
ghost use Rattle.std.specs.Prelude.{◌≡◌, ◌≤◌, true, IfSome};
ghost use Rattle.kern_model.specs.KernelView.{pages_of};
ghost use Rattle.kern_model.specs.Journal.{kernel_word};
ghost use Rattle.kern_model.specs.KernelRules.{IsSoundKernel};
ghost use Rattle.kern_model.specs.PathMap as map;
ghost use Rattle.kern_roots.specs.Entries.{has_coffer};
ghost use Rattle.kern_roots.specs.Changes as spec;

use crate::reading::entry::is_there;
use crate::reading::fronts::coffer_at;
use kern_model::LAST_COFFER;
use pm_words::Words;

/// Whether a coffer has the number.
pub fn is_used(words: &Words, id: u16) -> bool
    requires { IsSoundKernel words.now }
    ensures used { result ≡ spec.is_used (pages_of words.now) (kernel_word words.now) id }
    ensures least { result ≡ true → 1 ≤ id }
    ensures most { result ≡ true → id ≤ 256 }
    ensures there { result ≡ true → has_coffer words.now id ≡ true }
{
    is_there(words, id)
}

/// Whether a coffer has just this path.
pub fn is_taken(words: &Words, path: &[u8]) -> bool
    requires { IsSoundKernel words.now }
    ensures { result ≡ spec.is_taken (pages_of words.now) (kernel_word words.now) path.now }
{
    coffer_at(words, path).is_some()
}

/// The least number that no coffer has.
pub fn free_id(words: &Words) -> Option<u16>
    requires { IsSoundKernel words.now }
    ensures least_free { result ≡ map.free_id (pages_of words.now) (kernel_word words.now) }
    ensures least { IfSome result (λ id. 1 ≤ id) }
    ensures most { IfSome result (λ id. id ≤ 256) }
{
    for id in 1..LAST_COFFER + 1 {
        if !is_there(words, id) {
            return Some(id);
        }
    }
    None
}
