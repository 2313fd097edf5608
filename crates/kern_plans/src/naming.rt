// The entry of a new coffer.
ghost use Rattle.std.specs.Prelude.{◌≡◌, IfOk};
ghost use Rattle.kern_model.specs.KernelView.{pages_of};
ghost use Rattle.kern_model.specs.Journal.{kernel_word};
ghost use Rattle.kern_model.specs.PathMap.{added_pairs};
ghost use Rattle.kern_model.specs.KernelRules.{IsSoundKernel};
ghost use Rattle.kern_model.specs.KernelCalls as calls;
ghost use Rattle.kern_roots.specs.Changes.{new_coffer};
ghost use Rattle.kern_plans.specs.Refusals.{TellsFirstDue, entry_refusals};

use kern_roots::{Pairs, Root, RootsFault, add};
use pm_words::Words;
use std::alloc::Global;
use tr_types::{KernAnswer, Path};

/// The number of a new coffer with this path, and the pairs that make its entry. `Taken` where a coffer
/// has the path, `TooMany` where there are 256 coffers.
pub fn new_entry(
    alloc: Global,
    words: &Words,
    path: &Path,
    root: &Root,
) -> Result<(u16, Pairs), KernAnswer>
    requires { IsSoundKernel words.now }
    ensures refused { TellsFirstDue (entry_refusals words.now path.now) result }
    ensures id { IfOk result (λ made. made.0 ≡ calls.next_id words.now) }
    ensures pairs { IfOk result (λ made. made.1 ≡ added_pairs (pages_of words.now) (kernel_word words.now) (new_coffer (calls.next_id words.now) path.now root.now)) }
{
    match add(alloc, words, path, root) {
        Ok(made) => Ok(made),
        Err(RootsFault::Taken) => Err(KernAnswer::Taken),
        Err(RootsFault::TooMany) => Err(KernAnswer::TooMany),
        Err(_) => Err(KernAnswer::NoMemory),
    }
}
