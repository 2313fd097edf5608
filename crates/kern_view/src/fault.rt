// The first rule that fails.
ghost use Rattle.std.specs.Prelude.{◌≡◌, length, MatchOption, IfOk};
ghost use Rattle.pm_words.specs.Memory.{HasPages};
ghost use Rattle.kern_model.specs.KernelRules.{FailsFirst, IsFirstFault, IsSoundKernel};
ghost use Rattle.kern_model.specs.KernelRules as rules;
ghost use Rattle.kern_view.specs.RuleParts.{AreGoodTables};

use crate::superblock::{is_finishable, superblock_fault};
use crate::tables::Tables;
use pm_words::{NoMemory, Words};
use std::alloc::Global;
use zo_layout::{coffer_entry, committed_word, owner_word, path_bucket};

/// The byte address at which the first rule of the kernel's pages fails, for an image of any content;
/// none where no rule fails.
///
/// The superblock is tried first, then the journal, then the tables with the committed pairs laid over
/// the words. In the first of the three that has a fault, the place is the least address of one. It
/// costs in proportion to the image's pages and the committed pairs. With 256 coffers the hashes of
/// 65,280 pairs of paths are compared.
pub fn first_fault(alloc: Global, words: &Words) -> Result<Option<u64>, NoMemory>
    ensures fault { IfOk result (λ fault. MatchOption fault (IsSoundKernel words.now) (IsFirstFault words.now)) }
    ensures size { HasPages (length words.now) }
{
    if let Some(place) = superblock_fault(words) {
        return Ok(Some(place));
    }
    if !is_finishable(words) {
        return Ok(Some(committed_word()));
    }
    let tables = Tables::read(alloc, words)?;
    Ok(tables.fault())
}

impl<'a> Tables<'a> {
    // The least address at which a rule of the tables fails.
    fn fault(&self) -> Option<u64>
        ensures { MatchOption result (AreGoodTables self.now) (FailsFirst self.now rules.Tables) }
    {
        let pages = self.pages();
        if let Some(page) = self.first_bad_page() {
            return Some(owner_word(pages, page));
        }
        if let Some(id) = self.first_bad_entry() {
            return Some(coffer_entry(pages, id));
        }
        match self.first_bad_bucket() {
            Some(bucket) => Some(path_bucket(pages, bucket)),
            None => None,
        }
    }
}
