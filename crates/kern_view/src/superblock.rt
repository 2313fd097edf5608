// Whether the superblock and the journal can be used.
ghost use Rattle.std.specs.Prelude.{◌≡◌, ◌↔◌, ◌<◌, ◌≤◌, ◌/◌, length, true, MatchOption, IsTrue};
ghost use Rattle.pm_words.specs.Memory.{word_at, HasPages};
ghost use Rattle.kern_model.specs.KernelView.{pages_of};
ghost use Rattle.kern_model.specs.KernelRules as rules;
ghost use Rattle.kern_view.specs.RuleParts.{HasSuperblock, IsTarget};

use kern_journal::{capacity, committed_count};
use kern_model::{TREASURY, VERSION};
use pm_words::Words;
use zo_layout::{
    WORD_BYTES, count_word, owner_table, page_at, pair_address, signature_word, version_word,
};

/// The first address of the superblock at which a word isn't as an image of this size has it.
pub fn superblock_fault(words: &Words) -> Option<u64>
    ensures fault { MatchOption result (HasSuperblock words.now) (rules.FailsFirst words.now rules.Superblock) }
    ensures size { HasPages (length words.now) }
{
    let pages = u64::from(words.pages());
    if words.load(signature_word()) != TREASURY {
        Some(signature_word())
    } else if words.load(version_word()) != VERSION {
        Some(version_word())
    } else if words.load(count_word()) != pages {
        Some(count_word())
    } else {
        None
    }
}

/// Whether the committed pairs can be finished: the journal has room for so many, and each is for a
/// word of the image that is neither the journal's nor one of those that the superblock has.
pub fn is_finishable(words: &Words) -> bool
    ensures { IsTrue result ↔ rules.IsFinishable words.now }
{
    let count = committed_count(words);
    if count > u64::from(capacity(words)) {
        return false;
    }
    for i in 0..count as u32 {
        if !is_target(words, words.load(pair_address(i))) {
            return false;
        }
    }
    true
}

// Whether a pair may be for a byte address.
fn is_target(words: &Words, addr: u64) -> bool
    ensures { IsTrue result ↔ IsTarget words.now addr }
{
    let pages = words.pages();
    let is_word = addr % WORD_BYTES == 0 && addr < page_at(pages);
    let in_journal = page_at(1) <= addr && addr < page_at(owner_table(pages));
    let in_superblock = addr <= count_word();
    is_word && !in_journal && !in_superblock
}
