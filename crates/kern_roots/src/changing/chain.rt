// The chain of a path bucket.
ghost use Rattle.std.specs.Prelude.{◌≡◌, length};
ghost use Rattle.zo_layout.specs.Layout as layout;
ghost use Rattle.pm_words.specs.Memory.{IsAddress};
ghost use Rattle.kern_model.specs.KernelView.{pages_of};
ghost use Rattle.kern_model.specs.Journal as journal;
ghost use Rattle.kern_model.specs.KernelRules.{IsSoundKernel};
ghost use Rattle.kern_model.specs.KernelTables.{chain_in};
ghost use Rattle.kern_model.specs.PathMap as map;

use crate::reading::entry::{entry_at, next_of, read};
use crate::reading::fronts::LONGEST_CHAIN;
use pm_words::Words;
use zo_layout::{coffer_next, path_bucket};

/// The address of the word that has the first coffer of a bucket.
pub fn bucket_at(words: &Words, bucket: u8) -> u64
    ensures at { result ≡ layout.path_bucket (pages_of words.now) bucket }
    ensures inside { IsAddress (length words.now) result }
{
    path_bucket(words.pages(), bucket)
}

/// The address of the word that leads to a coffer in the chain of a bucket: the bucket's, or that of
/// the `next` of the coffer before it.
pub fn leading_word(words: &Words, bucket: u8, id: u16) -> u64
    requires { IsSoundKernel words.now }
    ensures { let pages = pages_of words.now in
        result ≡ map.leads_to pages (layout.path_bucket pages bucket) (chain_in pages (journal.kernel_word words.now) bucket) id }
{
    let mut place = bucket_at(words, bucket);
    let mut coffer = read(words, place);
    for _step in 0..LONGEST_CHAIN {
        if coffer == 0 {
            return place;
        }
        if coffer == u64::from(id) {
            return place;
        }
        let before = coffer as u16;
        place = coffer_next(entry_at(words, before));
        coffer = next_of(words, before);
    }
    place
}
