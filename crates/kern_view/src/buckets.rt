// The rule of the path buckets.
ghost use Rattle.std.specs.Prelude.{◌≡◌, ℕ, ◌<◌, ◌≤◌, ◌&&◌, not, length, true, false, slice_index_or};
ghost use Rattle.std.specs.List.{list_all, filter};
ghost use Rattle.kern_model.specs.KernelView.{pages_of};
ghost use Rattle.kern_model.specs.Journal.{kernel_word};
ghost use Rattle.kern_model.specs.KernelTables as spec;
ghost use Rattle.kern_view.specs.RuleParts.{IsLeast, is_in_bucket};

use crate::tables::Tables;
use kern_model::LAST_COFFER;
use zo_layout::{coffer_next, path_bucket};

/// A mark for each coffer by its number; that of number 0 stays unused.
const MARKS: usize = 257;

/// A chain that has no coffer twice ends within so many steps.
const LONGEST_CHAIN: u16 = 257;

impl<'a> Tables<'a> {
    /// The first path bucket that breaks the rule of the path buckets.
    pub fn first_bad_bucket(&self) -> Option<u8>
        ensures { IsLeast (spec.bucket_fails (pages_of self.now) (kernel_word self.now)) 0 256 result }
    {
        for bucket in 0..=u8::MAX {
            if self.bucket_fails(bucket) {
                return Some(bucket);
            }
        }
        None
    }

    fn bucket_fails(&self, bucket: u8) -> bool
        ensures { result ≡ spec.bucket_fails (pages_of self.now) (kernel_word self.now) bucket }
    {
        let mut seen = [false; MARKS];
        !self.mark_chain(bucket, &mut seen) || self.lacks_one(bucket, &seen)
    }

    // Marks the coffers of a bucket's chain. Answers whether all of them belong to the bucket, and none
    // stands twice; else some are marked.
    fn mark_chain(&self, bucket: u8, seen: &mut [bool]) -> bool
        requires len { length seen.old ≡ 257 }
        requires blank { (id : ℕ) → slice_index_or seen.old id false ≡ false }
        ensures good { result ≡ (list_all (spec.belongs (pages_of self.now) (kernel_word self.now) bucket) (spec.chain_in (pages_of self.now) (kernel_word self.now) bucket)
            && spec.none_twice (spec.chain_in (pages_of self.now) (kernel_word self.now) bucket)) }
        ensures marked { result ≡ true → (id : ℕ) → id ≤ 256 → slice_index_or seen.new id false ≡ spec.is_in_chain id (spec.chain_in (pages_of self.now) (kernel_word self.now) bucket) }
    {
        let mut id = self.word(path_bucket(self.pages(), bucket));
        for _ in 0..LONGEST_CHAIN {
            if id == 0 {
                return true;
            }
            if !self.belongs(bucket, id) || seen[id as usize] {
                return false;
            }
            seen[id as usize] = true;
            id = self.word(coffer_next(self.entry(id as u16)));
        }
        true
    }

    // Whether a coffer that belongs to the bucket isn't marked.
    fn lacks_one(&self, bucket: u8, seen: &[bool]) -> bool
        requires { length seen.now ≡ 257 }
        ensures { result ≡ not (list_all (λ id. slice_index_or seen.now id false) (filter (spec.belongs (pages_of self.now) (kernel_word self.now) bucket) spec.all_ids)) }
    {
        for id in 1..LAST_COFFER + 1 {
            if self.belongs(bucket, u64::from(id)) && !seen[usize::from(id)] {
                return true;
            }
        }
        false
    }

    // Whether a word is the number of a coffer that is there and whose path belongs to the bucket.
    fn belongs(&self, bucket: u8, word: u64) -> bool
        ensures value { result ≡ spec.belongs (pages_of self.now) (kernel_word self.now) bucket word }
        ensures least { result ≡ true → 1 ≤ word }
        ensures most { result ≡ true → word ≤ 256 }
    {
        self.is_coffer(word) && self.is_in_bucket(bucket, word as u16)
    }

    // Whether the path of a coffer that is there belongs to the bucket.
    fn is_in_bucket(&self, bucket: u8, id: u16) -> bool
        requires least { 1 ≤ id }
        requires most { id ≤ 256 }
        ensures { result ≡ is_in_bucket (pages_of self.now) (kernel_word self.now) bucket id }
    {
        match self.path(id) {
            Some(path) => path.bucket() == bucket,
            None => false,
        }
    }
}
