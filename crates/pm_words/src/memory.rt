//! The words of a running machine.

ghost use Rattle.std.specs.Prelude.{◌≡◌, ◌≢◌, ◌*◌, ◌/◌, ◌<◌, ◌≤◌, ◌^◌, length, replicate, ℕ, false, IsOk, IfOk, OnOk, OnErr};
ghost use Rattle.pm_words.specs.Word.{crash_list};
ghost use Rattle.pm_words.specs.Memory.{word_at, store_at, cas_at, flush_at, fence_by, present_values, all_durable, IsAddress, IsLineDurable, HasPages};
ghost use Rattle.pm_words.specs.Crash.{after_crash};

use super::crash::settle;
use super::fences::fence_lines;
use super::marked::Lines;
use super::pending::{Line, flush_line, keep, older_of};
use super::{Choice, Image, NoMemory};
use indexmap::IndexMap;
use std::alloc::Global;
use std::marker::Model;

const WORD_BYTES: u64 = 8;

const PAGE_WORDS: usize = 512;

/// Bytes of a line, of which a flush marks the words.
pub const LINE_BYTES: u64 = 64;

/// The words of a running machine, in 64 to 16,384 pages of 512 words.
///
/// A durable word takes 8 bytes. A line of 8 words of which one is pending, so that a crash may set it
/// back, takes an entry more. The entry has no allocation of its own while the line has at most 8 older
/// values and one mark. Each thread's marked lines are kept by themselves, so that its fence comes to
/// no other line.
#[derive(Drop)]
pub struct Words {
    present: Vec<u64>,
    pending: IndexMap<usize, Line>,
    marked: IndexMap<u16, Lines>,
    alloc: Global,
}

impl Model for Words {
    ghost use Rattle.std.specs.Prelude.{List, length};
    ghost use Rattle.pm_words.specs.Word.{Word};
    ghost use Rattle.pm_words.specs.View.{words_of, IsSound};

    ghost Value = { List Word };

    ghost view = { λ m. words_of m.pending.entries m.present.items };

    ghost invariant = { λ m. IsSound (length m.present.items) m.marked.entries m.pending.entries };
}

impl Words {
    /// This many pages of words that are 0, all durable.
    pub fn blank(alloc: Global, pages: u32) -> Result<Words, NoMemory>
        requires least { 64 ≤ pages }
        requires most { pages ≤ 16384 }
        ensures ok { IfOk result (λ w. w ≡ all_durable (replicate (512 * pages) 0)) }
        ensures len { IfOk result (λ w. length w ≡ 512 * pages) }
    {
        let words = vec![in alloc; 0; PAGE_WORDS * pages as usize]?;
        Words::of_image(alloc, Image::new(words))
    }

    /// The words of an image, all durable. No word is copied, and no memory taken.
    #[tactic(auto, using(crate::proofs::ViewLemmas::no_entries, crate::proofs::ViewLemmas::length_words_of))]
    pub fn of_image(alloc: Global, image: Image) -> Result<Words, NoMemory>
        requires { HasPages (length image) }
        ensures ok { IfOk result (λ w. w ≡ all_durable image) }
        ensures len { IfOk result (λ w. length w ≡ length image) }
    {
        Ok(Words {
            present: image.into_words(),
            pending: IndexMap::new(alloc),
            marked: IndexMap::new(alloc),
            alloc,
        })
    }

    /// How many pages of 512 words there are.
    #[tactic(auto, using(crate::proofs::ViewLemmas::length_words_of))]
    pub fn pages(&self) -> u32
        ensures pages { length self.now ≡ 512 * result }
        ensures size { HasPages (length self.now) }
    {
        (self.present.len() / PAGE_WORDS) as u32
    }

    /// The present value of the word at a byte address. Takes no memory.
    #[tactic(auto, using(crate::proofs::ViewLemmas::length_words_of, crate::proofs::ViewLemmas::words_of_at))]
    pub fn load(&self, addr: u64) -> u64
        requires { IsAddress (length self.now) addr }
        ensures value { result ≡ (word_at self.now addr).present }
    {
        self.present[word_index(addr)]
    }

    /// Stores a value in the word at a byte address. An error leaves the memory as it was.
    #[tactic(auto, using(crate::proofs::ViewLemmas::length_words_of))]
    pub fn store(&mut self, addr: u64, word: u64) -> Result<(), NoMemory>
        requires { IsAddress (length self.old) addr }
        ensures ok { OnOk result (self.new ≡ store_at addr word self.old) }
        ensures err { OnErr result (self.new ≡ self.old) }
        ensures len { length self.new ≡ length self.old }
    {
        let index = word_index(addr);
        keep(&mut self.pending, self.alloc, index, self.present[index])?;
        self.present[index] = word;
        Ok(())
    }

    /// Stores `new` exactly where the word at a byte address has the value `old`. Answers the value
    /// that was there. An error leaves the memory as it was, and doesn't come where the value is another.
    pub fn cas(&mut self, addr: u64, old: u64, new: u64) -> Result<u64, NoMemory>
        requires { IsAddress (length self.old) addr }
        ensures value { IfOk result (λ value. value ≡ (word_at self.old addr).present) }
        ensures ok { OnOk result (self.new ≡ cas_at addr old new self.old) }
        ensures err { OnErr result (self.new ≡ self.old) }
        ensures len { length self.new ≡ length self.old }
        ensures other { (word_at self.old addr).present ≢ old → IsOk result × (self.new ≡ self.old) }
    {
        let value = self.load(addr);
        if value == old {
            self.store(addr, new)?;
        }
        Ok(value)
    }

    /// Marks, for a thread, the present values of the 8 words of the line that a byte address is in.
    /// An error leaves the memory as it was. Where all these words are durable, this changes nothing,
    /// takes no memory and can't fail.
    #[tactic(auto, using(crate::proofs::ViewLemmas::length_words_of))]
    pub fn flush(&mut self, thread: u16, addr: u64) -> Result<(), NoMemory>
        requires { IsAddress (length self.old) addr }
        ensures ok { OnOk result (self.new ≡ flush_at thread addr self.old) }
        ensures err { OnErr result (self.new ≡ self.old) }
        ensures len { length self.new ≡ length self.old }
        ensures durable { IsLineDurable self.old addr → IsOk result × (self.new ≡ self.old) }
    {
        flush_line(
            &mut self.pending,
            &mut self.marked,
            self.alloc,
            thread,
            line_index(addr),
        )
    }

    /// Makes the values that a thread has marked durable, in time in proportion to its flushes since its
    /// last fence. Takes no memory.
    #[tactic(auto, using(crate::proofs::ViewLemmas::length_words_of))]
    pub fn fence(&mut self, thread: u16)
        ensures words { self.new ≡ fence_by thread self.old }
        ensures len { length self.new ≡ length self.old }
    {
        match self.marked.swap_remove(&thread) {
            Some(lines) => fence_lines(&mut self.pending, thread, &lines),
            None => {}
        }
    }

    /// The values that a crash may leave in the word at a byte address, the durable one first and the
    /// present one last.
    #[tactic(auto, using(crate::proofs::ViewLemmas::length_words_of, crate::proofs::ViewLemmas::words_of_at))]
    pub fn pending(&self, addr: u64) -> Result<Vec<u64>, NoMemory>
        requires { IsAddress (length self.now) addr }
        ensures list { IfOk result (λ list. list.items ≡ crash_list (word_at self.now addr)) }
    {
        let index = word_index(addr);
        let mut list = older_of(&self.pending, self.alloc, index)?;
        list.push(self.present[index])?;
        Ok(list)
    }

    /// Leaves in each word the value of its list that the choice names. All words are durable after.
    /// Takes no memory, and time in proportion to the words that are pending.
    #[tactic(auto, using(crate::proofs::ViewLemmas::length_words_of))]
    pub fn crash(&mut self, pick: Choice)
        ensures words { self.new ≡ after_crash pick self.old }
        ensures len { length self.new ≡ length self.old }
    {
        settle(&mut self.present, &mut self.pending, pick);
        self.marked.clear();
    }

    /// The present value of each word.
    #[tactic(auto, using(crate::proofs::ViewLemmas::present_words_of, crate::proofs::ViewLemmas::length_words_of))]
    pub fn image(&self) -> Result<Image, NoMemory>
        ensures ok { IfOk result (λ image. image ≡ present_values self.now) }
        ensures len { IfOk result (λ image. length image ≡ length self.now) }
        ensures size { IfOk result (λ image. HasPages (length image)) }
    {
        let words = Vec::from_slice(self.alloc, &self.present)?;
        Ok(Image::new(words))
    }

    /// The present value of each word, at the end of a memory. No copy is made.
    #[tactic(auto, using(crate::proofs::ViewLemmas::present_words_of))]
    pub fn into_image(self) -> Image
        ensures { result ≡ present_values self }
    {
        let Words { present, .. } = self;
        Image::new(present)
    }
}

// The place of the word at a byte address.
fn word_index(addr: u64) -> usize
    ensures place { result ≡ addr / 8 }
{
    (addr / WORD_BYTES) as usize
}

// The place of the line that a byte address is in.
fn line_index(addr: u64) -> usize
    ensures place { result ≡ addr / 64 }
{
    (addr / LINE_BYTES) as usize
}
