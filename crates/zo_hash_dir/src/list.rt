// Going through the names of a directory, one load at a time.
ghost use Rattle.std.specs.Prelude.{◌≡◌, ◌≢◌, ℕ, ◌+◌, ◌-◌, ◌*◌, ◌<◌, ◌≤◌, IsTrue};
ghost use Rattle.zo_layout.specs.Layout as layout;
ghost use Rattle.tr_types.specs.declared.action.Answer.{Answer};
ghost use Rattle.tr_types.specs.declared.action.Answer.TheVariants as answer;
ghost use Rattle.zo_hash_dir.specs.Scene.{Scene, IsShown};
ghost use Rattle.zo_hash_dir.specs.Looking.{LeadsAstray};
ghost use Rattle.zo_hash_dir.specs.Counting.{At, at_of, asked_word, Counts, CountsAll, ListKnows, ListKnowsAt, ListGives, IsListDamage, TellsListDamage, list_led_by, list_loads_left, ListLoadsFewer, ListWantsMore};

use crate::addresses::{entry_link, is_entry, loaded};
use tr_types::Answer;
use zo_layout::{ENTRIES_OF_PAGE, bucket_head, next_entry};
use zo_plan::{Addr, Link};

/// Goes through the names of a directory, bucket by bucket, and counts them.
#[derive(Clone, Copy, Debug)]
pub struct ListRun {
    dir: Addr,
    bucket: u8,
    names: u64,
    /// How many entries are visited at most.
    most: u64,
    asked: Asked,
}

/// What was asked for last.
#[derive(Clone, Copy, Debug)]
enum Asked {
    Nothing,
    /// The bucket's first entry.
    Head,
    /// The entry behind this one, to which the word at `before` leads.
    Next { before: u64, entry: Addr },
}

/// What a list does next.
#[derive(Clone, Copy, Debug, PartialEq, Eq)]
pub enum ListStep {
    Load(u64),
    /// So many names there are.
    Counted(u64),
    /// The word at this address leads nowhere that the layout allows, or to one entry too many.
    Damaged(u64),
}

impl ListRun {
    /// Goes through the directory at `dir`, in a coffer of this many pages.
    pub fn begin(dir: Addr, pages: u32) -> ListRun
        ensures dir { result.dir ≡ dir }
        ensures asked { result.asked ≡ Asked.Nothing }
        ensures begins { (s : Scene) (first : Answer) → IsShown s dir.at pages → ListKnows result first s }
        ensures bound { list_loads_left result ≡ 256 + 12 * pages }
    {
        ListRun {
            dir,
            bucket: 0,
            names: 0,
            most: ENTRIES_OF_PAGE * u64::from(pages),
            asked: Asked::Nothing,
        }
    }

    /// Goes on with the answer to the last load. The first call has no use for its answer.
    pub fn next(&mut self, answer: &Answer) -> ListStep
        ensures dir { self.new.dir ≡ self.old.dir }
        ensures first { self.old.asked ≡ Asked.Nothing → result ≡ ListStep.Load (layout.bucket_head self.old.dir.at self.old.bucket) }
        ensures gives { (s : Scene) → ListKnows self.old answer.now s → ListGives self.new s result }
        ensures damaged { TellsListDamage result (IsListDamage self.old answer.now) }
        ensures fewer { ListLoadsFewer result (list_loads_left self.old) self.new }
    {
        if let Asked::Nothing = self.asked {
            return self.ask(Asked::Head);
        }
        match loaded(answer) {
            Some(word) => self.follow(word),
            None => ListStep::Damaged(self.led_by()),
        }
    }

    /// Whether this answer to the last load leads on to an entry, and no more may be visited.
    pub fn wants_more(&self, answer: &Answer) -> bool
        ensures { IsTrue result → ListWantsMore self.now answer.now }
    {
        match loaded(answer) {
            Some(word) => self.names >= self.most && is_entry(word),
            None => false,
        }
    }

    // Goes on to the entry that the loaded word leads to.
    fn follow(&mut self, word: u64) -> ListStep
        ensures dir { self.new.dir ≡ self.old.dir }
        ensures gives { (s : Scene) → Counts s self.old.dir.at self.old.most self.old.bucket self.old.names (asked_word (at_of self.old) self.old.asked)
            → word ≡ s.at (asked_word (at_of self.old) self.old.asked) → ListGives self.new s result }
        ensures damaged { TellsListDamage result (λ addr. LeadsAstray (self.old.most - self.old.names) word × (addr ≡ asked_word (at_of self.old) self.old.asked)) }
        ensures fewer { ListLoadsFewer result (255 - self.old.bucket + (self.old.most - self.old.names)) self.new }
    {
        let before = self.asked_word();
        match entry_link(word) {
            Link::End => self.next_bucket(),
            Link::To(entry) if self.names < self.most => {
                self.names += 1;
                self.ask(Asked::Next { before, entry })
            }
            _ => ListStep::Damaged(before),
        }
    }

    // Goes on with the next bucket, once all names of this one are counted.
    fn next_bucket(&mut self) -> ListStep
        ensures dir { self.new.dir ≡ self.old.dir }
        ensures gives { (s : Scene) → CountsAll s self.old.dir.at self.old.most self.old.bucket self.old.names → ListGives self.new s result }
        ensures damaged { TellsListDamage result (λ addr. ⊥) }
        ensures fewer { ListLoadsFewer result (255 - self.old.bucket + (self.old.most - self.old.names)) self.new }
    {
        if self.bucket == u8::MAX {
            return ListStep::Counted(self.names);
        }
        self.bucket += 1;
        self.ask(Asked::Head)
    }

    fn ask(&mut self, asked: Asked) -> ListStep
        ensures dir { self.new.dir ≡ self.old.dir }
        ensures at { at_of self.new ≡ at_of self.old }
        ensures asked { self.new.asked ≡ asked }
        ensures load { result ≡ ListStep.Load (asked_word (at_of self.old) asked) }
    {
        self.asked = asked;
        ListStep::Load(self.asked_word())
    }

    // The address of the word that was asked for.
    fn asked_word(&self) -> u64
        ensures { result ≡ asked_word (at_of self.now) self.now.asked }
    {
        match self.asked {
            Asked::Nothing | Asked::Head => bucket_head(self.dir.at, self.bucket),
            Asked::Next { entry, .. } => next_entry(entry.at),
        }
    }

    // The address of the word that led to what was asked for: it is damaged where that can't be loaded.
    fn led_by(&self) -> u64
        ensures { result ≡ list_led_by self.now.dir.at self.now.asked }
    {
        match self.asked {
            Asked::Nothing | Asked::Head => self.dir.at,
            Asked::Next { before, .. } => before,
        }
    }
}
