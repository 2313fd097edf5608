// Finding a name in a directory, one load at a time.
ghost use Rattle.std.specs.Prelude.{◌≡◌, ◌≢◌, ℕ, ◌+◌, ◌*◌, ◌/◌, ◌<◌, List, length, IsTrue};
ghost use Rattle.zo_layout.specs.Layout as layout;
ghost use Rattle.zo_model.specs.Directory.{name_at};
ghost use Rattle.tr_types.specs.declared.action.Answer.{Answer};
ghost use Rattle.tr_types.specs.declared.action.Answer.TheVariants as answer;
ghost use Rattle.zo_hash_dir.specs.Scene.{Scene, IsShown, CanMake};
ghost use Rattle.zo_hash_dir.specs.Addresses.{IsTarget, IsEntryAddress, IsPageAddress};
ghost use Rattle.zo_hash_dir.specs.Looking.{aim_of, bucket_at, Walks, Agrees, IsEnd, KnowsVisit, KnowsEnd, KnowsAt, Knows, Stands, Gives, Keeps, asked_word, led_by, LeadsAstray, IsNoLink, IsBad, IsDamage, TellsDamage, FindsTarget, words_of_name, loads_after, loads_left, LoadsFewer, IsLast, HasWords, WantsMore};

use crate::addresses::{entry_link, is_entry, is_target, loaded, page_link};
use crate::name::Name;
use tr_types::Answer;
use zo_layout::{
    ENTRIES_OF_PAGE, bucket_head, entry_target, first_entry_page, first_free_entry, name_length,
    name_word, next_entry,
};
use zo_plan::{Addr, Link, Place};

/// Looks for a name in a directory.
#[derive(Debug, Drop)]
pub struct Lookup {
    dir: Addr,
    name: Name,
    purpose: Purpose,
    /// How many more entries are visited at most.
    left: u64,
    asked: Asked,
}

/// What the name is looked for.
#[derive(Clone, Copy, Debug, PartialEq, Eq)]
enum Purpose {
    /// To read what it names.
    Reading,
    /// To make an entry of this name where there is none.
    Making,
}

/// What was asked for last.
#[derive(Clone, Copy, Debug)]
enum Asked {
    Nothing,
    Head,
    /// The length of an entry's name.
    Length(Visit),
    /// Word `i` of the entry's name.
    Letters { visit: Visit, i: u32 },
    /// The entry's target.
    Target(Visit),
    /// The entry behind this one.
    Next(Visit),
    /// The directory's first free entry.
    Free(End),
    /// The free entry behind this one.
    FreeNext { end: End, free: Addr },
    /// The directory's first entry page.
    First(End),
}

/// An entry on the way along a bucket that begins with the word `head`. The word at `before` leads to the entry.
#[derive(Clone, Copy, Debug)]
struct Visit {
    head: u64,
    before: u64,
    entry: Addr,
}

/// The end of a bucket that begins with the word `head`. The word at `before` is the one that leads to no entry.
#[derive(Clone, Copy, Debug)]
struct End {
    head: u64,
    before: u64,
}

/// What a look-up does next.
#[derive(Clone, Copy, Debug, PartialEq, Eq)]
pub enum LookStep {
    Load(u64),
    /// The name stands at this place, with this target.
    Found { place: Place, target: u64 },
    /// The name doesn't stand.
    Missing { place: Place },
    /// The word at this address leads nowhere that the layout allows, or to one entry too many.
    Damaged(u64),
}

impl Lookup {
    /// Looks for a name in the directory at `dir`, in a coffer of this many pages. Of the place it tells the bucket and the entry;
    /// the directory's words are 0 there.
    pub fn begin(dir: Addr, name: Name, pages: u32) -> Lookup
        ensures dir { result.dir ≡ dir }
        ensures name { result.name ≡ name }
        ensures asked { result.asked ≡ Asked.Nothing }
        ensures purpose { result.purpose ≡ Purpose.Reading }
        ensures begins { (s : Scene) (first : Answer) → IsShown s dir.at pages → Knows result first s }
        ensures bound { loads_left result ≡ 3 + 12 * pages * (3 + words_of_name name) }
    {
        Lookup {
            dir,
            name,
            purpose: Purpose::Reading,
            left: ENTRIES_OF_PAGE * u64::from(pages),
            asked: Asked::Nothing,
        }
    }

    /// The same for a call that makes an entry of this name: where the name doesn't stand, the place tells the whole.
    pub fn to_make(dir: Addr, name: Name, pages: u32) -> Lookup
        ensures dir { result.dir ≡ dir }
        ensures name { result.name ≡ name }
        ensures asked { result.asked ≡ Asked.Nothing }
        ensures purpose { result.purpose ≡ Purpose.Making }
        ensures begins { (s : Scene) (first : Answer) → IsShown s dir.at pages → CanMake s dir.at → Knows result first s }
        ensures bound { loads_left result ≡ 3 + 12 * pages * (3 + words_of_name name) }
    {
        Lookup {
            purpose: Purpose::Making,
            ..Lookup::begin(dir, name, pages)
        }
    }

    /// Goes on with the answer to the last load. The first call has no use for its answer.
    pub fn next(&mut self, answer: &Answer) -> LookStep
        ensures keeps { Keeps self.old self.new }
        ensures first { self.old.asked ≡ Asked.Nothing → result ≡ LookStep.Load (bucket_at self.old.dir.at self.old.name) }
        ensures gives { (s : Scene) → Knows self.old answer.now s → Gives self.new s result }
        ensures damaged { TellsDamage result (IsDamage self.old answer.now) }
        ensures target { FindsTarget result }
        ensures fewer { LoadsFewer result (loads_left self.old) self.new }
    {
        if let Asked::Nothing = self.asked {
            return self.ask(Asked::Head);
        }
        match loaded(answer) {
            Some(word) => self.go_on(word),
            None => LookStep::Damaged(self.led_by()),
        }
    }

    /// Whether this answer to the last load leads on to an entry, and no more may be visited.
    pub fn wants_more(&self, answer: &Answer) -> bool
        ensures { IsTrue result → WantsMore self.now answer.now }
    {
        match (self.asked, loaded(answer)) {
            (Asked::Head | Asked::Next(_), Some(word)) => self.left == 0 && is_entry(word),
            _ => false,
        }
    }

    fn go_on(&mut self, word: u64) -> LookStep
        requires { self.old.asked ≢ Asked.Nothing }
        ensures keeps { Keeps self.old self.new }
        ensures gives { (s : Scene) → Stands (aim_of self.old) s → KnowsAt self.old.asked (answer.Word word) (aim_of self.old) s → Gives self.new s result }
        ensures damaged { TellsDamage result (λ addr. IsBad self.old.asked self.old.left word
            × (addr ≡ asked_word self.old.dir.at self.old.name self.old.asked)) }
        ensures target { FindsTarget result }
        ensures fewer { LoadsFewer result (loads_left self.old) self.new }
    {
        match self.asked {
            Asked::Nothing => unreachable!(),
            Asked::Head => self.follow(word, self.bucket(), word),
            Asked::Length(visit) => self.measure(visit, word),
            Asked::Letters { visit, i } => self.compare(visit, i, word),
            Asked::Target(visit) => self.found(visit, word),
            Asked::Next(visit) => self.follow(visit.head, next_entry(visit.entry.at), word),
            Asked::Free(end) => self.free(end, word),
            Asked::FreeNext { end, free } => self.free_next(end, free, word),
            Asked::First(end) => self.first(end, word),
        }
    }

    // The address of the word that led to what was asked for: it is damaged where that can't be loaded.
    fn led_by(&self) -> u64
        ensures { result ≡ led_by self.now.dir.at self.now.asked }
    {
        match self.asked {
            Asked::Nothing | Asked::Head | Asked::Free(_) | Asked::First(_) => self.dir.at,
            Asked::Length(visit)
            | Asked::Letters { visit, .. }
            | Asked::Target(visit)
            | Asked::Next(visit) => visit.before,
            Asked::FreeNext { .. } => first_free_entry(self.dir.at),
        }
    }

    // The address of the word that has the first entry of the name's bucket.
    fn bucket(&self) -> u64
        ensures { result ≡ bucket_at self.now.dir.at self.now.name }
    {
        bucket_head(self.dir.at, self.name.bucket())
    }

    fn ask(&mut self, asked: Asked) -> LookStep
        ensures keeps { Keeps self.old self.new }
        ensures aim { aim_of self.new ≡ aim_of self.old }
        ensures asked { self.new.asked ≡ asked }
        ensures load { result ≡ LookStep.Load (asked_word self.old.dir.at self.old.name asked) }
    {
        self.asked = asked;
        LookStep::Load(match asked {
            Asked::Nothing | Asked::Head => self.bucket(),
            Asked::Length(visit) => name_length(visit.entry.at),
            Asked::Letters { visit, i } => name_word(visit.entry.at, i),
            Asked::Target(visit) => entry_target(visit.entry.at),
            Asked::Next(visit) => next_entry(visit.entry.at),
            Asked::Free(_) => first_free_entry(self.dir.at),
            Asked::FreeNext { free, .. } => next_entry(free.at),
            Asked::First(_) => first_entry_page(self.dir.at),
        })
    }

    // Goes on to the entry that the word at `before` leads to.
    fn follow(&mut self, head: u64, before: u64, word: u64) -> LookStep
        ensures keeps { Keeps self.old self.new }
        ensures gives { (s : Scene) → Stands (aim_of self.old) s → Walks s self.old.dir.at self.old.name self.old.left before
            → head ≡ s.at (bucket_at self.old.dir.at self.old.name) → word ≡ s.at before → Gives self.new s result }
        ensures damaged { TellsDamage result (λ addr. LeadsAstray self.old.left word × (addr ≡ before)) }
        ensures target { FindsTarget result }
        ensures fewer { LoadsFewer result (2 + self.old.left * (3 + words_of_name self.old.name)) self.new }
    {
        match entry_link(word) {
            Link::End => self.missing(End { head, before }),
            Link::To(entry) if self.left > 0 => {
                self.left -= 1;
                self.ask(Asked::Length(Visit {
                    head,
                    before,
                    entry,
                }))
            }
            _ => LookStep::Damaged(before),
        }
    }

    // The length of the entry's name is known.
    fn measure(&mut self, visit: Visit, len: u64) -> LookStep
        ensures keeps { Keeps self.old self.new }
        ensures gives { (s : Scene) → Stands (aim_of self.old) s → KnowsVisit (aim_of self.old) s visit
            → len ≡ s.at (layout.name_length visit.entry.at) → Gives self.new s result }
        ensures damaged { TellsDamage result (λ addr. ⊥) }
        ensures target { FindsTarget result }
        ensures fewer { LoadsFewer result (loads_after (Asked.Length visit) self.old.name self.old.left) self.new }
    {
        if len == self.name.as_bytes().len() as u64 {
            self.letters(visit, 0)
        } else {
            self.ask(Asked::Next(visit))
        }
    }

    // Word `i` of the entry's name is known.
    fn compare(&mut self, visit: Visit, i: u32, word: u64) -> LookStep
        ensures keeps { Keeps self.old self.new }
        ensures gives { (s : Scene) → Stands (aim_of self.old) s → KnowsVisit (aim_of self.old) s visit
            → Agrees s.at self.old.name visit.entry.at (8 * i) → 8 * i < length self.old.name
            → word ≡ s.at (layout.name_word visit.entry.at i) → Gives self.new s result }
        ensures damaged { TellsDamage result (λ addr. ⊥) }
        ensures target { FindsTarget result }
        ensures fewer { LoadsFewer result (loads_after (Asked.Letters visit i) self.old.name self.old.left) self.new }
    {
        match i.checked_add(1) {
            Some(next) if self.name.has_letters(i, word) => self.letters(visit, next),
            _ => self.ask(Asked::Next(visit)),
        }
    }

    // The words of the entry's name before word `i` are this name's.
    fn letters(&mut self, visit: Visit, i: u32) -> LookStep
        ensures keeps { Keeps self.old self.new }
        ensures gives { (s : Scene) → Stands (aim_of self.old) s → KnowsVisit (aim_of self.old) s visit
            → Agrees s.at self.old.name visit.entry.at (8 * i) → Gives self.new s result }
        ensures damaged { TellsDamage result (λ addr. ⊥) }
        ensures target { FindsTarget result }
        ensures fewer { LoadsFewer result (1 + loads_after (Asked.Letters visit i) self.old.name self.old.left) self.new }
    {
        if self.name.has_word(i) {
            self.ask(Asked::Letters { visit, i })
        } else {
            self.ask(Asked::Target(visit))
        }
    }

    fn found(&self, visit: Visit, target: u64) -> LookStep
        ensures gives { (s : Scene) → Stands (aim_of self.now) s → KnowsVisit (aim_of self.now) s visit → name_at s.at visit.entry.at ≡ self.now.name
            → target ≡ s.at (layout.entry_target visit.entry.at) → Gives self.now s result }
        ensures damaged { TellsDamage result (λ addr. (IsTarget target → ⊥) × (addr ≡ layout.entry_target visit.entry.at)) }
        ensures target { FindsTarget result }
        ensures ends { IsLast result }
    {
        if is_target(target) {
            LookStep::Found {
                place: self.place(visit.head, visit.before, visit.entry.at),
                target,
            }
        } else {
            LookStep::Damaged(entry_target(visit.entry.at))
        }
    }

    fn missing(&mut self, end: End) -> LookStep
        ensures keeps { Keeps self.old self.new }
        ensures gives { (s : Scene) → Stands (aim_of self.old) s → KnowsEnd (aim_of self.old) s end → Gives self.new s result }
        ensures damaged { TellsDamage result (λ addr. ⊥) }
        ensures target { FindsTarget result }
        ensures fewer { LoadsFewer result 2 self.new }
    {
        match self.purpose {
            Purpose::Reading => LookStep::Missing {
                place: self.place(end.head, end.before, 0),
            },
            Purpose::Making => self.ask(Asked::Free(end)),
        }
    }

    // The directory's first free entry is known.
    fn free(&mut self, end: End, word: u64) -> LookStep
        ensures keeps { Keeps self.old self.new }
        ensures gives { (s : Scene) → Stands (aim_of self.old) s → KnowsEnd (aim_of self.old) s end → self.old.purpose ≡ Purpose.Making
            → word ≡ s.at (layout.first_free_entry self.old.dir.at) → Gives self.new s result }
        ensures damaged { TellsDamage result (λ addr. IsNoLink IsEntryAddress word × (addr ≡ layout.first_free_entry self.old.dir.at)) }
        ensures target { FindsTarget result }
        ensures fewer { LoadsFewer result 1 self.new }
    {
        match entry_link(word) {
            Link::End => self.ask(Asked::First(end)),
            Link::To(free) => self.ask(Asked::FreeNext { end, free }),
            Link::Astray => LookStep::Damaged(first_free_entry(self.dir.at)),
        }
    }

    // The free entry behind the first one is known.
    fn free_next(&self, end: End, free: Addr, word: u64) -> LookStep
        ensures gives { (s : Scene) → Stands (aim_of self.now) s → KnowsEnd (aim_of self.now) s end → self.now.purpose ≡ Purpose.Making
            → free.at ≡ s.at (layout.first_free_entry self.now.dir.at) → word ≡ s.at (layout.next_entry free.at) → Gives self.now s result }
        ensures damaged { TellsDamage result (λ addr. IsNoLink IsEntryAddress word × (addr ≡ layout.next_entry free.at)) }
        ensures target { FindsTarget result }
        ensures ends { IsLast result }
    {
        match entry_link(word) {
            Link::Astray => LookStep::Damaged(next_entry(free.at)),
            _ => LookStep::Missing {
                place: Place {
                    bucket: self.bucket(),
                    before: end.before,
                    entry: 0,
                    head: end.head,
                    first: 0,
                    free: free.at,
                    free_next: word,
                },
            },
        }
    }

    // The directory's first entry page is known; there is no free entry.
    fn first(&self, end: End, word: u64) -> LookStep
        ensures gives { (s : Scene) → Stands (aim_of self.now) s → KnowsEnd (aim_of self.now) s end → self.now.purpose ≡ Purpose.Making
            → s.at (layout.first_free_entry self.now.dir.at) ≡ 0 → word ≡ s.at (layout.first_entry_page self.now.dir.at) → Gives self.now s result }
        ensures damaged { TellsDamage result (λ addr. IsNoLink IsPageAddress word × (addr ≡ layout.first_entry_page self.now.dir.at)) }
        ensures target { FindsTarget result }
        ensures ends { IsLast result }
    {
        match page_link(word) {
            Link::Astray => LookStep::Damaged(first_entry_page(self.dir.at)),
            _ => LookStep::Missing {
                place: Place {
                    first: word,
                    bucket: self.bucket(),
                    before: end.before,
                    entry: 0,
                    head: end.head,
                    free: 0,
                    free_next: 0,
                },
            },
        }
    }

    // A place of which no more is told than its bucket and its entry.
    fn place(&self, head: u64, before: u64, entry: u64) -> Place
        ensures bucket { result.bucket ≡ bucket_at self.now.dir.at self.now.name }
        ensures head { result.head ≡ head }
        ensures before { result.before ≡ before }
        ensures entry { result.entry ≡ entry }
        ensures none { HasWords Purpose.Reading (λ addr. 0) 0 result }
    {
        Place {
            bucket: self.bucket(),
            before,
            entry,
            head,
            first: 0,
            free: 0,
            free_next: 0,
        }
    }
}
