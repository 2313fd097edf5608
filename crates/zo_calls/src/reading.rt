// A call that only reads: it watches the directory, and tells what it read where nothing has moved since.
ghost use Rattle.std.specs.Prelude.{◌≡◌, ◌↔◌, IfOk, IsTrue};
ghost use Rattle.zo_hash_dir.specs.Addresses.{IsTarget};
ghost use Rattle.zo_calls.specs.Acts.{IsStep};
ghost use Rattle.zo_calls.specs.Places.{IsSameCall, IsUnmoved, dir_lease_of};
ghost use Rattle.zo_calls.specs.Stages.{ReadingStands, Sees, Settles, IsIdle};

use crate::caller::Tries;
use crate::command::name_of;
use crate::op::OpRun;
use crate::stage::{Closing, NameCount, NameLook, Read, Reading, Stage, Watched};
use crate::step::{OpStep, busy, damaged, expired, load};
use std::alloc::{AllocError, Global};
use tr_types::{Answer, Mark};
use zo_hash_dir::{ListRun, ListStep, LookStep, Lookup, Name};
use zo_layout::{KIND_FILE, file_map, page_kind};
use zo_lease::{LeaseAt, LeaseStep, Watch};
use zo_plan::{Addr, Link};

impl OpRun {
    pub(crate) fn read(
        &mut self,
        alloc: Global,
        reading: Reading,
        answer: &Answer,
        now: u32,
    ) -> Result<OpStep, AllocError>
        requires idle { IsIdle self.old }
        requires stands { ReadingStands self.old.caller reading }
        ensures same { IsSameCall self.old self.new }
        ensures settles { IfOk result (Settles self.new) }
        ensures acts { IfOk result (IsStep self.old.caller) }
    {
        match reading {
            Reading::Opening(watch) => self.watch(alloc, watch, answer, now),
            Reading::Looking(look) => self.look_up(alloc, look, answer),
            Reading::Counting(count) => self.count(alloc, count, answer),
            Reading::Mapping(watched) => self.watched_anew(alloc, watched, answer),
            Reading::Kind { file, watched } => Ok(self.kind(file, watched, answer)),
            Reading::Map { file, watched } => Ok(self.map(file, watched, answer)),
            Reading::Counter(closing) => Ok(self.counter(closing, answer, now)),
            Reading::Lease(closing) => Ok(self.lease(closing, answer, now)),
        }
    }

    fn go_reading(&mut self, reading: Reading, step: OpStep) -> OpStep
        ensures same { IsUnmoved self.old self.new }
        ensures stage { self.new.stage ≡ Stage.Watching reading }
        ensures step { result ≡ step }
    {
        self.go(Stage::Watching(reading), step)
    }

    fn watch(
        &mut self,
        alloc: Global,
        mut watch: Watch,
        answer: &Answer,
        now: u32,
    ) -> Result<OpStep, AllocError>
        requires idle { IsIdle self.old }
        requires sees { watch.lease.addr ≡ dir_lease_of self.old.caller }
        ensures same { IsUnmoved self.old self.new }
        ensures settles { IfOk result (Settles self.new) }
        ensures acts { IfOk result (IsStep self.old.caller) }
    {
        match watch.next(answer, now) {
            LeaseStep::Act(action, mark) => {
                Ok(self.go_reading(Reading::Opening(watch), OpStep::Act(action, mark)))
            }
            LeaseStep::Won { value, found } => {
                let watched = Watched {
                    lease: self.caller.dir_lease(),
                    tries: Tries::of(watch.failed()),
                    counter: value,
                    found,
                };
                self.walk(alloc, watched, false)
            }
            LeaseStep::Busy { addr, word, now } => Ok(busy(addr, word, now)),
            LeaseStep::Expired { addr, word } => Ok(expired(addr, word)),
            LeaseStep::Damaged(addr) => Ok(damaged(addr)),
        }
    }

    // Begins to look for the name, or to count the directory's names where the command is for the directory itself.
    fn walk(&mut self, alloc: Global, watched: Watched, again: bool) -> Result<OpStep, AllocError>
        requires idle { IsIdle self.old }
        requires sees { Sees self.old.caller watched }
        ensures same { IsUnmoved self.old self.new }
        ensures settles { IfOk result (Settles self.new) }
        ensures acts { IfOk result (IsStep self.old.caller) }
    {
        let mapped = self.caller.mapped;
        let Some(dir) = Addr::of_page(mapped.root) else {
            return Ok(damaged(self.caller.control()));
        };
        let name = name_of(&self.command);
        if name.is_empty() {
            let count = ListRun::begin(dir, mapped.pages);
            let count = NameCount {
                count,
                watched,
                again,
            };
            return self.count(alloc, count, &Answer::Done);
        }
        let name = Name::new(Vec::from_slice(alloc, name)?);
        let look = Lookup::begin(dir, name, mapped.pages);
        let look = NameLook {
            look,
            watched,
            again,
        };
        self.look_up(alloc, look, &Answer::Done)
    }

    fn count(
        &mut self,
        alloc: Global,
        mut count: NameCount,
        answer: &Answer,
    ) -> Result<OpStep, AllocError>
        requires idle { IsIdle self.old }
        requires sees { Sees self.old.caller count.watched }
        ensures same { IsUnmoved self.old self.new }
        ensures settles { IfOk result (Settles self.new) }
        ensures acts { IfOk result (IsStep self.old.caller) }
    {
        match count.count.next(answer) {
            ListStep::Load(addr) => {
                Ok(self.go_reading(Reading::Counting(count), load(addr, Mark::Plain)))
            }
            ListStep::Counted(names) => Ok(self.close(count.watched, Read::Dir(names))),
            ListStep::Damaged(_) if !count.again && count.count.wants_more(answer) => {
                self.map_anew(alloc, Stage::Watching(Reading::Mapping(count.watched)))
            }
            ListStep::Damaged(addr) => Ok(self.close(count.watched, Read::Damage(addr))),
        }
    }

    fn look_up(
        &mut self,
        alloc: Global,
        mut look: NameLook,
        answer: &Answer,
    ) -> Result<OpStep, AllocError>
        requires idle { IsIdle self.old }
        requires sees { Sees self.old.caller look.watched }
        ensures same { IsUnmoved self.old self.new }
        ensures settles { IfOk result (Settles self.new) }
        ensures acts { IfOk result (IsStep self.old.caller) }
    {
        match look.look.next(answer) {
            LookStep::Load(addr) => {
                Ok(self.go_reading(Reading::Looking(look), load(addr, Mark::Plain)))
            }
            LookStep::Found { target, .. } => Ok(self.reached(look.watched, target)),
            LookStep::Missing { .. } => Ok(self.close(look.watched, Read::Nothing)),
            LookStep::Damaged(_) if !look.again && look.look.wants_more(answer) => {
                self.map_anew(alloc, Stage::Watching(Reading::Mapping(look.watched)))
            }
            LookStep::Damaged(addr) => Ok(self.close(look.watched, Read::Damage(addr))),
        }
    }

    // The coffer was mapped once more.
    fn watched_anew(
        &mut self,
        alloc: Global,
        watched: Watched,
        answer: &Answer,
    ) -> Result<OpStep, AllocError>
        requires idle { IsIdle self.old }
        requires sees { Sees self.old.caller watched }
        ensures same { IsSameCall self.old self.new }
        ensures settles { IfOk result (Settles self.new) }
        ensures acts { IfOk result (IsStep self.old.caller) }
    {
        if self.is_mapped(answer) {
            self.walk(alloc, watched, true)
        } else {
            Ok(damaged(self.caller.control()))
        }
    }

    // The name stands, with this target.
    fn reached(&mut self, watched: Watched, target: u64) -> OpStep
        requires idle { IsIdle self.old }
        requires sees { Sees self.old.caller watched }
        requires target { IsTarget target }
        ensures same { IsUnmoved self.old self.new }
        ensures settles { Settles self.new result }
        ensures acts { IsStep self.old.caller result }
    {
        match Link::of(target) {
            Link::To(file) => {
                let step = load(page_kind(file.at), Mark::Plain);
                self.go_reading(Reading::Kind { file, watched }, step)
            }
            // No target is such a word.
            Link::End | Link::Astray => unreachable!(),
        }
    }

    // What stands in the file's page is known.
    fn kind(&mut self, file: Addr, watched: Watched, answer: &Answer) -> OpStep
        requires idle { IsIdle self.old }
        requires sees { Sees self.old.caller watched }
        ensures same { IsUnmoved self.old self.new }
        ensures settles { Settles self.new result }
        ensures acts { IsStep self.old.caller result }
    {
        if is_word(answer, KIND_FILE) {
            let step = load(file_map(file.at), Mark::Plain);
            self.go_reading(Reading::Map { file, watched }, step)
        } else {
            self.close(watched, Read::Damage(page_kind(file.at)))
        }
    }

    // The word that has the address of the file's map is known. No file has a map, as none has been written.
    fn map(&mut self, file: Addr, watched: Watched, answer: &Answer) -> OpStep
        requires idle { IsIdle self.old }
        requires sees { Sees self.old.caller watched }
        ensures same { IsUnmoved self.old self.new }
        ensures settles { Settles self.new result }
        ensures acts { IsStep self.old.caller result }
    {
        if is_word(answer, 0) {
            self.close(watched, Read::File)
        } else {
            self.close(watched, Read::Damage(file_map(file.at)))
        }
    }

    // All is read. The counter is looked at once more, and then the lease.
    fn close(&mut self, watched: Watched, read: Read) -> OpStep
        requires idle { IsIdle self.old }
        requires sees { Sees self.old.caller watched }
        ensures same { IsUnmoved self.old self.new }
        ensures settles { Settles self.new result }
        ensures acts { IsStep self.old.caller result }
    {
        let step = load(watched.lease.counter_word(), Mark::Point);
        self.go_reading(Reading::Counter(Closing { watched, read }), step)
    }

    fn counter(&mut self, closing: Closing, answer: &Answer, now: u32) -> OpStep
        requires idle { IsIdle self.old }
        requires sees { Sees self.old.caller closing.watched }
        ensures same { IsUnmoved self.old self.new }
        ensures settles { Settles self.new result }
        ensures acts { IsStep self.old.caller result }
    {
        match answer {
            Answer::Word(word) if *word == closing.watched.counter => {
                let step = load(closing.watched.lease.addr, Mark::Check);
                self.go_reading(Reading::Lease(closing), step)
            }
            Answer::Word(word) => self.moved(closing.watched, *word, now),
            _ => damaged(closing.watched.lease.counter_word()),
        }
    }

    fn lease(&mut self, closing: Closing, answer: &Answer, now: u32) -> OpStep
        requires idle { IsIdle self.old }
        requires sees { Sees self.old.caller closing.watched }
        ensures same { IsUnmoved self.old self.new }
        ensures settles { Settles self.new result }
        ensures acts { IsStep self.old.caller result }
    {
        match answer {
            Answer::Word(word) if *word == closing.watched.found => {
                OpStep::Over(closing.read.reply())
            }
            Answer::Word(word) => self.moved(closing.watched, *word, now),
            _ => damaged(closing.watched.lease.addr),
        }
    }

    // The counter or the lease shows another word by now: the try has failed.
    fn moved(&mut self, watched: Watched, word: u64, now: u32) -> OpStep
        requires idle { IsIdle self.old }
        requires sees { Sees self.old.caller watched }
        ensures same { IsUnmoved self.old self.new }
        ensures settles { Settles self.new result }
        ensures acts { IsStep self.old.caller result }
    {
        let lease = watched.lease;
        match watched.tries.and_one() {
            Some(tries) => self.watch_again(lease, tries),
            None => busy(lease.addr, word, now),
        }
    }

    fn watch_again(&mut self, lease: LeaseAt, tries: Tries) -> OpStep
        requires idle { IsIdle self.old }
        requires lease { lease.addr ≡ dir_lease_of self.old.caller }
        ensures same { IsUnmoved self.old self.new }
        ensures settles { Settles self.new result }
        ensures acts { IsStep self.old.caller result }
    {
        let mut watch = Watch::again(lease.addr, tries.failed);
        match watch.next(&Answer::Done, 0) {
            LeaseStep::Act(action, mark) => {
                self.go_reading(Reading::Opening(watch), OpStep::Act(action, mark))
            }
            _ => damaged(lease.addr),
        }
    }
}

// Whether an action was answered with this word.
fn is_word(answer: &Answer, word: u64) -> bool
    ensures { IsTrue result ↔ answer.now ≡ Answer.Word word }
{
    match answer {
        Answer::Word(loaded) => *loaded == word,
        _ => false,
    }
}
