// One call: a step machine that gives one action at a time and is told the answer.
ghost use Rattle.std.specs.Prelude.{◌≡◌, ◌↔◌, IsTrue, IfOk};
ghost use Rattle.zo_layout.specs.Layout.{page_at, pool_head};
ghost use Rattle.tr_types.specs.declared.action.Answer.{Answer};
ghost use Rattle.tr_types.specs.declared.command.Command.{Command};
ghost use Rattle.tr_types.specs.declared.kernel_call.Mapped.{Mapped};
ghost use Rattle.zo_model.specs.Steps.{Scene};
ghost use Rattle.zo_hash_dir.specs.Addresses.{IsTarget};
ghost use Rattle.zo_hash_dir.specs.Looking.{Knows as LookKnows};
ghost use Rattle.zo_hash_dir.specs.Scene.{Scene as Seen, IsShown, CanMake};
ghost use Rattle.zo_ops.specs.Acts.{IsStep};
ghost use Rattle.zo_ops.specs.Knows.{BeginKnows, FoundKnows, MissingKnows, PoolKnows, Drew, StageKnows, OpKnows, StepsFrom, After, IsLooking, BeginsAt, name_of as name_of_command, purpose_of};
ghost use Rattle.zo_ops.specs.declared.op.Stage.TheVariants as stage;

use sqlite_items::Boxed;
use std::alloc::{AllocError, Global};
use std::mem;
use tr_types::{Action, Answer, Command, Cred, Kcall, KernAnswer, Kind, Mapped, Mark, Reply};
use zo_hash_dir::{ListRun, ListStep, LookStep, Lookup, Name, plan_link};
use zo_layout::{KIND_FILE, file_map, page_at, page_kind, pool_head};
use zo_plan::{Addr, Link, Operand, Place, Put, StoreRun, StoreStep};

/// The root coffer's mode: octal 666. Its uid and gid are 0.
const ROOT_MODE: u16 = 0o666;

/// A running call in a coffer that its thread has mapped. Its command stays with the caller, who lends it at each step.
#[derive(Debug, Drop)]
pub struct OpRun {
    mapped: Mapped,
    stage: Stage,
}

/// What a call does next.
#[derive(Debug, Drop)]
pub enum OpStep {
    /// An action and what it is for. The next call is told its answer.
    Act(Action, Mark),
    Over(Reply),
}

/// What the call waits for.
#[derive(Debug, Drop)]
enum Stage {
    /// A word of the directory, in which the command's name is looked for.
    Looking(Lookup),
    /// A word of the directory, whose names are counted.
    Counting(ListRun),
    /// The kind of the file's page.
    Kind { file: Addr },
    /// The address of the file's map.
    Map { file: Addr },
    /// The first page of the pool. A new file gets its name at this place.
    Pool(Place),
    /// The pages that the kernel is asked for.
    Drawing(Place),
    /// A store of the plan.
    Storing(StoreRun),
    /// Nothing: the call is over, or its coffer has no root page.
    Over,
}

impl OpRun {
    /// A thread's call of a command in the coffer that it has mapped, by a caller with these credentials.
    pub fn begin(
        alloc: Global,
        _thread: u16,
        _cred: Cred,
        command: &Command,
        mapped: Mapped,
    ) -> Result<OpRun, AllocError>
        ensures mapped { IfOk result (λ op. op.mapped ≡ mapped) }
        ensures knows { (first : Answer) (s : Scene) → BeginKnows mapped command.now s → IfOk result (λ op. OpKnows op command.now first s) }
    {
        let stage = match Addr::of_page(mapped.root) {
            Some(dir) => first_stage(alloc, dir, command, mapped.pages)?,
            None => Stage::Over,
        };
        Ok(OpRun { mapped, stage })
    }

    /// Goes on with the answer to the last action, at a tick. The first call has no use for its answer.
    pub fn next(
        &mut self,
        alloc: Global,
        command: &Command,
        answer: &Answer,
        now: u32,
    ) -> Result<OpStep, AllocError>
        ensures mapped { self.new.mapped ≡ self.old.mapped }
        ensures acts { IfOk result (IsStep self.old.mapped) }
        ensures gives { IfOk result (StepsFrom self.old command.now answer.now self.new) }
    {
        // A look-up is the bulk of a call, and goes on where it stands.
        if let Stage::Looking(_) = self.stage {
            return Ok(self.look(command, answer));
        }
        match mem::replace(&mut self.stage, Stage::Over) {
            Stage::Counting(count) => Ok(self.count(count, answer)),
            Stage::Kind { file } => Ok(self.kind(file, answer)),
            Stage::Map { file } => Ok(self.map(file, answer)),
            Stage::Pool(place) => self.pool(alloc, place, answer),
            Stage::Drawing(place) => self.draw(alloc, command, place, answer, now),
            Stage::Storing(run) => Ok(self.store(run, answer, now)),
            Stage::Looking(_) => unreachable!(),
            Stage::Over => Ok(damaged(page_at(self.mapped.control))),
        }
    }

    fn load(&mut self, addr: u64, stage: Stage) -> OpStep
        ensures mapped { self.new.mapped ≡ self.old.mapped }
        ensures acts { IsStep self.old.mapped result }
        ensures stage { self.new.stage ≡ stage }
        ensures step { result ≡ OpStep.Act (Action.Load addr) Mark.Plain }
    {
        self.stage = stage;
        OpStep::Act(Action::Load(addr), Mark::Plain)
    }

    fn count(&mut self, mut count: ListRun, answer: &Answer) -> OpStep
        ensures mapped { self.new.mapped ≡ self.old.mapped }
        ensures acts { IsStep self.old.mapped result }
        ensures gives { (command : Command) → After self.old command (λ m c. StageKnows m c (stage.Counting count) answer.now) self.new result }
    {
        match count.next(answer) {
            ListStep::Load(addr) => self.load(addr, Stage::Counting(count)),
            ListStep::Counted(names) => {
                OpStep::Over(Reply::Info(Kind::Dir, names, 0, 0, ROOT_MODE))
            }
            ListStep::Damaged(addr) => damaged(addr),
        }
    }

    // A word of the directory is known, in which the name is looked for.
    fn look(&mut self, command: &Command, answer: &Answer) -> OpStep
        requires looking { IsLooking self.old.stage }
        ensures mapped { self.new.mapped ≡ self.old.mapped }
        ensures acts { IsStep self.old.mapped result }
        ensures gives { After self.old command.now (λ m c. StageKnows m c self.old.stage answer.now) self.new result }
    {
        let Stage::Looking(look) = &mut self.stage else {
            unreachable!()
        };
        match look.next(answer) {
            LookStep::Load(addr) => OpStep::Act(Action::Load(addr), Mark::Plain),
            LookStep::Found { target, .. } => self.found(command, target),
            LookStep::Missing { place } => self.missing(command, place),
            LookStep::Damaged(addr) => damaged(addr),
        }
    }

    // The name stands, with this target.
    fn found(&mut self, command: &Command, target: u64) -> OpStep
        requires { IsTarget target }
        ensures mapped { self.new.mapped ≡ self.old.mapped }
        ensures acts { IsStep self.old.mapped result }
        ensures gives { After self.old command.now (FoundKnows target) self.new result }
    {
        match command {
            Command::Create { .. } => OpStep::Over(Reply::Exists),
            Command::Stat { .. } => match Link::of(target) {
                Link::To(file) => self.load(page_kind(file.at), Stage::Kind { file }),
                // No target is such a word.
                Link::End | Link::Astray => unreachable!(),
            },
        }
    }

    // The name doesn't stand.
    fn missing(&mut self, command: &Command, place: Place) -> OpStep
        ensures mapped { self.new.mapped ≡ self.old.mapped }
        ensures acts { IsStep self.old.mapped result }
        ensures gives { After self.old command.now (MissingKnows place) self.new result }
    {
        match command {
            Command::Create { .. } => self.load(self.pool_head(), Stage::Pool(place)),
            Command::Stat { .. } => OpStep::Over(Reply::NotFound),
        }
    }

    // The address of the word that leads to the pool's first page.
    fn pool_head(&self) -> u64
        ensures { result ≡ pool_head (page_at self.now.mapped.control) 0 }
    {
        pool_head(page_at(self.mapped.control), 0)
    }

    // What stands in the file's page is known.
    fn kind(&mut self, file: Addr, answer: &Answer) -> OpStep
        ensures mapped { self.new.mapped ≡ self.old.mapped }
        ensures acts { IsStep self.old.mapped result }
        ensures gives { (command : Command) → After self.old command (λ m c. StageKnows m c (stage.Kind file) answer.now) self.new result }
    {
        if is_word(answer, KIND_FILE) {
            self.load(file_map(file.at), Stage::Map { file })
        } else {
            damaged(page_kind(file.at))
        }
    }

    // The word that has the address of the file's map is known. No file has a map, as none has been written.
    fn map(&self, file: Addr, answer: &Answer) -> OpStep
        ensures acts { IsStep self.now.mapped result }
        ensures gives { (command : Command) → After self.now command (λ m c. StageKnows m c (stage.Map file) answer.now) self.now result }
    {
        if is_word(answer, 0) {
            OpStep::Over(Reply::Info(Kind::File, 0, 0, 0, ROOT_MODE))
        } else {
            damaged(file_map(file.at))
        }
    }

    // Whether the pool has a page is known. It has none: no page has ever been given back to a pool.
    fn pool(&mut self, alloc: Global, place: Place, answer: &Answer) -> Result<OpStep, AllocError>
        ensures mapped { self.new.mapped ≡ self.old.mapped }
        ensures acts { IfOk result (IsStep self.old.mapped) }
        ensures gives { (command : Command) → IfOk result (After self.old command (λ m c. StageKnows m c (stage.Pool place) answer.now) self.new) }
    {
        if is_word(answer, 0) {
            self.ask_pages(alloc, place)
        } else {
            Ok(damaged(self.pool_head()))
        }
    }

    // Asks the kernel for the pages of a new file: its own, and an entry page where its name needs one.
    fn ask_pages(&mut self, alloc: Global, place: Place) -> Result<OpStep, AllocError>
        ensures mapped { self.new.mapped ≡ self.old.mapped }
        ensures acts { IfOk result (IsStep self.old.mapped) }
        ensures gives { (command : Command) → IfOk result (After self.old command (PoolKnows place) self.new) }
    {
        let enlarge = Kcall::Enlarge {
            id: self.mapped.id,
            count: place.entry_pages() + 1,
        };
        let enlarge = Boxed::new(alloc, enlarge)?;
        self.stage = Stage::Drawing(place);
        Ok(OpStep::Act(Action::Kernel(enlarge), Mark::Plain))
    }

    // The kernel has answered the call for pages.
    fn draw(
        &mut self,
        alloc: Global,
        command: &Command,
        place: Place,
        answer: &Answer,
        now: u32,
    ) -> Result<OpStep, AllocError>
        ensures mapped { self.new.mapped ≡ self.old.mapped }
        ensures acts { IfOk result (IsStep self.old.mapped) }
        ensures gives { IfOk result (After self.old command.now (λ m c. StageKnows m c (stage.Drawing place) answer.now) self.new) }
    {
        let Answer::Kern(answer) = answer else {
            return Ok(damaged(self.pool_head()));
        };
        match answer.get() {
            KernAnswer::Pages(pages) => self.fill(alloc, command, place, pages.as_slice(), now),
            KernAnswer::NoPages { asked, free } => Ok(OpStep::Over(Reply::NoSpace {
                need: *asked,
                free: *free,
            })),
            _ => Ok(damaged(self.pool_head())),
        }
    }

    // The pages are drawn, and the plan can be made. A coffer without a root page has none to link in: its control page is
    // told.
    fn fill(
        &mut self,
        alloc: Global,
        command: &Command,
        place: Place,
        pages: &[u32],
        now: u32,
    ) -> Result<OpStep, AllocError>
        ensures mapped { self.new.mapped ≡ self.old.mapped }
        ensures acts { IfOk result (IsStep self.old.mapped) }
        ensures gives { IfOk result (After self.old command.now (λ m c. Drew m c place pages.now) self.new) }
    {
        match Addr::of_page(self.mapped.root) {
            Some(dir) => self.fill_in(alloc, command, dir, place, pages, now),
            None => Ok(damaged(page_at(self.mapped.control))),
        }
    }

    // Makes the plan of a new file in the directory at this address, and gives its first store.
    fn fill_in(
        &mut self,
        alloc: Global,
        command: &Command,
        dir: Addr,
        place: Place,
        pages: &[u32],
        now: u32,
    ) -> Result<OpStep, AllocError>
        ensures mapped { self.new.mapped ≡ self.old.mapped }
        ensures acts { IfOk result (IsStep self.old.mapped) }
        ensures gives { dir.at ≡ page_at self.old.mapped.root → IfOk result (After self.old command.now (λ m c. Drew m c place pages.now) self.new) }
    {
        let file = Operand::Drawn {
            page: place.entry_pages(),
            byte: 0,
        };
        let kind = Put {
            at: file,
            word: Operand::Known(KIND_FILE),
        };
        let link = plan_link(alloc, dir, &place, name_of(command), file)?;
        let plan = link.prepared_by(kind, 1)?;
        let run = StoreRun::begin(plan, Vec::from_slice(alloc, pages)?);
        Ok(self.store(run, &Answer::Done, now))
    }

    // The last store of the plan was answered.
    fn store(&mut self, mut run: StoreRun, answer: &Answer, now: u32) -> OpStep
        ensures mapped { self.new.mapped ≡ self.old.mapped }
        ensures acts { IsStep self.old.mapped result }
        ensures gives { (command : Command) → After self.old command (λ m c. StageKnows m c (stage.Storing run) answer.now) self.new result }
    {
        match run.next(answer, now) {
            StoreStep::Act(action, mark) => {
                self.stage = Stage::Storing(run);
                OpStep::Act(action, mark)
            }
            StoreStep::Done => OpStep::Over(Reply::Made),
            StoreStep::Damaged(addr) => damaged(addr),
        }
    }
}

// What a call begins with in the directory at this address: a look for its command's name, or a count of the directory's names
// where the command is for the directory itself.
fn first_stage(alloc: Global, dir: Addr, command: &Command, pages: u32) -> Result<Stage, AllocError>
    ensures { (mapped : Mapped) → dir.at ≡ page_at mapped.root → pages ≡ mapped.pages → IfOk result (BeginsAt mapped command.now) }
{
    let name = name_of(command);
    if name.is_empty() {
        return Ok(Stage::Counting(ListRun::begin(dir, pages)));
    }
    let name = Name::new(Vec::from_slice(alloc, name)?);
    Ok(Stage::Looking(look_for(dir, name, command, pages)))
}

// The look for the command's name. A place for it is wanted where one is to be made.
fn look_for(dir: Addr, name: Name, command: &Command, pages: u32) -> Lookup
    ensures dir { result.dir ≡ dir }
    ensures name { result.name ≡ name }
    ensures purpose { result.purpose ≡ purpose_of command.now }
    ensures begins { (s : Seen) (first : Answer) → IsShown s dir.at pages → CanMake s dir.at → LookKnows result first s }
{
    match command {
        Command::Create { .. } => Lookup::to_make(dir, name, pages),
        Command::Stat { .. } => Lookup::begin(dir, name, pages),
    }
}

// The name that a command's path has in the root directory; none for `/`.
fn name_of(command: &Command) -> &[u8]
    ensures { result.now ≡ name_of_command command.now }
{
    let path = match command {
        Command::Create { path, .. } | Command::Stat { path } => path.as_bytes(),
    };
    if path.is_empty() { path } else { &path[1..] }
}

// Whether an action was answered with this word.
fn is_word(answer: &Answer, word: u64) -> bool
    ensures { IsTrue result ↔ answer.now ≡ Answer.Word word }
{
    match answer {
        Answer::Word(loaded) => *loaded == word,
        _ => false,
    }
}

fn damaged(addr: u64) -> OpStep
    ensures acts { (mapped : Mapped) → IsStep mapped result }
    ensures step { result ≡ OpStep.Over (Reply.Damaged addr) }
{
    OpStep::Over(Reply::Damaged { addr })
}
