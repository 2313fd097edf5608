// The bus, over which threads reach the memory and the kernel.
ghost use Rattle.std.specs.Prelude.{◌≡◌, ℕ, ◌<◌, ◌⊎◌, ◌↔◌, length, IfOk, OnOk, IsTrue, Some, true};
ghost use Rattle.std.specs.Result.{IsErrOf};
ghost use Rattle.pm_words.specs.Memory.{HasPages};
ghost use Rattle.kern_model.specs.Rights.{process_of};
ghost use Rattle.kern_model.specs.KernelCalls as calls;
ghost use Rattle.kern_model.specs.KernelCalls.{IsCall};
ghost use Rattle.kern_model.specs.KernelRules.{IsFirstFault, IsSoundKernel};
ghost use Rattle.bus_model.specs.Machine as spec;
ghost use Rattle.bus_model.specs.Machine.{IsAction, ProcessWasStarted, ThreadWasStarted, callers_of};
ghost use Rattle.tr_types.specs.declared.action.Action.TheVariants as action;
ghost use Rattle.bus_machine.specs.Opening.{machine_opened, settled_words};
ghost use Rattle.bus_machine.specs.Calls.{with_bus, with_crash};
ghost use Rattle.bus_machine.specs.Steps.{Does};
ghost use Rattle.bus_machine.specs.Ties.{ended_by};
ghost use Rattle.bus_machine.specs.View.{IsUp};

use kern_calls::{Kernel, MountFault};
use kern_laws::store_law;
use kern_model::NO_THREAD;
use page_rights::Pkru;
use pm_words::{Choice, NoMemory, Words};
use sqlite_items::Boxed;
use std::alloc::{AllocError, Global};
use std::marker::Model;
use tr_types::{Action, Answer, Cred, FaultKind, Kcall, KernAnswer, Pick};
use zo_layout::{PAGE_BYTES, PAGE_WORDS, WORD_BYTES, committed_word};

const THREADS: usize = tr_types::THREADS as usize;

/// The memory, the kernel over it, which knows who was started, and the registers.
///
/// Where memory runs out in a kernel call, it has failed, and nothing is said of it. Any other step without
/// memory leaves it as it was. After a crash it is down: the kernel tells who was started, and no more, since
/// its tables may say other than the words.
#[derive(Drop)]
pub struct Bus {
    alloc: Global,
    words: Words,
    kernel: Kernel,
    // The register PKRU of each thread, by its number.
    pkrus: Vec<u32>,
    down: bool,
    failed: bool,
}

impl Model for Bus {
    ghost use Rattle.bus_machine.specs.View.{MachineView};
    ghost use Rattle.bus_machine.specs.Ties.{bus_of, ended_by, IsSoundBus};

    ghost Value = { MachineView };

    ghost view = { λ b. record {
      bus = bus_of b.words b.kernel b.pkrus.items;
      ended = ended_by b.down b.kernel.callers.processes;
      down = b.down;
      failed = b.failed;
    } };

    ghost invariant = { λ b. IsSoundBus b.words b.kernel b.pkrus.items b.down b.failed };
}

impl Bus {
    /// Over the words of an image of any content, with nothing started.
    pub fn open(alloc: Global, mut words: Words) -> Result<Bus, MountFault>
        ensures bus { IfOk result (λ b. b ≡ machine_opened words) }
        ensures sound { OnOk result (IsSoundKernel words) }
        ensures bad { (place : ℕ) → IsErrOf result (MountFault.BadKernel place) → IsFirstFault words place }
        ensures refuses { (place : ℕ) → IsFirstFault words place → IsErrOf result (MountFault.BadKernel place) ⊎ IsErrOf result MountFault.NoMemory }
    {
        let kernel = Kernel::mount(alloc, &mut words)?;
        let Ok(()) = settle(&mut words) else {
            return Err(MountFault::NoMemory);
        };
        let Ok(pkrus) = vec![in alloc; Pkru::closed().0; THREADS] else {
            return Err(MountFault::NoMemory);
        };
        Ok(Bus {
            alloc,
            words,
            kernel,
            pkrus,
            down: false,
            failed: false,
        })
    }

    pub fn into_words(self) -> Words
        ensures { result ≡ self.bus.words }
    {
        let Bus { words, .. } = self;
        words
    }

    pub fn words(&self) -> &Words
        ensures { result.now ≡ self.now.bus.words }
    {
        &self.words
    }

    /// Whether memory ran out in some step.
    pub fn has_failed(&self) -> bool
        ensures { result ≡ self.now.failed }
    {
        self.failed
    }

    /// From now on it has failed.
    pub fn fail(&mut self)
        ensures { self.new.failed ≡ true }
    {
        self.failed = true;
    }

    /// Whether a crash has come, by which everyone has ended who was started.
    pub fn is_down(&self) -> bool
        ensures down { result ≡ self.now.down }
        ensures ended { self.now.ended ≡ ended_by result self.now.bus.processes }
    {
        self.down
    }

    pub fn has_process(&self, process: u8) -> bool
        ensures { IsTrue result ↔ ProcessWasStarted self.now.bus process }
    {
        self.kernel.has_process(process)
    }

    /// Whether the thread was started. Its process was, then.
    pub fn has_thread(&self, thread: u16) -> bool
        ensures was { IsTrue result ↔ ThreadWasStarted self.now.bus thread }
        ensures housed { (process : ℕ) → process_of self.now.bus.threads thread ≡ Some process → ProcessWasStarted self.now.bus process }
    {
        self.kernel.process_of(thread).is_some()
    }

    /// The credentials of a thread's process.
    pub fn cred_of(&self, thread: u16) -> Cred
        ensures { ThreadWasStarted self.now.bus thread → result ≡ calls.cred_of (callers_of self.now.bus) thread }
    {
        self.kernel.cred_of(thread)
    }

    pub fn start_process(&mut self, process: u8, cred: Cred) -> Result<(), NoMemory>
        requires works { IsUp self.old }
        requires small { process < 64 }
        ensures { OnOk result (self.new ≡ with_bus self.old (spec.with_process process cred self.old.bus)) }
    {
        self.kernel.start_process(process, cred)
    }

    pub fn start_thread(&mut self, thread: u16, process: u8) -> Result<(), NoMemory>
        requires works { IsUp self.old }
        requires small { thread < 256 }
        requires process { ProcessWasStarted self.old.bus process }
        requires fresh { ThreadWasStarted self.old.bus thread → ⊥ }
        ensures { OnOk result (self.new ≡ with_bus self.old (spec.with_thread thread process self.old.bus)) }
    {
        self.kernel.start_thread(thread, process)
    }

    /// A crash, by which each word takes the value that the pick names. Takes no memory.
    pub fn crash(&mut self, pick: Pick)
        ensures { self.new ≡ with_crash pick self.old }
    {
        self.words.crash(choice_of(pick));
        self.kernel.end_all();
        self.pkrus.fill(Pkru::closed().0);
        self.down = true;
    }

    /// A step of a thread that was started, at a tick.
    pub fn act(&mut self, thread: u16, now: u32, action: &Action) -> Result<Answer, NoMemory>
        requires works { IsUp self.old }
        requires started { ThreadWasStarted self.old.bus thread }
        requires action { IsAction action.now }
        ensures { IfOk result (Does self.old self.new thread now action.now) }
    {
        match action {
            Action::Load(addr) => Ok(self.load(thread, *addr)),
            Action::Store(addr, word) => self.store(thread, *addr, *word),
            Action::Cas { addr, old, new } => self.exchange(thread, *addr, *old, *new),
            Action::Flush(addr) => self.flush(thread, *addr),
            Action::Fence => {
                self.fence(thread);
                Ok(Answer::Done)
            }
            Action::Pkru(pkru) => {
                self.set_pkru(thread, *pkru);
                Ok(Answer::Done)
            }
            Action::Kernel(call) => self.call(thread, now, call.get()),
        }
    }

    fn load(&self, thread: u16, addr: u64) -> Answer
        requires works { IsUp self.now }
        requires started { ThreadWasStarted self.now.bus thread }
        ensures { spec.IsLoaded self.now.bus thread addr result }
    {
        match self.load_refusal(thread, addr) {
            Some(kind) => Answer::Fault(kind),
            None => Answer::Word(self.words.load(addr)),
        }
    }

    fn store(&mut self, thread: u16, addr: u64, word: u64) -> Result<Answer, NoMemory>
        requires works { IsUp self.old }
        requires started { ThreadWasStarted self.old.bus thread }
        ensures { IfOk result (λ answer. (now : ℕ) → Does self.old self.new thread now (action.Store addr word) answer) }
    {
        match self.store_refusal(thread, addr) {
            Some(kind) => Ok(Answer::Fault(kind)),
            None => {
                // The kernel works on, since the page is a coffer's.
                store_law();
                self.words.store(addr, word)?;
                Ok(Answer::Done)
            }
        }
    }

    // A compare-and-exchange: the new word is stored where the present one is the old one.
    fn exchange(&mut self, thread: u16, addr: u64, old: u64, new: u64) -> Result<Answer, NoMemory>
        requires works { IsUp self.old }
        requires started { ThreadWasStarted self.old.bus thread }
        ensures { IfOk result (λ answer. (now : ℕ) → Does self.old self.new thread now (action.Cas addr old new) answer) }
    {
        match self.store_refusal(thread, addr) {
            Some(kind) => Ok(Answer::Fault(kind)),
            None => {
                store_law();
                let found = self.words.cas(addr, old, new)?;
                Ok(Answer::Word(found))
            }
        }
    }

    fn flush(&mut self, thread: u16, addr: u64) -> Result<Answer, NoMemory>
        requires works { IsUp self.old }
        requires started { ThreadWasStarted self.old.bus thread }
        ensures { IfOk result (λ answer. (now : ℕ) → Does self.old self.new thread now (action.Flush addr) answer) }
    {
        match self.load_refusal(thread, addr) {
            Some(kind) => Ok(Answer::Fault(kind)),
            None => {
                self.words.flush(thread, addr)?;
                Ok(Answer::Done)
            }
        }
    }

    fn fence(&mut self, thread: u16)
        requires works { IsUp self.old }
        ensures { (now : ℕ) → self.new ≡ with_bus self.old (spec.bus_after thread now action.Fence Answer.Done self.old.bus) }
    {
        self.words.fence(thread);
    }

    fn set_pkru(&mut self, thread: u16, pkru: u32)
        requires works { IsUp self.old }
        requires started { ThreadWasStarted self.old.bus thread }
        ensures { (now : ℕ) → self.new ≡ with_bus self.old (spec.bus_after thread now (action.Pkru pkru) Answer.Done self.old.bus) }
    {
        self.pkrus[usize::from(thread)] = pkru;
    }

    fn call(&mut self, thread: u16, now: u32, call: &Kcall) -> Result<Answer, NoMemory>
        requires works { IsUp self.old }
        requires started { ThreadWasStarted self.old.bus thread }
        requires call { IsCall call.now }
        ensures { IfOk result (Does self.old self.new thread now (action.Kernel call.now)) }
    {
        match self.kernel.call(&mut self.words, thread, now, call) {
            KernAnswer::NoMemory => {
                self.failed = true;
                Err(AllocError)
            }
            answer => Ok(Answer::Kern(Boxed::new(self.alloc, answer)?)),
        }
    }

    // Why a load, or a flush, is refused, if it is.
    fn load_refusal(&self, thread: u16, addr: u64) -> Option<FaultKind>
        requires works { IsUp self.now }
        requires started { ThreadWasStarted self.now.bus thread }
        ensures { result ≡ spec.load_refusal self.now.bus thread addr }
    {
        if !has_word(&self.words, addr) {
            return Some(FaultKind::NotMapped);
        }
        let page = (addr / PAGE_BYTES) as u32;
        self.kernel.may_load(thread, self.pkru_of(thread), page)
    }

    // Why a store, or an exchange, is refused, if it is.
    fn store_refusal(&self, thread: u16, addr: u64) -> Option<FaultKind>
        requires works { IsUp self.now }
        requires started { ThreadWasStarted self.now.bus thread }
        ensures { result ≡ spec.store_refusal self.now.bus thread addr }
    {
        if !has_word(&self.words, addr) {
            return Some(FaultKind::NotMapped);
        }
        let page = (addr / PAGE_BYTES) as u32;
        self.kernel.may_store(thread, self.pkru_of(thread), page)
    }

    fn pkru_of(&self, thread: u16) -> Pkru
        requires works { IsUp self.now }
        requires started { ThreadWasStarted self.now.bus thread }
        ensures { result.0 ≡ spec.pkru_of self.now.bus thread }
    {
        Pkru(self.pkrus[usize::from(thread)])
    }
}

// The memory's name for a pick.
fn choice_of(pick: Pick) -> Choice
    ensures { result ≡ spec.choice_of pick }
{
    match pick {
        Pick::All => Choice::All,
        Pick::None => Choice::None,
        Pick::Seed(seed) => Choice::Seed(seed),
    }
}

// Whether a word of the memory stands at the address.
fn has_word(words: &Words, addr: u64) -> bool
    ensures { result ≡ spec.is_word words.now addr }
{
    addr % WORD_BYTES == 0 && addr / WORD_BYTES < PAGE_WORDS * u64::from(words.pages())
}

// Makes durable that nothing is committed.
fn settle(words: &mut Words) -> Result<(), NoMemory>
    ensures ok { OnOk result (words.new ≡ settled_words words.old) }
    ensures size { HasPages (length words.old) }
{
    // Every image has room for the journal.
    let _pages = words.pages();
    words.flush(NO_THREAD, committed_word())?;
    words.fence(NO_THREAD);
    Ok(())
}
