// The machine as its callers have it.
ghost use Rattle.std.specs.Prelude.{◌≡◌, ◌↔◌, ℕ, ◌<◌, ◌⊎◌, [], IfOk, IsTrue, OnOk, MatchResult, Ok, Err, true, false};
ghost use Rattle.std.specs.Result.{IsErrOf};
ghost use Rattle.kern_model.specs.KernelRules.{IsFirstFault, IsSoundKernel};
ghost use Rattle.kern_model.specs.KernelCalls as calls;
ghost use Rattle.bus_model.specs.Machine.{IsAction, ProcessWasStarted, ThreadWasStarted, callers_of};
ghost use Rattle.tr_types.specs.declared.action.Action.TheVariants.{Store};
ghost use Rattle.bus_machine.specs.Opening.{bus_opened, OpensAsIs};
ghost use Rattle.bus_machine.specs.Calls.{StartsProcess, StartsThread, ActsAs, with_crash};

use crate::BusFault;
use crate::bus::Bus;
use kern_calls::MountFault;
use pm_words::{NoMemory, Words};
use std::alloc::Global;
use std::marker::Model;
use tr_types::{Action, Answer, Cred, Pick};

/// A memory, processes and their threads, and the kernel.
///
/// Up to 64 processes, 0 to 63, and 256 threads, 0 to 255. Where memory runs out in a call, the machine
/// has failed: each later call answers `NoMemory`. After a crash it is down: everyone who was started has
/// ended, and nobody else can be started.
#[derive(Drop)]
pub struct Machine {
    bus: Bus,
}

impl Model for Machine {
    ghost use Rattle.bus_machine.specs.View.{MachineView};

    ghost Value = { MachineView };

    ghost view = { λ m. m.bus };
}

impl Machine {
    /// Puts the kernel over the words of an image of any content, and makes what it finishes there
    /// durable. Nothing is started.
    ///
    /// `BadKernel` comes where a rule of the kernel's pages fails, with the place of the first one.
    pub fn open(alloc: Global, words: Words) -> Result<Machine, MountFault>
        ensures bus { IfOk result (λ m. m.bus ≡ bus_opened words) }
        ensures works { IfOk result (λ m. m.failed ≡ false) }
        ensures up { IfOk result (λ m. (m.down ≡ false) × (m.ended ≡ [])) }
        ensures sound { OnOk result (IsSoundKernel words) }
        ensures bad { (place : ℕ) → IsErrOf result (MountFault.BadKernel place) → IsFirstFault words place }
        ensures refuses { (place : ℕ) → IsFirstFault words place → IsErrOf result (MountFault.BadKernel place) ⊎ IsErrOf result MountFault.NoMemory }
    {
        Ok(Machine {
            bus: Bus::open(alloc, words)?,
        })
    }

    /// The words of the memory.
    pub fn words(&self) -> &Words
        ensures { result.now ≡ self.now.bus.words }
    {
        self.bus.words()
    }

    /// The words of the memory, where the machine is done with.
    pub fn into_words(self) -> Words
        ensures { result ≡ self.bus.words }
    {
        let Machine { bus } = self;
        bus.into_words()
    }

    /// Whether the process was started.
    pub fn has_process(&self, process: u8) -> bool
        ensures { IsTrue result ↔ ProcessWasStarted self.now.bus process }
    {
        self.bus.has_process(process)
    }

    /// Whether the thread was started.
    pub fn has_thread(&self, thread: u16) -> bool
        ensures { IsTrue result ↔ ThreadWasStarted self.now.bus thread }
    {
        self.bus.has_thread(thread)
    }

    /// The credentials of the process of a thread that was started.
    pub fn cred_of(&self, thread: u16) -> Cred
        ensures { ThreadWasStarted self.now.bus thread → result ≡ calls.cred_of (callers_of self.now.bus) thread }
    {
        self.bus.cred_of(thread)
    }

    /// Starts a process, which acts for a user. `Started` where it was started before, else `Dead` where
    /// the machine is down.
    pub fn start_process(&mut self, process: u8, cred: Cred) -> Result<(), BusFault>
        requires { process < 64 }
        ensures { StartsProcess self.old self.new process cred result }
    {
        if self.bus.has_failed() {
            return Err(BusFault::NoMemory);
        }
        if self.bus.has_process(process) {
            return Err(BusFault::Started);
        }
        if self.bus.is_down() {
            return Err(BusFault::Dead);
        }
        let done = self.bus.start_process(process, cred);
        noted(&mut self.bus, done)
    }

    /// Starts a thread in a process, with its register PKRU closed to all coffers. `NoProcess` where
    /// the process wasn't started, else `Started` where the thread was, else `Dead` where the process has
    /// ended or the machine is down.
    pub fn start_thread(&mut self, thread: u16, process: u8) -> Result<(), BusFault>
        requires { thread < 256 }
        ensures { StartsThread self.old self.new thread process result }
    {
        if self.bus.has_failed() {
            return Err(BusFault::NoMemory);
        }
        if !self.bus.has_process(process) {
            return Err(BusFault::NoProcess);
        }
        if self.bus.has_thread(thread) {
            return Err(BusFault::Started);
        }
        if self.bus.is_down() {
            return Err(BusFault::Dead);
        }
        let done = self.bus.start_thread(thread, process);
        noted(&mut self.bus, done)
    }

    /// Does a step of a thread at a tick, and answers it. Addresses are in bytes; one that is no multiple
    /// of 8 inside the memory is not mapped. `NoThread` where the thread wasn't started, `Dead` where
    /// it has ended.
    ///
    /// A flush needs the right to load, a compare-and-exchange that to store, also where it changes
    /// nothing; it answers the word that it found. A fence needs no right.
    ///
    /// A load, a store or a new PKRU costs the same whatever the machine holds; a kernel call costs what
    /// its row needs.
    pub fn act(&mut self, thread: u16, now: u32, action: &Action) -> Result<Answer, BusFault>
        requires { IsAction action.now }
        ensures { ActsAs self.old self.new thread now action.now result }
    {
        if self.bus.has_failed() {
            return Err(BusFault::NoMemory);
        }
        if !self.bus.has_thread(thread) {
            return Err(BusFault::NoThread);
        }
        if self.bus.is_down() {
            return Err(BusFault::Dead);
        }
        let done = self.bus.act(thread, now, action);
        noted(&mut self.bus, done)
    }

    /// A store that the thread's program didn't mean, under the thread's present rights. Faults as
    /// `act` has them.
    pub fn stray(&mut self, thread: u16, addr: u64, word: u64) -> Result<Answer, BusFault>
        ensures { ActsAs self.old self.new thread 0 (Store addr word) result }
    {
        self.act(thread, 0, &Action::Store(addr, word))
    }

    /// A crash. Each word takes, of the values that a crash may leave there, the one that the pick names,
    /// and is durable. Everyone who was started has ended, nobody holds a coffer, and all registers are
    /// closed. It may come when the machine is down already.
    ///
    /// Takes no memory, and time in proportion to the words that are pending.
    pub fn crash(&mut self, pick: Pick)
        ensures { self.new ≡ with_crash pick self.old }
    {
        self.bus.crash(pick);
    }
}

// Where memory ran out, the machine has failed.
fn noted<T>(bus: &mut Bus, done: Result<T, NoMemory>) -> Result<T, BusFault>
    ensures { MatchResult done (λ x. (result ≡ Ok x) × (bus.new ≡ bus.old)) (λ _. (result ≡ Err BusFault.NoMemory) × (bus.new.failed ≡ true)) }
{
    match done {
        Ok(x) => Ok(x),
        Err(_) => {
            bus.fail();
            Err(BusFault::NoMemory)
        }
    }
}

/// Over durable words in which nothing is committed, a machine opens with these very words.
pub fn open_law()
    ensures { OpensAsIs }
{}
