// The kernel, and who calls it.
ghost use Rattle.std.specs.Prelude.{◌≡◌, ◌++◌, ◌∷◌, [], ℕ, ◌<◌, ◌≤◌, List, map, None, Some, IsSome, OnOk, OnErr, Contains};
ghost use Rattle.pm_words.specs.Word.{Word};
ghost use Rattle.tr_types.specs.declared.action.FaultKind.TheVariants.{NotMapped};
ghost use Rattle.kern_model.specs.KernelView.{pages_of};
ghost use Rattle.kern_model.specs.Kernel.{kernel_owner};
ghost use Rattle.kern_model.specs.Rights as rights;
ghost use Rattle.kern_model.specs.KernelCalls.{Callers};
ghost use Rattle.kern_calls.specs.Calls as spec;
ghost use Rattle.kern_calls.specs.Calls.{IsMounted};
ghost use Rattle.kern_calls.specs.Standing as parts;

use kern_model::KERNEL;
use kern_pages::Owners;
use page_rights::{Pkru, Tables};
use pm_words::NoMemory;
use std::alloc::Global;
use std::marker::Model;
use tr_types::{Cred, FaultKind};

/// The kernel over the words of an image, on which it was mounted.
///
/// Up to 64 processes, 0 to 63, and 256 threads, 0 to 255.
#[derive(Drop)]
pub struct Kernel {
    pub(crate) alloc: Global,
    pub(crate) processes: Vec<(u8, Cred)>,
    // The threads, who holds what, and the coffer under which each page stands.
    pub(crate) tables: Tables,
    // Whose each page is.
    pub(crate) owners: Owners,
}

impl Model for Kernel {
    ghost use Rattle.kern_calls.specs.Calls.{KernelView};
    ghost use Rattle.kern_calls.specs.Standing.{StandInTables};

    ghost Value = { KernelView };

    ghost view = { λ k. record { callers = record { processes = k.processes.items; threads = k.tables.threads }; holders = k.tables.holders; owners = k.owners } };

    ghost invariant = { λ k. StandInTables k.processes.items k.tables.threads k.tables.owners k.owners };
}

impl Kernel {
    /// Starts a process, which acts for a user. It wasn't started before. An error changes nothing.
    pub fn start_process(&mut self, process: u8, cred: Cred) -> Result<(), NoMemory>
        requires { process < 64 }
        ensures ok { OnOk result (self.new ≡ spec.with_process process cred self.old) }
        ensures err { OnErr result (self.new ≡ self.old) }
    {
        self.processes.push((process, cred))?;
        Ok(())
    }

    /// Starts a thread in a process that was started. It wasn't started before. An error changes nothing.
    pub fn start_thread(&mut self, thread: u16, process: u8) -> Result<(), NoMemory>
        requires thread { thread < 256 }
        requires small { process < 64 }
        requires process { Contains (map (λ p. p.0) self.old.callers.processes) process }
        requires fresh { rights.process_of self.old.callers.threads thread ≡ None }
        ensures ok { OnOk result (self.new ≡ spec.with_thread thread process self.old) }
        ensures err { OnErr result (self.new ≡ self.old) }
    {
        self.tables.start(thread, process)?;
        Ok(())
    }

    /// Ends all maps of a process. Takes no memory.
    pub fn end_process(&mut self, process: u8)
        ensures { self.new ≡ spec.without_maps process self.old }
    {
        self.tables.drop_process(process);
    }

    /// Ends all maps. Takes no memory.
    pub fn end_all(&mut self)
        ensures { self.new ≡ spec.without_any_maps self.old }
    {
        self.tables.drop_all();
    }

    /// Whether a process was started. Takes no memory.
    pub fn has_process(&self, process: u8) -> bool
        ensures { result ≡ spec.has_process self.now.callers process }
    {
        self.processes.iter().any(|started| started.0 == process)
    }

    /// The process of a thread, which was started; none where the thread wasn't. Takes no memory.
    pub fn process_of(&self, thread: u16) -> Option<u8>
        ensures process { result ≡ rights.process_of self.now.callers.threads thread }
        ensures started { (process : ℕ) → rights.process_of self.now.callers.threads thread ≡ Some process → Contains (map (λ p. p.0) self.now.callers.processes) process }
    {
        self.tables.process_of(thread)
    }

    /// Why a load of a page by a thread is refused, over the words of the image; none if it may. A page past
    /// the image's end is not mapped. Takes no memory.
    pub fn may_load(&self, thread: u16, pkru: Pkru, page: u32) -> Option<FaultKind>
        requires { IsSome (rights.process_of self.now.callers.threads thread) }
        ensures inside { (words : List Word) → IsMounted self.now words → page < pages_of words → result ≡ rights.load_fault self.now.callers.threads self.now.holders thread pkru.0 (kernel_owner words page) }
        ensures outside { (words : List Word) → IsMounted self.now words → pages_of words ≤ page → result ≡ Some NotMapped }
    {
        self.tables.may_load(thread, pkru, page)
    }

    /// Why a store to a page by a thread is refused, over the words of the image; none if it may. A page past
    /// the image's end is not mapped. Takes no memory.
    pub fn may_store(&self, thread: u16, pkru: Pkru, page: u32) -> Option<FaultKind>
        requires { IsSome (rights.process_of self.now.callers.threads thread) }
        ensures inside { (words : List Word) → IsMounted self.now words → page < pages_of words → result ≡ rights.store_fault self.now.callers.threads self.now.holders thread pkru.0 (kernel_owner words page) }
        ensures outside { (words : List Word) → IsMounted self.now words → pages_of words ≤ page → result ≡ Some NotMapped }
    {
        self.tables.may_store(thread, pkru, page)
    }
}

// The coffer under which a page with this owner stands; 0, none, where it is the kernel's.
pub(crate) fn coffer_or_none(owner: u16) -> u16
    ensures { result ≡ parts.coffer_or_none owner }
{
    if owner == KERNEL { 0 } else { owner }
}
