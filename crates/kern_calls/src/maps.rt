// Calls that change no word but who holds which coffer.
ghost use Rattle.std.specs.Prelude.{◌≡◌, ◌≤◌, ℕ, map, Contains, Some, IsSome};
ghost use Rattle.kern_model.specs.Rights.{process_of};
ghost use Rattle.kern_model.specs.KernelRules.{IsSoundKernel};
ghost use Rattle.kern_model.specs.KernelCalls as calls;
ghost use Rattle.kern_model.specs.KernelCalls.{IsPathText};
ghost use Rattle.kern_model.specs.Commits.{IsFit};
ghost use Rattle.kern_pages.specs.Owners.{owners_of};
ghost use Rattle.kern_calls.specs.Steps.{FollowsRow, mapped_under, hold_row};

use crate::kernel::Kernel;
use kern_pages::owners_law;
use kern_plans::find;
use kern_roots::{Root, RootState, entry_of};
use page_rights::MapFault;
use pm_words::Words;
use tr_types::{Cred, Groups, KernAnswer, Mapped, Path, Right, refuses};

// With what a thread calls that no process has started, as the recovery.
const NO_ONE: Cred = Cred {
    uid: u32::MAX,
    gid: u32::MAX,
    groups: Groups::NONE,
};

// A coffer that is to be mapped: its number, its entry, how many pages it has, and the length of its
// path.
#[derive(Clone, Copy)]
struct Target {
    id: u16,
    root: Root,
    pages: u32,
    path_len: u16,
}

impl Target {
    // What is answered once it is mapped under a key.
    fn mapped(self, key: u8) -> Mapped
        ensures { result ≡ mapped_under key self }
    {
        Mapped {
            id: self.id,
            key,
            control: self.root.control,
            root: self.root.root,
            pages: self.pages,
            path_len: self.path_len,
            perm: self.root.perm,
        }
    }
}

impl Kernel {
    /// Maps the coffer of a path for a thread that was started.
    pub(crate) fn map(
        &mut self,
        words: &Words,
        thread: u16,
        path: &Path,
        right: Right,
        exclusive: bool,
    ) -> KernAnswer
        requires sound { IsSoundKernel words.now }
        requires told { self.old.owners ≡ owners_of words.now }
        requires started { IsSome (process_of self.old.callers.threads thread) }
        requires path { IsPathText path.now }
        ensures { FollowsRow (calls.map_row self.old.callers words.now self.old.holders thread path.now right exclusive) self.old result self.new }
    {
        let (id, path_len) = match find(words, path, &None) {
            KernAnswer::Found { first, .. } => (first.id, first.path_len),
            refusal => return refusal,
        };
        let root = entry_of(words, id).unwrap();
        let cred = self.cred_of(thread);
        if refuses(&root.perm, &cred, right) {
            return KernAnswer::Denied {
                right,
                id,
                path_len,
            };
        }
        if root.state == RootState::Quarantined {
            return KernAnswer::Quarantined { id, path_len };
        }
        owners_law();
        let pages = self.owners.count(id);
        let target = Target {
            id,
            root,
            pages,
            path_len,
        };
        self.hold(thread, target, right, exclusive)
    }

    // Makes a thread hold a coffer, if nobody stands against it, under a key that is free.
    fn hold(&mut self, thread: u16, target: Target, right: Right, exclusive: bool) -> KernAnswer
        requires started { IsSome (process_of self.old.callers.threads thread) }
        requires least { 1 ≤ target.id }
        requires most { target.id ≤ 256 }
        ensures { FollowsRow (hold_row self.old.callers self.old.holders thread right exclusive (mapped_under 0 target)) self.old result self.new }
    {
        let Target { id, path_len, .. } = target;
        match self.tables.map(thread, id, right, exclusive, &[]) {
            Ok(key) => KernAnswer::Mapped(target.mapped(key)),
            Err(MapFault::InUse(thread)) => KernAnswer::InUse {
                thread,
                id,
                path_len,
            },
            Err(MapFault::NoKey) => KernAnswer::NoKey { id, path_len },
            Err(MapFault::NoMemory) => KernAnswer::NoMemory,
        }
    }

    /// Ends a thread's map of a coffer. The thread was started.
    pub(crate) fn unmap(&mut self, thread: u16, id: u16) -> KernAnswer
        requires { IsSome (process_of self.old.callers.threads thread) }
        ensures { FollowsRow (calls.unmap_row self.old.holders thread id) self.old result self.new }
    {
        if self.tables.unmap(thread, id) {
            KernAnswer::Done
        } else {
            KernAnswer::NotHeld
        }
    }

    /// The credentials of a thread's process; where it wasn't started, those of nobody. Takes no memory.
    pub fn cred_of(&self, thread: u16) -> Cred
        ensures cred { IsSome (process_of self.now.callers.threads thread) → result ≡ calls.cred_of self.now.callers thread }
        ensures fit { IsFit result }
    {
        match self.tables.process_of(thread) {
            Some(process) => cred_in(&self.processes, process),
            None => NO_ONE,
        }
    }
}

// The credentials of a process that was started.
fn cred_in(processes: &[(u8, Cred)], process: u8) -> Cred
    requires { Contains (map (λ p. p.0) processes.now) process }
    ensures cred { result ≡ calls.cred_in processes.now (Some process) }
    ensures fit { IsFit result }
{
    for &(started, cred) in processes {
        if started == process {
            return numbered(cred.uid, cred.gid, cred.groups);
        }
    }
    unreachable!()
}

// Credentials with these numbers, which are seen to be of 32 bits.
fn numbered(uid: u32, gid: u32, groups: Groups) -> Cred
    ensures same { result ≡ record { uid = uid; gid = gid; groups = groups } }
    ensures fit { IsFit result }
{
    Cred { uid, gid, groups }
}
