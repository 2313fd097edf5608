// The tables of all processes.
ghost use Rattle.std.specs.Prelude.{◌≡◌, ◌≢◌, ℕ, ◌<◌, ◌≤◌, ◌↔◌, [], length, filter, slice_index, All, IsTrue, true, None, Some, IsSome, IfSome, IfOk, OnOk, OnErr};
ghost use Rattle.std.specs.Result.{IsErrOf, IsOk};
ghost use Rattle.kern_model.specs.Rights as rights;
ghost use Rattle.kern_model.specs.KernelCalls as calls;
ghost use Rattle.page_rights.specs.Lookup as lookup;
ghost use Rattle.page_rights.specs.Tables as spec;

use crate::mapping::{self, Mapping, look_up, mapping_at, nothing, put_pages, unowned};
use crate::pkru::Pkru;
use crate::rows::{self, drop_row, holds_any, key_for, least_against, process_of, put_row};
use std::alloc::{AllocError, Global};
use std::marker::Model;
use thiserror::Error;
use tr_types::{FaultKind, Holder, Right};

const THREADS: usize = tr_types::THREADS as usize;

/// 64 processes with 257 coffers each: 1 to 256, and 0 for none.
const PLACES: usize = 16_448;

/// Why a coffer isn't mapped.
#[derive(Clone, Copy, Debug, PartialEq, Eq, Error)]
pub enum MapFault {
    /// The least thread that holds it, where its map or this one is exclusive.
    #[error("thread {0} has it mapped")]
    InUse(u16),
    #[error("all 15 keys of the process are in use")]
    NoKey,
    #[error("out of memory")]
    NoMemory,
}

/// The coffers that each process has mapped, and the coffer under which each page stands. A page stands
/// under its coffer whether anybody holds that or not.
///
/// Up to 256 threads in 64 processes, and 256 coffers, 1 to 256. A loading or storing thread is
/// answered at a cost that doesn't grow with pages, processes, threads or holders. No other call but
/// `new` costs by the pages of the image.
#[derive(Drop)]
pub struct Tables {
    threads: Vec<(u16, u8)>,
    // The process of each thread by its number.
    processes: Vec<Option<u8>>,
    holders: Vec<Holder>,
    // The coffer of each page, 0 for none.
    owners: Vec<u16>,
    // What `holders` says of each process and coffer.
    mappings: Vec<Option<Mapping>>,
}

impl Model for Tables {
    ghost use Rattle.page_rights.specs.Tables.{View};
    ghost use Rattle.page_rights.specs.Lookup.{TablesAgree};

    ghost Value = { View };

    ghost view = { λ t. record { threads = t.threads.items; holders = t.holders.items; owners = t.owners.items } };

    ghost invariant = { λ t. TablesAgree t.threads.items t.processes.items t.holders.items t.mappings.items };
}

impl Tables {
    /// No thread is started and no page mapped, of so many pages.
    pub fn new(alloc: Global, pages: u32) -> Result<Tables, AllocError>
        requires { pages ≤ 16384 }
        ensures threads { IfOk result (λ t. t.threads ≡ []) }
        ensures holders { IfOk result (λ t. t.holders ≡ []) }
        ensures pages { IfOk result (λ t. length t.owners ≡ pages) }
        ensures owners { IfOk result (λ t. All (λ owner. owner ≡ 0) t.owners) }
    {
        let owners = unowned(alloc, pages as usize)?;
        let processes = nothing(alloc, THREADS)?;
        let mappings = nothing(alloc, PLACES)?;
        Ok(Tables {
            threads: Vec::new(alloc),
            processes,
            holders: Vec::new(alloc),
            owners,
            mappings,
        })
    }

    /// Puts a thread into a process. An error leaves the tables as they were.
    pub fn start(&mut self, thread: u16, process: u8) -> Result<(), AllocError>
        requires thread { thread < 256 }
        requires process { process < 64 }
        requires fresh { rights.process_of self.old.threads thread ≡ None }
        ensures ok { OnOk result (self.new ≡ spec.started thread process self.old) }
        ensures err { OnErr result (self.new ≡ self.old) }
    {
        self.threads.push((thread, process))?;
        self.processes[usize::from(thread)] = Some(process);
        Ok(())
    }

    /// Maps a coffer of 1 to 256 for a thread, and answers the key: that which its process has for it,
    /// or else the least of 1 to 15 that is free. The thread's earlier map of the coffer ends. Right
    /// Write is for loads and stores, each other for loads. The pages are put under the coffer as by
    /// `add_pages`.
    ///
    /// `InUse` comes before `NoKey`. An error leaves the tables as they were.
    pub fn map(
        &mut self,
        thread: u16,
        id: u16,
        right: Right,
        exclusive: bool,
        pages: &[u32],
    ) -> Result<u8, MapFault>
        requires started { IsSome (rights.process_of self.old.threads thread) }
        requires least_id { 1 ≤ id }
        requires greatest_id { id ≤ 256 }
        requires pages { All (spec.MayStand id self.old.owners) pages.now }
        ensures ok { IfOk result (λ key.
            self.new ≡ spec.mapped (record { thread = thread; id = id; key = key; right = right; exclusive = exclusive }) pages.now self.old) }
        ensures free { OnOk result (rights.those_against thread id exclusive self.old.holders ≡ []) }
        ensures key { IfOk result (λ key. rights.key_for self.old.threads self.old.holders thread id ≡ Some key) }
        ensures in_use { (other : ℕ) → IsErrOf result (MapFault.InUse other) ↔ rights.IsLeastOf (rights.those_against thread id exclusive self.old.holders) other }
        ensures no_key { IsErrOf result MapFault.NoKey
            ↔ ((rights.those_against thread id exclusive self.old.holders ≡ []) × (rights.key_for self.old.threads self.old.holders thread id ≡ None)) }
        ensures err { OnErr result (self.new ≡ self.old) }
        ensures threads_stay { self.new.threads ≡ self.old.threads }
        ensures pages_stay { length self.new.owners ≡ length self.old.owners }
    {
        if let Some(other) = least_against(&self.holders, thread, id, exclusive) {
            return Err(MapFault::InUse(other));
        }
        let process = process_of(&self.processes, thread);
        let Some(key) = key_for(&self.processes, &self.holders, process, id) else {
            return Err(MapFault::NoKey);
        };
        let row = Holder {
            thread,
            id,
            key,
            right,
            exclusive,
        };
        if put_row(&mut self.holders, row).is_err() {
            return Err(MapFault::NoMemory);
        }
        put_pages(&mut self.owners, id, pages);
        look_up(
            &mut self.mappings,
            &self.processes,
            &self.holders,
            process,
            id,
        );
        Ok(key)
    }

    /// Ends a thread's map of a coffer, and answers whether it had one. Pages stay under their coffer.
    /// Takes no memory.
    pub fn unmap(&mut self, thread: u16, id: u16) -> bool
        requires started { IsSome (rights.process_of self.old.threads thread) }
        ensures held { result ≡ calls.holds_any thread id self.old.holders }
        ensures after { self.new ≡ spec.unmapped thread id self.old }
        ensures threads_stay { self.new.threads ≡ self.old.threads }
        ensures pages_stay { length self.new.owners ≡ length self.old.owners }
    {
        if !holds_any(&self.holders, thread, id) {
            return false;
        }
        let process = process_of(&self.processes, thread);
        drop_row(&mut self.holders, thread, id);
        look_up(
            &mut self.mappings,
            &self.processes,
            &self.holders,
            process,
            id,
        );
        true
    }

    /// Who holds a coffer, the last mapped last.
    pub fn holders(&self, alloc: Global, id: u16) -> Result<Vec<Holder>, AllocError>
        ensures rows { IfOk result (λ rows. rows.items ≡ spec.rows_of id self.now.holders) }
        ensures sound { spec.HasSoundMaps self.now }
    {
        self.holders
            .iter()
            .filter(|h| h.id == id)
            .copied()
            .collect(alloc)
    }

    /// A thread's own row of a coffer. It has at most one. Takes no memory.
    pub fn row(&self, thread: u16, id: u16) -> Option<Holder>
        ensures row { result ≡ calls.own_row thread id self.now.holders }
        ensures sound { spec.HasSoundMaps self.now }
    {
        rows::own_row(&self.holders, thread, id)
    }

    /// Whether a thread itself holds a coffer. Takes no memory.
    pub fn holds_any(&self, thread: u16, id: u16) -> bool
        ensures { result ≡ calls.holds_any thread id self.now.holders }
    {
        rows::holds_any(&self.holders, thread, id)
    }

    /// Whether a thread itself holds a coffer with the right Write. Takes no memory.
    pub fn holds_for_writing(&self, thread: u16, id: u16) -> bool
        ensures { result ≡ calls.holds_for_writing thread id self.now.holders }
    {
        rows::holds_for_writing(&self.holders, thread, id)
    }

    /// Whether a thread itself holds a coffer exclusively and with the right Own. Takes no memory.
    pub fn holds_as_owner(&self, thread: u16, id: u16) -> bool
        ensures { result ≡ calls.holds_as_owner thread id self.now.holders }
    {
        rows::holds_as_owner(&self.holders, thread, id)
    }

    /// The coffer under which a page stands, whether anybody holds it or not; 0 for none and past the
    /// last page. Takes no memory.
    pub fn owner_of(&self, page: u32) -> u16
        ensures { result ≡ slice_index self.now.owners page }
    {
        mapping::owner_of(&self.owners, page)
    }

    /// Why a load of a page by a thread is refused; none if it may. A page past the last is not mapped.
    /// Takes no memory.
    pub fn may_load(&self, thread: u16, pkru: Pkru, page: u32) -> Option<FaultKind>
        requires started { IsSome (rights.process_of self.now.threads thread) }
        ensures fault { result ≡ rights.load_fault self.now.threads self.now.holders thread pkru.0 (slice_index self.now.owners page) }
        ensures sound { spec.HasSoundMaps self.now }
    {
        load_fault(self.mapping(thread, page), pkru)
    }

    /// Why a store to a page by a thread is refused; none if it may. A page past the last is not mapped.
    /// Takes no memory.
    pub fn may_store(&self, thread: u16, pkru: Pkru, page: u32) -> Option<FaultKind>
        requires started { IsSome (rights.process_of self.now.threads thread) }
        ensures fault { result ≡ rights.store_fault self.now.threads self.now.holders thread pkru.0 (slice_index self.now.owners page) }
        ensures sound { spec.HasSoundMaps self.now }
    {
        store_fault(self.mapping(thread, page), pkru)
    }

    /// Puts pages under a coffer, and so into the tables of all its holders, present and later. Takes no
    /// memory, and is always `Ok`.
    pub fn add_pages(&mut self, id: u16, pages: &[u32]) -> Result<(), AllocError>
        requires pages { All (spec.MayStand id self.old.owners) pages.now }
        ensures ok { IsOk result }
        ensures after { self.new ≡ spec.with_owners (spec.with_pages id pages.now self.old.owners) self.old }
        ensures threads_stay { self.new.threads ≡ self.old.threads }
        ensures pages_stay { length self.new.owners ≡ length self.old.owners }
    {
        put_pages(&mut self.owners, id, pages);
        Ok(())
    }

    /// Takes pages out of all tables: they stand under no coffer. Takes no memory.
    pub fn take_pages(&mut self, pages: &[u32])
        requires pages { All (λ page. page < length self.old.owners) pages.now }
        ensures after { self.new ≡ spec.with_owners (spec.with_pages 0 pages.now self.old.owners) self.old }
        ensures threads_stay { self.new.threads ≡ self.old.threads }
        ensures pages_stay { length self.new.owners ≡ length self.old.owners }
    {
        put_pages(&mut self.owners, 0, pages);
    }

    /// Ends all maps of a coffer. Pages stay under it. Takes no memory.
    pub fn drop_coffer(&mut self, id: u16)
        ensures after { self.new ≡ spec.coffer_dropped id self.old }
        ensures threads_stay { self.new.threads ≡ self.old.threads }
        ensures pages_stay { length self.new.owners ≡ length self.old.owners }
    {
        rows::drop_coffer(&mut self.holders, id);
        mapping::drop_coffer(&mut self.mappings, id);
    }

    /// Ends all maps of a process. Pages stay under their coffers. Takes no memory.
    pub fn drop_process(&mut self, process: u8)
        ensures after { self.new ≡ spec.process_dropped process self.old }
        ensures threads_stay { self.new.threads ≡ self.old.threads }
        ensures pages_stay { length self.new.owners ≡ length self.old.owners }
    {
        rows::drop_process(&mut self.holders, &self.processes, process);
        mapping::drop_process(&mut self.mappings, process);
    }

    /// Ends all maps. Pages stay under their coffers. Takes no memory.
    pub fn drop_all(&mut self)
        ensures after { self.new ≡ spec.with_holders [] self.old }
        ensures threads_stay { self.new.threads ≡ self.old.threads }
        ensures pages_stay { length self.new.owners ≡ length self.old.owners }
    {
        self.holders.clear();
        mapping::drop_all(&mut self.mappings);
    }

    // How the process of the thread has the page's coffer mapped.
    fn mapping(&self, thread: u16, page: u32) -> Option<Mapping>
        requires { IsSome (rights.process_of self.now.threads thread) }
        ensures mapping { result ≡ lookup.mapping_for self.now.threads self.now.holders thread (slice_index self.now.owners page) }
        ensures key { IfSome result (λ mapping. mapping.key ≤ 15) }
        ensures sound { spec.HasSoundMaps self.now }
    {
        let id = mapping::owner_of(&self.owners, page);
        let process = process_of(&self.processes, thread);
        mapping_at(&self.mappings, process, id)
    }

    /// The process of a thread; none where it wasn't started. Takes no memory.
    pub fn process_of(&self, thread: u16) -> Option<u8>
        ensures { result ≡ rights.process_of self.now.threads thread }
    {
        rows::process_at(&self.processes, thread)
    }
}

fn load_fault(mapping: Option<Mapping>, pkru: Pkru) -> Option<FaultKind>
    requires { IfSome mapping (λ mapping. mapping.key ≤ 15) }
    ensures { result ≡ lookup.load_fault_of mapping pkru.0 }
{
    match mapping {
        None => Some(FaultKind::NotMapped),
        Some(mapping) => {
            if pkru.may_read(mapping.key) {
                None
            } else {
                Some(FaultKind::KeyDenied)
            }
        }
    }
}

fn store_fault(mapping: Option<Mapping>, pkru: Pkru) -> Option<FaultKind>
    requires { IfSome mapping (λ mapping. mapping.key ≤ 15) }
    ensures { result ≡ lookup.store_fault_of mapping pkru.0 }
{
    match mapping {
        None => Some(FaultKind::NotMapped),
        Some(mapping) => {
            if !mapping.writable {
                Some(FaultKind::NotWritable)
            } else if pkru.may_write(mapping.key) {
                None
            } else {
                Some(FaultKind::KeyDenied)
            }
        }
    }
}
