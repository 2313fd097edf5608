// What the list of holders says.
ghost use Rattle.std.specs.Prelude.{◌≡◌, ◌≤◌, ◌==◌, not, Some, IsSome, OnOk, OnErr};
ghost use Rattle.kern_model.specs.Rights as rights;
ghost use Rattle.kern_model.specs.KernelCalls as calls;
ghost use Rattle.std.specs.Vec.{vec_len, vec_capacity};
ghost use Rattle.page_rights.specs.Lookup as lookup;

use crate::mapping::Mapping;
use std::alloc::AllocError;
use tr_types::Holder;

/// The process of a thread, by the thread's number.
pub fn process_at(processes: &[Option<u8>], thread: u16) -> Option<u8>
    ensures { result ≡ lookup.process_at processes.now thread }
{
    let place = usize::from(thread);
    if place < processes.len() {
        processes[place]
    } else {
        None
    }
}

/// The process of a thread that was started.
pub fn process_of(processes: &[Option<u8>], thread: u16) -> u8
    requires { IsSome (lookup.process_at processes.now thread) }
    ensures { lookup.process_at processes.now thread ≡ Some result }
{
    process_at(processes, thread).unwrap()
}

/// Whether the thread was started in the process.
pub fn is_in(processes: &[Option<u8>], thread: u16, process: u8) -> bool
    ensures { result ≡ lookup.is_in processes.now thread process }
{
    process_at(processes, thread) == Some(process)
}

/// The key that the process has for the coffer.
pub fn key_of(processes: &[Option<u8>], holders: &[Holder], process: u8, id: u16) -> Option<u8>
    ensures { result ≡ lookup.key_of processes.now holders.now process id }
{
    for holder in holders {
        if holder.id == id && is_in(processes, holder.thread, process) {
            return Some(holder.key);
        }
    }
    None
}

/// Whether a thread of the process holds the coffer for writing.
pub fn is_writable(processes: &[Option<u8>], holders: &[Holder], process: u8, id: u16) -> bool
    ensures { result ≡ lookup.is_writable_in processes.now holders.now process id }
{
    for holder in holders {
        if holder.id == id && is_in(processes, holder.thread, process) && holder.right.writes() {
            return true;
        }
    }
    false
}

/// How the process has the coffer mapped.
pub fn mapping_of(
    processes: &[Option<u8>],
    holders: &[Holder],
    process: u8,
    id: u16,
) -> Option<Mapping>
    ensures { result ≡ lookup.mapping_of processes.now holders.now process id }
{
    let key = key_of(processes, holders, process, id)?;
    Some(Mapping {
        key,
        writable: is_writable(processes, holders, process, id),
    })
}

/// Whether no thread of the process holds a coffer under the key.
fn is_free_key(processes: &[Option<u8>], holders: &[Holder], process: u8, key: u8) -> bool
    ensures { result ≡ lookup.is_free_in processes.now holders.now process key }
{
    for holder in holders {
        if holder.key == key && is_in(processes, holder.thread, process) {
            return false;
        }
    }
    true
}

/// The least key of 1 to 15 that is free in the process.
fn first_free_key(processes: &[Option<u8>], holders: &[Holder], process: u8) -> Option<u8>
    ensures { result ≡ rights.first_of (lookup.free_in processes.now holders.now process) }
{
    for key in 1u8..16 {
        if is_free_key(processes, holders, process, key) {
            return Some(key);
        }
    }
    None
}

/// The key under which the process may map the coffer: that which it has for it, or else the least
/// that is free.
pub fn key_for(processes: &[Option<u8>], holders: &[Holder], process: u8, id: u16) -> Option<u8>
    ensures { result ≡ lookup.key_for_in processes.now holders.now process id }
{
    match key_of(processes, holders, process, id) {
        Some(key) => Some(key),
        None => first_free_key(processes, holders, process),
    }
}

/// The least thread that stands against a map of the coffer.
pub fn least_against(holders: &[Holder], thread: u16, id: u16, exclusive: bool) -> Option<u16>
    ensures { lookup.IsLeast (rights.those_against thread id exclusive holders.now) result }
{
    let mut least = None;
    for holder in holders {
        if stands_against(holder, thread, id, exclusive) {
            least = Some(lesser(least, holder.thread));
        }
    }
    least
}

fn stands_against(holder: &Holder, thread: u16, id: u16, exclusive: bool) -> bool
    ensures { result ≡ rights.stands_against thread id exclusive holder.now }
{
    holder.id == id && holder.thread != thread && (holder.exclusive || exclusive)
}

fn lesser(least: Option<u16>, thread: u16) -> u16
    ensures { result ≡ lookup.lesser least thread }
{
    match least {
        Some(least) => least.min(thread),
        None => thread,
    }
}

fn is_row_of(holder: &Holder, thread: u16, id: u16) -> bool
    ensures { result ≡ rights.is_row_of thread id holder.now }
{
    holder.thread == thread && holder.id == id
}

/// The thread's own row of the coffer.
pub fn own_row(holders: &[Holder], thread: u16, id: u16) -> Option<Holder>
    ensures { result ≡ calls.own_row thread id holders.now }
{
    for holder in holders {
        if is_row_of(holder, thread, id) {
            return Some(*holder);
        }
    }
    None
}

/// Whether the thread itself holds the coffer.
pub fn holds_any(holders: &[Holder], thread: u16, id: u16) -> bool
    ensures { result ≡ calls.holds_any thread id holders.now }
{
    for holder in holders {
        if is_row_of(holder, thread, id) {
            return true;
        }
    }
    false
}

/// Whether the thread itself holds the coffer for writing.
pub fn holds_for_writing(holders: &[Holder], thread: u16, id: u16) -> bool
    ensures { result ≡ calls.holds_for_writing thread id holders.now }
{
    for holder in holders {
        if is_row_of(holder, thread, id) && holder.right.writes() {
            return true;
        }
    }
    false
}

/// Whether the thread itself holds the coffer as its owner, for itself alone.
pub fn holds_as_owner(holders: &[Holder], thread: u16, id: u16) -> bool
    ensures { result ≡ calls.holds_as_owner thread id holders.now }
{
    for holder in holders {
        if is_row_of(holder, thread, id) && holder.right.owns() && holder.exclusive {
            return true;
        }
    }
    false
}

/// Ends the thread's own map of the coffer.
pub fn drop_row(holders: &mut Vec<Holder>, thread: u16, id: u16)
    ensures items { holders.new.items ≡ rights.without_row thread id holders.old.items }
    ensures len { vec_len holders.new ≤ vec_len holders.old }
    ensures capacity { vec_capacity holders.new ≡ vec_capacity holders.old }
{
    holders.retain(
        |h: &Holder| -> bool
            ensures { result ≡ not (rights.is_row_of thread id h.now) }
        { !is_row_of(h, thread, id) },
    );
}

/// Puts a row in the place of the thread's earlier one of the same coffer. An error changes nothing.
pub fn put_row(holders: &mut Vec<Holder>, row: Holder) -> Result<(), AllocError>
    ensures ok { OnOk result (holders.new.items ≡ rights.with_row row holders.old.items) }
    ensures err { OnErr result (holders.new.items ≡ holders.old.items) }
{
    holders.reserve(1)?;
    drop_row(holders, row.thread, row.id);
    holders.push(row).unwrap();
    Ok(())
}

/// Ends all maps of the coffer.
pub fn drop_coffer(holders: &mut Vec<Holder>, id: u16)
    ensures { holders.new.items ≡ calls.without_coffer id holders.old.items }
{
    holders.retain(
        |h: &Holder| -> bool
            ensures { result ≡ not (h.now.id == id) }
        { h.id != id },
    );
}

/// Ends all maps of the process.
pub fn drop_process(holders: &mut Vec<Holder>, processes: &[Option<u8>], process: u8)
    ensures { holders.new.items ≡ lookup.without_process_in processes.now process holders.old.items }
{
    holders.retain(
        |h: &Holder| -> bool
            ensures { result ≡ not (lookup.is_in processes.entry.now h.now.thread process) }
        { !is_in(processes, h.thread, process) },
    );
}
