// How processes have coffers mapped, and pages under which coffers.
ghost use Rattle.std.specs.Prelude.{◌≡◌, ◌≢◌, ℕ, ◌+◌, ◌*◌, ◌/◌, ◌%◌, ◌<◌, ◌≤◌, length, All, None, IfOk, slice_index, slice_index_or, slice_set};
ghost use Rattle.std.specs.Vec.{vec_len};
ghost use Rattle.page_rights.specs.Tables as tables;
ghost use Rattle.page_rights.specs.Lookup.{place_of as spec_place, mapping_of, mapping_at as spec_mapping};

use crate::rows::mapping_of;
use std::alloc::{AllocError, Global};
use tr_types::{Holder, PROCESSES};

/// Coffers and 0, which is none.
const COFFERS: u16 = 257;

/// How a process has a coffer mapped: its key, and whether a thread of it may write.
#[derive(Clone, Copy, Debug, PartialEq, Eq)]
pub struct Mapping {
    pub key: u8,
    pub writable: bool,
}

/// Nothing, in so many places.
pub fn nothing<T: Copy>(alloc: Global, count: usize) -> Result<Vec<Option<T>>, AllocError>
    ensures len { IfOk result (λ v. length v.items ≡ count) }
    ensures none { IfOk result (λ v. (k : ℕ) → slice_index_or v.items k None ≡ None) }
{
    let places = vec![in alloc; None; count]?;
    Ok(places)
}

/// So many pages that stand under no coffer.
pub fn unowned(alloc: Global, count: usize) -> Result<Vec<u16>, AllocError>
    ensures len { IfOk result (λ v. length v.items ≡ count) }
    ensures none { IfOk result (λ v. All (λ owner. owner ≡ 0) v.items) }
{
    let owners = vec![in alloc; 0; count]?;
    Ok(owners)
}

/// The place of a process and a coffer of 0 to 256.
pub fn place_of(process: u8, id: u16) -> usize
    ensures { result ≡ spec_place process id }
{
    usize::from(COFFERS) * usize::from(process) + usize::from(id)
}

/// Keeps what the holders say of a process and a coffer.
pub fn look_up(
    mappings: &mut [Option<Mapping>],
    processes: &[Option<u8>],
    holders: &[Holder],
    process: u8,
    id: u16,
)
    requires { spec_place process id < length mappings.old }
    ensures { mappings.new ≡ slice_set mappings.old (spec_place process id) (mapping_of processes.now holders.now process id) }
{
    mappings[place_of(process, id)] = mapping_of(processes, holders, process, id);
}

/// How a process has a coffer mapped; none for a coffer past 256.
pub fn mapping_at(mappings: &[Option<Mapping>], process: u8, id: u16) -> Option<Mapping>
    requires places { length mappings.now ≡ 16448 }
    requires process { process < 64 }
    ensures inside { id ≤ 256 → result ≡ spec_mapping mappings.now process id }
    ensures past { 256 < id → result ≡ None }
{
    if id < COFFERS {
        mappings[place_of(process, id)]
    } else {
        None
    }
}

/// The process hasn't the coffer mapped.
fn forget(mappings: &mut [Option<Mapping>], process: u8, id: u16)
    requires { spec_place process id < length mappings.old }
    ensures { mappings.new ≡ slice_set mappings.old (spec_place process id) None }
{
    mappings[place_of(process, id)] = None;
}

/// No process has the coffer mapped.
pub fn drop_coffer(mappings: &mut [Option<Mapping>], id: u16)
    requires places { length mappings.old ≡ 16448 }
    ensures len { length mappings.new ≡ length mappings.old }
    ensures gone { (k : ℕ) → k % 257 ≡ id → slice_index_or mappings.new k None ≡ None }
    ensures others { (k : ℕ) → k % 257 ≢ id → slice_index_or mappings.new k None ≡ slice_index_or mappings.old k None }
{
    if id < COFFERS {
        for process in 0..PROCESSES {
            forget(mappings, process, id);
        }
    }
}

/// The process has no coffer mapped.
pub fn drop_process(mappings: &mut [Option<Mapping>], process: u8)
    requires places { length mappings.old ≡ 16448 }
    ensures len { length mappings.new ≡ length mappings.old }
    ensures gone { (k : ℕ) → k / 257 ≡ process → slice_index_or mappings.new k None ≡ None }
    ensures others { (k : ℕ) → k / 257 ≢ process → slice_index_or mappings.new k None ≡ slice_index_or mappings.old k None }
{
    if process < PROCESSES {
        for id in 0..COFFERS {
            forget(mappings, process, id);
        }
    }
}

/// No process has any coffer mapped.
pub fn drop_all(mappings: &mut [Option<Mapping>])
    ensures len { length mappings.new ≡ length mappings.old }
    ensures gone { (k : ℕ) → k < length mappings.old → slice_index_or mappings.new k None ≡ None }
{
    for place in 0..mappings.len() {
        mappings[place] = None;
    }
}

/// The coffer under which a page stands, 0 for none and past the last page.
pub fn owner_of(owners: &[u16], page: u32) -> u16
    ensures { result ≡ slice_index owners.now page }
{
    let place = page as usize;
    if place < owners.len() {
        owners[place]
    } else {
        0
    }
}

/// The pages stand under the coffer, or under none where it is 0.
pub fn put_pages(owners: &mut [u16], id: u16, pages: &[u32])
    requires { All (λ page. page < length owners.old) pages.now }
    ensures { owners.new ≡ tables.with_pages id pages.now owners.old }
{
    for &page in pages {
        owners[page as usize] = id;
    }
}
