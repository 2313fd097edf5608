// The rule of the coffer table.
ghost use Rattle.std.specs.Prelude.{◌≡◌, ℕ, ◌<◌, ◌≤◌, ◌&&◌, ◌||◌, ◌==◌, not, codes, ◌+◌, ◌/◌, ◌%◌, ◌^◌, length};
ghost use Rattle.zo_layout.specs.Layout.{coffer_entry as coffer_entry_at};
ghost use Rattle.kern_model.specs.KernelView.{pages_of};
ghost use Rattle.kern_model.specs.Journal.{kernel_word};
ghost use Rattle.kern_model.specs.KernelTables as spec;
ghost use Rattle.tr_types.specs.Paths.{same_text};
ghost use Rattle.kern_view.specs.RuleParts.{IsLeast, claims_fail, fields_fail, has_path, perm_fails};

use crate::hashed::HashedPath;
use crate::paths::is_path_text;
use crate::tables::Tables;
use kern_model::{LAST_COFFER, ROOT_COFFER};
use zo_layout::{
    coffer_control, coffer_entry, coffer_gid, coffer_kind, coffer_mode, coffer_root, coffer_state,
    coffer_uid,
};

const LAST_USER: u64 = kern_model::LAST_USER as u64;

const MODE_BITS: u64 = kern_model::MODE_BITS as u64;

/// The state of an entry that is no coffer's.
const NONE: u64 = 0;

/// The one kind of coffers.
const KIND: u64 = 0;

impl<'a> Tables<'a> {
    /// The first number whose entry in the coffer table breaks the table's rule.
    pub fn first_bad_entry(&self) -> Option<u16>
        ensures { IsLeast (spec.entry_fails (pages_of self.now) (kernel_word self.now)) 1 257 result }
    {
        for id in 1..LAST_COFFER + 1 {
            if self.entry_fails(id) {
                return Some(id);
            }
        }
        None
    }

    fn entry_fails(&self, id: u16) -> bool
        requires least { 1 ≤ id }
        requires most { id ≤ 256 }
        ensures { result ≡ spec.entry_fails (pages_of self.now) (kernel_word self.now) id }
    {
        match self.path(id) {
            Some(path) => self.coffer_fails(id, path),
            None => self.word(coffer_state(self.entry(id))) != NONE || id == ROOT_COFFER,
        }
    }

    // The entry of a coffer that is there.
    fn coffer_fails(&self, id: u16, path: &HashedPath) -> bool
        requires least { 1 ≤ id }
        requires most { id ≤ 256 }
        requires path { path.now ≡ spec.path_in (pages_of self.now) (kernel_word self.now) id }
        ensures { result ≡ spec.coffer_fails (pages_of self.now) (kernel_word self.now) (spec.coffer_in (pages_of self.now) (kernel_word self.now) id) }
    {
        self.fields_fail(id, path) || self.claims_fail(id, path)
    }

    // Whether the permission, the path or the kind of a coffer is none.
    fn fields_fail(&self, id: u16, path: &HashedPath) -> bool
        requires least { 1 ≤ id }
        requires most { id ≤ 256 }
        requires path { path.now ≡ spec.path_in (pages_of self.now) (kernel_word self.now) id }
        ensures { result ≡ fields_fail (pages_of self.now) (kernel_word self.now) (spec.coffer_in (pages_of self.now) (kernel_word self.now) id) }
    {
        let kind = self.word(coffer_kind(self.entry(id)));
        self.perm_fails(id) || !is_path_text(path.as_bytes()) || kind != KIND
    }

    // Whether a coffer has a page or a path that isn't for it.
    fn claims_fail(&self, id: u16, path: &HashedPath) -> bool
        requires least { 1 ≤ id }
        requires most { id ≤ 256 }
        requires path { path.now ≡ spec.path_in (pages_of self.now) (kernel_word self.now) id }
        ensures { result ≡ claims_fail (pages_of self.now) (kernel_word self.now) (spec.coffer_in (pages_of self.now) (kernel_word self.now) id) }
    {
        self.pages_fail(id) || self.path_stands_twice(id, path) || is_misplaced(id, path)
    }

    fn perm_fails(&self, id: u16) -> bool
        requires least { 1 ≤ id }
        requires most { id ≤ 256 }
        ensures { result ≡ perm_fails (spec.perm_in (pages_of self.now) (kernel_word self.now) id) }
    {
        let entry = self.entry(id);
        let mode = self.word(coffer_mode(entry));
        self.word(coffer_uid(entry)) > LAST_USER
            || self.word(coffer_gid(entry)) > LAST_USER
            || mode & MODE_BITS != mode
    }

    // Whether the control page and the root page of a coffer aren't two pages of its own.
    fn pages_fail(&self, id: u16) -> bool
        requires least { 1 ≤ id }
        requires most { id ≤ 256 }
        ensures { result ≡ spec.pages_fail (pages_of self.now) (kernel_word self.now) (spec.coffer_in (pages_of self.now) (kernel_word self.now) id) }
    {
        let control = self.word(coffer_control(self.entry(id)));
        let root = self.word(coffer_root(self.entry(id)));
        !self.owns(id, control) || !self.owns(id, root) || control == root
    }

    fn owns(&self, id: u16, page: u64) -> bool
        ensures { result ≡ spec.owns (pages_of self.now) (kernel_word self.now) id page }
    {
        page < u64::from(self.pages()) && self.owner(page as u32) == u64::from(id)
    }

    // Whether another coffer has this path too.
    fn path_stands_twice(&self, id: u16, path: &HashedPath) -> bool
        requires least { 1 ≤ id }
        requires most { id ≤ 256 }
        requires path { path.now ≡ spec.path_in (pages_of self.now) (kernel_word self.now) id }
        ensures { result ≡ spec.path_stands_twice (pages_of self.now) (kernel_word self.now) id }
    {
        for other in 1..LAST_COFFER + 1 {
            if other != id && self.has_path(other, path) {
                return true;
            }
        }
        false
    }

    // Whether a coffer is there and has this path.
    fn has_path(&self, id: u16, path: &HashedPath) -> bool
        requires least { 1 ≤ id }
        requires most { id ≤ 256 }
        ensures { result ≡ has_path (pages_of self.now) (kernel_word self.now) path.now id }
    {
        match self.path(id) {
            Some(own) => own.is_same(path),
            None => false,
        }
    }

    /// The address of a coffer's entry.
    pub fn entry(&self, id: u16) -> u64
        requires least { 1 ≤ id }
        requires most { id ≤ 256 }
        ensures at { result ≡ coffer_entry_at (pages_of self.now) id }
        ensures near { result < 2 ^ 60 }
        ensures aligned { result % 8 ≡ 0 }
        ensures inside { result / 8 + 64 ≤ length self.now }
    {
        coffer_entry(self.pages(), id)
    }
}

// Whether the root coffer has a path other than `/`.
fn is_misplaced(id: u16, path: &HashedPath) -> bool
    ensures { result ≡ ((id == 1) && not (same_text path.now (codes "/"))) }
{
    id == ROOT_COFFER && path.as_bytes() != b"/".as_slice()
}
