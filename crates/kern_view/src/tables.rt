// The rules of the owner table, the coffer table and the path buckets.
ghost use Rattle.std.specs.Prelude.{◌≡◌, ℕ, ◌<◌, ◌≤◌, ◌&&◌, not, length, true, IfOk, option_map};
ghost use Rattle.std.specs.List.{list_all, filter};
ghost use Rattle.pm_words.specs.Memory.{IsAddress, HasPages};
ghost use Rattle.kern_model.specs.KernelView.{pages_of};
ghost use Rattle.kern_model.specs.Journal.{kernel_word, IsReadable};
ghost use Rattle.kern_model.specs.KernelTables as spec;
ghost use Rattle.kern_view.specs.Reads.{path_there, paths_there};
ghost use Rattle.kern_view.specs.RuleParts.{IsLeast};

use crate::hashed::HashedPath;
use crate::view::View;
use kern_model::LAST_COFFER;
use pm_words::{NoMemory, Words};
use std::alloc::Global;
use std::marker::Model;
use zo_layout::{
    coffer_entry, coffer_path_length, coffer_path_word, coffer_state, kernel_pages, owner_word,
};

const NOBODY: u64 = kern_model::NOBODY as u64;

const KERNEL: u64 = kern_model::KERNEL as u64;

/// Words of a path in the entry of its coffer.
const PATH_WORDS: u32 = 55;

const LONGEST_PATH: u64 = kern_model::LONGEST_PATH as u64;

/// The kernel's tables as they are read, with the path of each coffer read once.
#[derive(Drop)]
pub struct Tables<'a> {
    view: View<'a>,
    // By the coffers' numbers, from number 1 on. None where no coffer is there.
    paths: Vec<Option<HashedPath>>,
}

impl<'a> Model for Tables<'a> {
    ghost use Rattle.std.specs.Prelude.{◌≡◌, List};
    ghost use Rattle.std.specs.Coded.{coded_list};
    ghost use Rattle.pm_words.specs.Word.{Word};

    ghost Value = { List Word };

    ghost use Rattle.kern_view.specs.Reads.{paths_there};

    ghost view = { λ t. t.view };

    ghost invariant = { λ t. t.paths.items ≡ paths_there t.view };
}

impl<'a> Tables<'a> {
    /// The tables of an image whose committed pairs can be finished.
    pub fn read(alloc: Global, words: &'a Words) -> Result<Tables<'a>, NoMemory>
        requires { IsReadable words.now }
        ensures { IfOk result (λ tables. tables ≡ words.now) }
    {
        let view = View::new(alloc, words)?;
        let paths = read_paths(alloc, &view)?;
        Ok(Tables { view, paths })
    }

    /// The number of pages.
    pub fn pages(&self) -> u32
        ensures pages { result ≡ pages_of self.now }
        ensures size { HasPages (length self.now) }
    {
        self.view.pages()
    }

    /// What the kernel reads at a byte address.
    pub fn word(&self, addr: u64) -> u64
        requires { IsAddress (length self.now) addr }
        ensures { result ≡ kernel_word self.now addr }
    {
        self.view.word(addr)
    }

    /// The path of a coffer that is there.
    pub fn path(&self, id: u16) -> Option<&HashedPath>
        requires least { 1 ≤ id }
        requires most { id ≤ 256 }
        ensures { option_map (λ p. p.now) result ≡ path_there (pages_of self.now) (kernel_word self.now) id }
    {
        self.paths[usize::from(id) - 1].as_ref()
    }

    /// Whether a word is the number of a coffer that is there.
    pub fn is_coffer(&self, word: u64) -> bool
        ensures value { result ≡ (spec.is_id word && spec.stands_in (pages_of self.now) (kernel_word self.now) word) }
        ensures least { result ≡ true → 1 ≤ word }
        ensures most { result ≡ true → word ≤ 256 }
    {
        word >= 1 && word <= u64::from(LAST_COFFER) && self.path(word as u16).is_some()
    }

    /// Whose a page is.
    pub fn owner(&self, page: u32) -> u64
        requires { page < pages_of self.now }
        ensures { result ≡ spec.owner_in (pages_of self.now) (kernel_word self.now) page }
    {
        self.view.word(owner_word(self.pages(), page))
    }

    // The rule of an owner word.
    fn owner_fails(&self, page: u32) -> bool
        requires { page < pages_of self.now }
        ensures { result ≡ spec.owner_fails (pages_of self.now) (kernel_word self.now) page }
    {
        let owner = self.owner(page);
        if page < kernel_pages(self.pages()) {
            owner != KERNEL
        } else {
            owner != NOBODY && !self.is_coffer(owner)
        }
    }

    /// The first page of which the owner table says what it may not.
    pub fn first_bad_page(&self) -> Option<u32>
        ensures { IsLeast (spec.owner_fails (pages_of self.now) (kernel_word self.now)) 0 (pages_of self.now) result }
    {
        for page in 0..self.pages() {
            if self.owner_fails(page) {
                return Some(page);
            }
        }
        None
    }
}

// The paths of all coffers.
fn read_paths(alloc: Global, view: &View) -> Result<Vec<Option<HashedPath>>, NoMemory>
    ensures { IfOk result (λ paths. paths.items ≡ paths_there view.now) }
{
    let mut paths = Vec::with_capacity(alloc, usize::from(LAST_COFFER))?;
    for id in 1..LAST_COFFER + 1 {
        paths.push(read_coffer(alloc, view, id)?)?;
    }
    Ok(paths)
}

// The path of a coffer, where it is there.
fn read_coffer(alloc: Global, view: &View, id: u16) -> Result<Option<HashedPath>, NoMemory>
    requires least { 1 ≤ id }
    requires most { id ≤ 256 }
    ensures { IfOk result (λ path. path ≡ path_there (pages_of view.now) (kernel_word view.now) id) }
{
    match view.word(coffer_state(coffer_entry(view.pages(), id))) {
        1 | 2 => Ok(Some(read_path(alloc, view, id)?)),
        _ => Ok(None),
    }
}

// The path that the entry of a coffer says; none where it is said to be longer than the entry is.
fn read_path(alloc: Global, view: &View, id: u16) -> Result<HashedPath, NoMemory>
    requires least { 1 ≤ id }
    requires most { id ≤ 256 }
    ensures { IfOk result (λ path. path ≡ spec.path_in (pages_of view.now) (kernel_word view.now) id) }
{
    let entry = coffer_entry(view.pages(), id);
    let length = view.word(coffer_path_length(entry));
    if length > LONGEST_PATH {
        return Ok(HashedPath::new(Vec::new(alloc)));
    }
    let mut bytes = Vec::with_capacity(alloc, LONGEST_PATH as usize)?;
    for i in 0..PATH_WORDS {
        bytes.extend_from_slice(&view.word(coffer_path_word(entry, i)).to_le_bytes())?;
    }
    bytes.truncate(length as usize);
    Ok(HashedPath::new(bytes))
}
