// The image of a new file system: the kernel's tables and an empty root coffer.
ghost use Rattle.std.specs.Prelude.{◌≡◌, ◌*◌, ◌<◌, ◌≤◌, length, IfOk};
ghost use Rattle.pm_words.specs.Memory.{all_durable};
ghost use Rattle.kern_model.specs.NewImage as spec;
ghost use Rattle.kern_model.specs.Commits.{AreDurable, HasSteadyTables};

use kern_model::{TREASURY, VERSION};
use pm_words::{Image, NoMemory, Words};
use std::alloc::Global;
use std::marker::Model;

/// Words of a page.
const PAGE_WORDS: u32 = zo_layout::PAGE_WORDS as u32;

const KERNEL: u64 = kern_model::KERNEL as u64;

const ROOT_COFFER: u64 = kern_model::ROOT_COFFER as u64;

const ROOT_MODE: u64 = kern_model::ROOT_MODE as u64;

/// A coffer that stands, in the coffer table.
const STANDING: u64 = 1;

/// The bucket of the path `/`.
const ROOT_BUCKET: u32 = 254;

/// Where the kernel's tables begin in an image of so many pages, by page number.
#[derive(Drop)]
struct Tables {
    pages: u32,
    owner_table: u32,
    coffer_table: u32,
    bucket_page: u32,
    root_control: u32,
}

impl Model for Tables {
    ghost use Rattle.std.specs.Prelude.{ℕ, ◌≡◌, ◌≤◌};
    ghost use Rattle.zo_layout.specs.Layout as layout;

    // the number of pages, from which all else follows
    ghost Value = { ℕ };

    ghost view = { λ t. t.pages };

    ghost invariant = { λ t. (t.pages ≤ 16384) × (t.owner_table ≡ layout.owner_table t.pages)
        × (t.coffer_table ≡ layout.coffer_table t.pages) × (t.bucket_page ≡ layout.bucket_page t.pages)
        × (t.root_control ≡ layout.root_control t.pages) };
}

impl Tables {
    fn of(pages: u32) -> Tables
        requires { pages ≤ 16384 }
        ensures { result ≡ pages }
    {
        Tables {
            pages,
            owner_table: zo_layout::owner_table(pages),
            coffer_table: zo_layout::coffer_table(pages),
            bucket_page: zo_layout::bucket_page(pages),
            root_control: zo_layout::root_control(pages),
        }
    }

    /// Word `i` of a page.
    fn word(&self, page: u32, i: u32) -> u64
        requires inside { page < self.now }
        requires place { i < 512 }
        ensures { result ≡ spec.word_in_page self.now page i }
    {
        if page == 0 {
            self.superblock_word(i)
        } else if page < self.owner_table {
            0
        } else if page < self.coffer_table {
            self.owner(PAGE_WORDS * (page - self.owner_table) + i)
        } else if page == self.coffer_table {
            self.coffer_word(i)
        } else if page == self.bucket_page {
            bucket_word(i)
        } else {
            0
        }
    }

    fn superblock_word(&self, i: u32) -> u64
        ensures { result ≡ spec.superblock_word self.now i }
    {
        match i {
            0 => TREASURY,
            1 => VERSION,
            2 => u64::from(self.pages),
            _ => 0,
        }
    }

    /// The word of the owner table for a page, 0 past the image's last page.
    fn owner(&self, page: u32) -> u64
        ensures { result ≡ spec.owner_table_word self.now page }
    {
        if page >= self.pages {
            0
        } else if page < self.root_control {
            KERNEL
        } else if page < self.root_control + 2 {
            ROOT_COFFER
        } else {
            0
        }
    }

    /// Word `i` of the coffer table, whose first entry is the root coffer.
    fn coffer_word(&self, i: u32) -> u64
        ensures { result ≡ spec.coffer_word self.now i }
    {
        match i {
            0 => STANDING,
            3 => ROOT_MODE,
            4 => u64::from(self.root_control),
            5 => u64::from(self.root_control + 1),
            7 => 1,
            9 => u64::from(b'/'),
            _ => 0,
        }
    }
}

/// Word `i` of the page of path buckets.
fn bucket_word(i: u32) -> u64
    ensures { result ≡ spec.bucket_word i }
{
    if i == ROOT_BUCKET { ROOT_COFFER } else { 0 }
}

/// The words of a new image of 64 to 16,384 pages, all durable, so that a crash can change nothing of the
/// kernel's pages.
pub fn new_image(alloc: Global, pages: u32) -> Result<Words, NoMemory>
    requires least { 64 ≤ pages }
    requires most { pages ≤ 16384 }
    ensures words { IfOk result (λ words. words ≡ all_durable (spec.new_image pages)) }
    ensures len { IfOk result (λ words. length words ≡ 512 * pages) }
    ensures durable { IfOk result (λ words. AreDurable words) }
    ensures steady { IfOk result (λ words. HasSteadyTables words) }
{
    let words = image_words(alloc, pages)?;
    Words::of_image(alloc, Image::new(words))
}

// The words of the new image, 512 for each page.
#[tactic(auto, using(crate::proofs::NewImageLemmas::one_word_more))]
fn image_words(alloc: Global, pages: u32) -> Result<Vec<u64>, NoMemory>
    requires { pages ≤ 16384 }
    ensures { IfOk result (λ words. words.items ≡ spec.new_image pages) }
{
    let tables = Tables::of(pages);
    let mut words = Vec::with_capacity(alloc, (PAGE_WORDS * pages) as usize)?;
    for page in 0..pages {
        for i in 0..PAGE_WORDS {
            words.push(tables.word(page, i))?;
        }
    }
    Ok(words)
}
