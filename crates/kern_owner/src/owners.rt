// Whose each page is.
ghost use Rattle.std.specs.Prelude.{◌≡◌, ◌<◌, length, take, min, IfOk};
ghost use Rattle.kern_model.specs.KernelView as view;
ghost use Rattle.kern_model.specs.Kernel as kernel;
ghost use Rattle.kern_model.specs.KernelRules.{IsSoundKernel};

use kern_journal::kernel_word;
use kern_model::NOBODY;
use pm_words::{NoMemory, Words};
use std::alloc::Global;
use zo_layout::owner_word;

/// Whose a page is: 0 nobody's, 1 to 256 a coffer's by its number, 65,535 the kernel's. Takes no memory.
pub fn owner(words: &Words, page: u32) -> u16
    requires sound { IsSoundKernel words.now }
    requires inside { page < view.pages_of words.now }
    ensures { result ≡ kernel.kernel_owner words.now page }
{
    kernel_word(words, owner_word(words.pages(), page)) as u16
}

/// How many pages are nobody's. Takes no memory.
pub fn free_pages(words: &Words) -> u32
    requires sound { IsSoundKernel words.now }
    ensures { result ≡ length (kernel.spare_pages words.now) }
{
    free_up_to(words, words.pages())
}

/// How many pages are nobody's, or `most` where there are more: it looks no further.
pub fn free_up_to(words: &Words, most: u32) -> u32
    requires sound { IsSoundKernel words.now }
    ensures { result ≡ min most (length (kernel.spare_pages words.now)) }
{
    let mut free = 0;
    for page in 0..words.pages() {
        if free == most {
            return free;
        }
        if owner(words, page) == NOBODY {
            free += 1;
        }
    }
    free
}

/// The numbers of the pages that an owner has, the least first. A number that is no coffer's has none,
/// but 0 has the free pages and 65,535 the kernel's.
pub fn pages_of(alloc: Global, words: &Words, id: u16) -> Result<Vec<u32>, NoMemory>
    requires sound { IsSoundKernel words.now }
    ensures { IfOk result (λ list. list.items ≡ kernel.coffer_pages words.now id) }
{
    first_pages(alloc, words, id, words.pages())
}

/// The least pages of an owner, `most` of them where it has as many: it looks no further.
pub fn first_pages(alloc: Global, words: &Words, id: u16, most: u32) -> Result<Vec<u32>, NoMemory>
    requires sound { IsSoundKernel words.now }
    ensures { IfOk result (λ list. list.items ≡ take most (kernel.coffer_pages words.now id)) }
{
    let mut list = Vec::new(alloc);
    for page in 0..words.pages() {
        if list.len() == most as usize {
            return Ok(list);
        }
        if owner(words, page) == id {
            list.push(page)?;
        }
    }
    Ok(list)
}
