// Pages that come to an owner.
ghost use Rattle.std.specs.Prelude.{◌≡◌, ◌<◌, ◌++◌, slice_index_or, All, OnOk};
ghost use Rattle.kern_model.specs.KernelView.{pages_of};
ghost use Rattle.kern_model.specs.KernelCalls as calls;

use pm_words::Words;
use std::alloc::AllocError;
use zo_layout::owner_word;

/// One of some pages, or 0.
pub fn page_of(pages: &[u32], i: usize) -> u32
    ensures { result ≡ slice_index_or pages.now i 0 }
{
    match pages.get(i) {
        Some(&page) => page,
        None => 0,
    }
}

/// Adds the pairs by which these pages become the owner's, 0 for nobody's.
pub fn pass_pages(
    pairs: &mut Vec<(u64, u64)>,
    words: &Words,
    pages: &[u32],
    owner: u16,
) -> Result<(), AllocError>
    requires { All (λ page. page < pages_of words.now) pages.now }
    ensures { OnOk result (pairs.new.items ≡ pairs.old.items ++ calls.owner_pairs words.now owner pages.now) }
{
    let image = words.pages();
    for &page in pages {
        pairs.push((owner_word(image, page), u64::from(owner)))?;
    }
    Ok(())
}
