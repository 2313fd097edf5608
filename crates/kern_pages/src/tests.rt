// Pages of a new image of 64 pages: the first 38 are the kernel's, 38 and 39 the root coffer's, and the
// others nobody's.
ghost use Rattle.std.specs.Prelude.{◌≡◌, ℕ, ◌<◌, ◌≤◌, length, slice_index, IfOk};
ghost use Rattle.kern_model.specs.KernelView as view;
ghost use Rattle.kern_model.specs.KernelRules.{IsSoundKernel};

use super::*;
use kern_journal::new_image;
use kern_model::{KERNEL, NOBODY, ROOT_COFFER};
use pm_words::{NoMemory, Words};
use std::alloc::Global;
use std::test::Fail;

fn new_words(alloc: Global) -> Result<Words, NoMemory>
    ensures sound { IfOk result (λ w. IsSoundKernel w) }
    ensures size { IfOk result (λ w. view.pages_of w ≡ 64) }
{
    new_image(alloc, 64)
}

fn new_owners(alloc: Global) -> Result<Owners, NoMemory>
    ensures size { IfOk result (λ o. length o ≡ 64) }
    ensures outer { IfOk result (λ o. (page : ℕ) → 38 ≤ page → page < 64 → slice_index o page ≤ 256) }
{
    let words = new_words(alloc)?;
    Owners::of_words(alloc, &words)
}

#[test]
fn a_new_image_has_pages_of_the_kernel_of_the_root_coffer_and_of_nobody(
    rt: HostRuntime,
) -> Result<(), Fail> {
    let owners = new_owners(rt.alloc())?;
    assert_eq!(rt; owners.owner(37), KERNEL);
    assert_eq!(rt; owners.owner(38), ROOT_COFFER);
    assert_eq!(rt; owners.count(ROOT_COFFER), 2);
    assert_eq!(rt; owners.count(NOBODY), 24);
    assert_eq!(rt; owners.count(256), 0);
    Ok(())
}

#[test]
fn the_first_pages_are_the_least(rt: HostRuntime) -> Result<(), Fail> {
    let owners = new_owners(rt.alloc())?;
    let free = owners.first(NOBODY, 3)?;
    let roots = owners.first(ROOT_COFFER, 3)?;
    let none = owners.first(NOBODY, 0)?;
    assert_eq!(rt; free.as_slice(), [40, 41, 42].as_slice());
    assert_eq!(rt; roots.as_slice(), [38, 39].as_slice());
    assert!(rt; none.is_empty());
    Ok(())
}

#[test]
fn a_free_page_passes_to_a_coffer(rt: HostRuntime) -> Result<(), Fail> {
    let mut owners = new_owners(rt.alloc())?;
    owners.pass(41, 2)?;
    let free = owners.first(NOBODY, 2)?;
    let pages = owners.pages(2)?;
    assert_eq!(rt; owners.owner(41), 2);
    assert_eq!(rt; free.as_slice(), [40, 42].as_slice());
    assert_eq!(rt; pages.as_slice(), [41].as_slice());
    Ok(())
}

#[test]
fn a_page_that_goes_back_stands_before_the_greater_ones(rt: HostRuntime) -> Result<(), Fail> {
    let mut owners = new_owners(rt.alloc())?;
    owners.pass(38, NOBODY)?;
    let free = owners.first(NOBODY, 2)?;
    let pages = owners.pages(ROOT_COFFER)?;
    assert_eq!(rt; free.as_slice(), [38, 40].as_slice());
    assert_eq!(rt; pages.as_slice(), [39].as_slice());
    Ok(())
}

#[test]
fn a_pass_to_the_owner_that_a_page_has_changes_nothing(rt: HostRuntime) -> Result<(), Fail> {
    let mut owners = new_owners(rt.alloc())?;
    owners.pass(39, ROOT_COFFER)?;
    let pages = owners.pages(ROOT_COFFER)?;
    assert_eq!(rt; owners.owner(39), ROOT_COFFER);
    assert_eq!(rt; pages.as_slice(), [38, 39].as_slice());
    Ok(())
}
