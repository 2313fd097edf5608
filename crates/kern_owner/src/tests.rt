// Pages of a new image of 64 pages: the first 38 are the kernel's, 38 and 39 the root coffer's, and the
// others nobody's. The owner table is page 4, from address 16,384 on.
ghost use Rattle.std.specs.Prelude.{◌≡◌, IfOk};
ghost use Rattle.kern_model.specs.KernelView as view;
ghost use Rattle.kern_model.specs.KernelRules.{IsSoundKernel};

use super::*;
use kern_journal::new_image;
use kern_model::{KERNEL, ROOT_COFFER};
use pm_words::{NoMemory, Words};
use std::alloc::Global;
use std::test::Fail;

fn new_words(alloc: Global) -> Result<Words, NoMemory>
    ensures sound { IfOk result (λ w. IsSoundKernel w) }
    ensures size { IfOk result (λ w. view.pages_of w ≡ 64) }
{
    new_image(alloc, 64)
}

// A new image with a committed pair: page 50 is to be the root coffer's.
fn words_with_a_pair(alloc: Global) -> Result<Words, NoMemory>
    ensures sound { IfOk result (λ w. IsSoundKernel w) }
    ensures size { IfOk result (λ w. view.pages_of w ≡ 64) }
{
    let mut words = new_image(alloc, 64)?;
    words.store(4160, 16784)?;
    words.store(4168, 1)?;
    words.store(4096, 1)?;
    Ok(words)
}

#[test]
fn pages_of_a_new_image_are_the_kernels_the_root_coffers_and_free(
    rt: HostRuntime,
) -> Result<(), Fail> {
    let words = new_words(rt.alloc())?;
    assert_eq!(rt; owner(&words, 37), KERNEL);
    assert_eq!(rt; owner(&words, 38), ROOT_COFFER);
    assert_eq!(rt; owner(&words, 40), 0);
    assert_eq!(rt; free_pages(&words), 24);
    Ok(())
}

#[test]
fn the_root_coffer_has_two_pages(rt: HostRuntime) -> Result<(), Fail> {
    let words = new_words(rt.alloc())?;
    let pages = pages_of(rt.alloc(), &words, ROOT_COFFER)?;
    assert_eq!(rt; pages.as_slice(), [38, 39].as_slice());
    Ok(())
}

#[test]
fn a_grant_gives_the_least_free_pages(rt: HostRuntime) -> Result<(), Fail> {
    let words = new_words(rt.alloc())?;
    let given = grant(rt.alloc(), &words, 2, 3)?;
    assert_eq!(rt; given.pages.as_slice(), [40, 41, 42].as_slice());
    assert_eq!(rt;
        given.pairs.as_slice(),
        [(16704, 2), (16712, 2), (16720, 2)].as_slice()
    );
    Ok(())
}

#[test]
fn a_grant_of_more_than_are_free_says_how_many_there_are(rt: HostRuntime) -> Result<(), Fail> {
    let words = new_words(rt.alloc())?;
    let refused = grant(rt.alloc(), &words, 2, 25);
    assert_eq!(rt;
        refused.err(),
        Some(OwnerFault::NoPages {
            asked: 25,
            free: 24
        })
    );
    Ok(())
}

#[test]
fn pages_go_back_in_order_of_address(rt: HostRuntime) -> Result<(), Fail> {
    let words = new_words(rt.alloc())?;
    let one = take_back(rt.alloc(), &words, &[40])?;
    let two = take_back(rt.alloc(), &words, &[42, 40])?;
    assert_eq!(rt; one.as_slice(), [(16704, 0)].as_slice());
    assert_eq!(rt; two.as_slice(), [(16704, 0), (16720, 0)].as_slice());
    Ok(())
}

#[test]
fn a_committed_pair_is_read_before_the_word_itself(rt: HostRuntime) -> Result<(), Fail> {
    let words = words_with_a_pair(rt.alloc())?;
    assert_eq!(rt; owner(&words, 50), ROOT_COFFER);
    assert_eq!(rt; free_pages(&words), 23);
    Ok(())
}
