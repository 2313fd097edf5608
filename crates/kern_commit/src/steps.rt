// The steps of a commit, made and counted.
ghost use Rattle.std.specs.Prelude.{◌≡◌, ◌<◌, ◌≤◌, ◌^◌, ◌++◌, length, All, IfOk, OnOk, OnErr};
ghost use Rattle.std.specs.List.{flat_map};
ghost use Rattle.zo_layout.specs.Layout.{pair_capacity};
ghost use Rattle.pm_words.specs.Memory.{IsAddress};
ghost use Rattle.kern_model.specs.KernelView.{pages_of};
ghost use Rattle.kern_model.specs.Inner.{made_all, IsCut};
ghost use Rattle.kern_model.specs.KernelCalls.{in_order, zero_events, stored_events};
ghost use Rattle.kern_model.specs.Commits.{MayCommit};
ghost use Rattle.kern_commit.specs.Pages.{page_zeros, page_flushes};

use kern_journal::{JournalFault, apply, journal_events, make, make_all};
use kern_model::Inner;
use pm_words::{LINE_BYTES, NoMemory, Words};
use std::alloc::{AllocError, Global};
use std::collections::BTreeMap;
use zo_layout::{PAGE_WORDS, page_at, word_of};

/// Lines of a page.
const PAGE_LINES: u64 = 64;

/// Zeroes the pages, in their order, and stores the pairs (address, word) by the journal, in order of
/// address; of two for one word the later one stands alone. All is durable at the end. `NoMemory`
/// leaves the words as they are after some number of the steps.
pub fn commit(
    alloc: Global,
    words: &mut Words,
    granted: &[u32],
    pairs: &[(u64, u64)],
) -> Result<(), NoMemory>
    requires { MayCommit words.old granted.now pairs.now }
    ensures ok { OnOk result (words.new ≡ made_all (zero_events granted.now ++ stored_events pairs.now) words.old) }
    ensures err { OnErr result (IsCut (zero_events granted.now ++ stored_events pairs.now) words.old words.new) }
    ensures len { length words.new ≡ length words.old }
{
    zero_pages(words, granted)?;
    store_pairs(alloc, words, pairs)
}

/// How many steps `commit` makes: stores, flushes and fences. At most 1,024 pages are given.
pub fn count_events(
    alloc: Global,
    words: &Words,
    granted: &[u32],
    pairs: &[(u64, u64)],
) -> Result<u32, NoMemory>
    requires may { MayCommit words.now granted.now pairs.now }
    requires few { length granted.now ≤ 1024 }
    ensures { IfOk result (λ count. count ≡ length (zero_events granted.now ++ stored_events pairs.now)) }
{
    Ok(count_zero_events(granted) + count_stored_events(alloc, pairs)?)
}

// Zeroes the pages: each of their words, each of their lines, and a fence.
fn zero_pages(words: &mut Words, granted: &[u32]) -> Result<(), NoMemory>
    requires { All (λ page. page < pages_of words.old) granted.now }
    ensures ok { OnOk result (words.new ≡ made_all (zero_events granted.now) words.old) }
    ensures err { OnErr result (IsCut (zero_events granted.now) words.old words.new) }
    ensures len { length words.new ≡ length words.old }
{
    if granted.is_empty() {
        return Ok(());
    }
    store_zeros(words, granted)?;
    flush_pages(words, granted)?;
    make_all(words, &[Inner::Fence])
}

fn store_zeros(words: &mut Words, granted: &[u32]) -> Result<(), NoMemory>
    requires { All (λ page. page < pages_of words.old) granted.now }
    ensures ok { OnOk result (words.new ≡ made_all (flat_map page_zeros granted.now) words.old) }
    ensures err { OnErr result (IsCut (flat_map page_zeros granted.now) words.old words.new) }
    ensures len { length words.new ≡ length words.old }
{
    for &page in granted {
        zero_page(words, page)?;
    }
    Ok(())
}

fn flush_pages(words: &mut Words, granted: &[u32]) -> Result<(), NoMemory>
    requires { All (λ page. page < pages_of words.old) granted.now }
    ensures ok { OnOk result (words.new ≡ made_all (flat_map page_flushes granted.now) words.old) }
    ensures err { OnErr result (IsCut (flat_map page_flushes granted.now) words.old words.new) }
    ensures len { length words.new ≡ length words.old }
{
    for &page in granted {
        flush_page(words, page)?;
    }
    Ok(())
}

fn zero_page(words: &mut Words, page: u32) -> Result<(), NoMemory>
    requires { page < pages_of words.old }
    ensures ok { OnOk result (words.new ≡ made_all (page_zeros page) words.old) }
    ensures err { OnErr result (IsCut (page_zeros page) words.old words.new) }
    ensures len { length words.new ≡ length words.old }
{
    for i in 0..PAGE_WORDS {
        let addr = word_of(page_at(page), i);
        make(words, Inner::Store { addr, value: 0 })?;
    }
    Ok(())
}

fn flush_page(words: &mut Words, page: u32) -> Result<(), NoMemory>
    requires { page < pages_of words.old }
    ensures ok { OnOk result (words.new ≡ made_all (page_flushes page) words.old) }
    ensures err { OnErr result (IsCut (page_flushes page) words.old words.new) }
    ensures len { length words.new ≡ length words.old }
{
    for i in 0..PAGE_LINES {
        let addr = page_at(page) + LINE_BYTES * i;
        make(words, Inner::Flush { addr })?;
    }
    Ok(())
}

// Stores the pairs by the journal, which has room for them.
fn store_pairs(alloc: Global, words: &mut Words, pairs: &[(u64, u64)]) -> Result<(), NoMemory>
    requires homes { All (λ p. IsAddress (length words.old) p.0) pairs.now }
    requires room { length (in_order pairs.now) ≤ pair_capacity (pages_of words.old) }
    ensures ok { OnOk result (words.new ≡ made_all (stored_events pairs.now) words.old) }
    ensures err { OnErr result (IsCut (stored_events pairs.now) words.old words.new) }
    ensures len { length words.new ≡ length words.old }
{
    if pairs.is_empty() {
        return Ok(());
    }
    match apply(alloc, words, &in_order(alloc, pairs)?) {
        Ok(()) => Ok(()),
        Err(JournalFault::NoMemory) => Err(AllocError),
        Err(JournalFault::TooMany) => unreachable!(),
    }
}

// The pairs in order of address; of two for one word the later one alone.
fn in_order(alloc: Global, pairs: &[(u64, u64)]) -> Result<Vec<(u64, u64)>, NoMemory>
    ensures { IfOk result (λ ordered. ordered.items ≡ in_order pairs.now) }
{
    let mut by_address = BTreeMap::new(alloc);
    for &(addr, value) in pairs {
        by_address.insert(addr, value)?;
    }
    by_address.into_iter().collect(alloc)
}

fn count_zero_events(granted: &[u32]) -> u32
    requires { length granted.now ≤ 1024 }
    ensures { result ≡ length (zero_events granted.now) }
{
    if granted.is_empty() {
        return 0;
    }
    (PAGE_WORDS as u32 + PAGE_LINES as u32) * granted.len() as u32 + 1
}

fn count_stored_events(alloc: Global, pairs: &[(u64, u64)]) -> Result<u32, NoMemory>
    requires { length (in_order pairs.now) ≤ 65536 }
    ensures count { IfOk result (λ count. count ≡ length (stored_events pairs.now)) }
    ensures few { IfOk result (λ count. count ≤ 2 ^ 20) }
{
    if pairs.is_empty() {
        return Ok(0);
    }
    let events = journal_events(alloc, &in_order(alloc, pairs)?)?;
    Ok(events.len() as u32)
}
