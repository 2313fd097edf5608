// Lists of words that are stored all or not at all.
ghost use Rattle.std.specs.Prelude.{◌≡◌, ◌<◌, ◌≤◌, ◌↔◌, length, take, All, OnOk, OnErr, IfOk};
ghost use Rattle.std.specs.Result.{IsErrOf};
ghost use Rattle.zo_layout.specs.Layout as layout;
ghost use Rattle.pm_words.specs.Memory.{IsAddress, HasPages};
ghost use Rattle.kern_model.specs.KernelView.{pages_of};
ghost use Rattle.kern_model.specs.Inner.{made_all, IsCut, HasAddress};
ghost use Rattle.kern_model.specs.Inner as spec;

use crate::events::{finish_any, journal_events};
use crate::inner::make_all;
use kern_model::Inner;
use pm_words::{NoMemory, Words};
use std::alloc::Global;
use thiserror::Error;
use zo_layout::{committed_word, pair_address, pair_value};

/// Why a list of words wasn't stored.
#[derive(Clone, Copy, Debug, PartialEq, Eq, Error)]
pub enum JournalFault {
    /// The list has more words than the journal has room for.
    #[error("too many words")]
    TooMany,
    #[error("out of memory")]
    NoMemory,
}

/// How many pairs the journal has room for.
pub fn capacity(words: &Words) -> u32
    ensures capacity { result ≡ layout.pair_capacity (pages_of words.now) }
    ensures size { HasPages (length words.now) }
{
    zo_layout::pair_capacity(words.pages())
}

/// How many pairs are committed: what stands in word 0 of the journal. Takes no memory.
pub fn committed_count(words: &Words) -> u64
    ensures count { result ≡ spec.committed_count words.now }
    ensures size { HasPages (length words.now) }
{
    // Every image has room for the journal.
    let _pages = words.pages();
    words.load(committed_word())
}

/// What the kernel reads at a byte address: the committed pairs, laid over the words. Takes no
/// memory, and costs a load more where nothing is committed.
pub fn kernel_word(words: &Words, addr: u64) -> u64
    requires inside { IsAddress (length words.now) addr }
    requires readable { spec.IsReadable words.now }
    ensures { result ≡ spec.kernel_word words.now addr }
{
    let mut word = words.load(addr);
    for i in 0..committed_count(words) as u32 {
        let (at, value) = pair(words, i);
        if at == addr {
            word = value;
        }
    }
    word
}

/// Stores each pair's value (address, value) at its address, so that a crash at any point, followed
/// by `redo`, leaves all of them or none.
///
/// Everything is durable at the end, and the journal is empty again. `TooMany` leaves the words as
/// they were, `NoMemory` as they are after some number of the inner events.
pub fn apply(alloc: Global, words: &mut Words, pairs: &[(u64, u64)]) -> Result<(), JournalFault>
    requires { All (λ p. IsAddress (length words.old) p.0) pairs.now }
    ensures ok { OnOk result (words.new ≡ made_all (spec.journal_events pairs.now) words.old) }
    ensures err { OnErr result (IsCut (spec.journal_events pairs.now) words.old words.new) }
    ensures too_many { IsErrOf result JournalFault.TooMany ↔ (layout.pair_capacity (pages_of words.old) < length pairs.now) }
    ensures unchanged { IsErrOf result JournalFault.TooMany → words.new ≡ words.old }
    ensures len { length words.new ≡ length words.old }
{
    let events = events_for(alloc, words, pairs)?;
    make_all(words, &events).map_err(|_| JournalFault::NoMemory)
}

/// Makes the first `k` inner events of `apply`, or all where there are fewer. Each store, each flush
/// and each fence is one.
pub fn apply_first(
    alloc: Global,
    words: &mut Words,
    pairs: &[(u64, u64)],
    k: u32,
) -> Result<(), JournalFault>
    requires { All (λ p. IsAddress (length words.old) p.0) pairs.now }
    ensures ok { OnOk result (words.new ≡ made_all (take k (spec.journal_events pairs.now)) words.old) }
    ensures err { OnErr result (IsCut (take k (spec.journal_events pairs.now)) words.old words.new) }
    ensures too_many { IsErrOf result JournalFault.TooMany ↔ (layout.pair_capacity (pages_of words.old) < length pairs.now) }
    ensures unchanged { IsErrOf result JournalFault.TooMany → words.new ≡ words.old }
    ensures len { length words.new ≡ length words.old }
{
    let mut events = events_for(alloc, words, pairs)?;
    events.truncate(k as usize);
    make_all(words, &events).map_err(|_| JournalFault::NoMemory)
}

// The inner events of `apply`, where the journal has room for the pairs.
fn events_for(
    alloc: Global,
    words: &Words,
    pairs: &[(u64, u64)],
) -> Result<Vec<Inner>, JournalFault>
    requires { All (λ p. IsAddress (length words.now) p.0) pairs.now }
    ensures ok { IfOk result (λ events. events.items ≡ spec.journal_events pairs.now) }
    ensures inside { IfOk result (λ events. All (HasAddress (length words.now)) events.items) }
    ensures too_many { IsErrOf result JournalFault.TooMany ↔ (layout.pair_capacity (pages_of words.now) < length pairs.now) }
{
    if pairs.len() > capacity(words) as usize {
        return Err(JournalFault::TooMany);
    }
    journal_events(alloc, pairs).map_err(|_| JournalFault::NoMemory)
}

/// Finishes the committed pairs: makes each of them durable at its address, and then empties the
/// journal. Where none is committed it does nothing. An error leaves the words as they are after
/// some number of the inner events.
pub fn redo(alloc: Global, words: &mut Words) -> Result<(), NoMemory>
    requires { spec.IsReadable words.old }
    ensures ok { OnOk result (words.new ≡ made_all (spec.redo_events words.old) words.old) }
    ensures err { OnErr result (IsCut (spec.redo_events words.old) words.old words.new) }
    ensures len { length words.new ≡ length words.old }
{
    let pairs = committed(alloc, words)?;
    let events = finish_any(alloc, &pairs)?;
    make_all(words, &events)
}

/// The committed pairs in their order, each an address and a value.
pub fn committed(alloc: Global, words: &Words) -> Result<Vec<(u64, u64)>, NoMemory>
    requires { spec.IsReadable words.now }
    ensures pairs { IfOk result (λ pairs. pairs.items ≡ spec.committed words.now) }
    ensures size { HasPages (length words.now) }
{
    let mut pairs = Vec::new(alloc);
    for i in 0..committed_count(words) as u32 {
        pairs.push(pair(words, i))?;
    }
    Ok(pairs)
}

// Pair `i` of the journal.
fn pair(words: &Words, i: u32) -> (u64, u64)
    requires size { HasPages (length words.now) }
    requires room { i < layout.pair_capacity (pages_of words.now) }
    ensures { result ≡ spec.pair_at words.now i }
{
    (words.load(pair_address(i)), words.load(pair_value(i)))
}
