// The journal's steps, as lists.
ghost use Rattle.std.specs.Prelude.{◌≡◌, ◌≤◌, ◌++◌, length, IfOk, OnOk, ◌<◌, ◌^◌};
ghost use Rattle.kern_model.specs.Inner.{phase, stores_of, flushes_at};
ghost use Rattle.kern_model.specs.Inner as spec;

use crate::lines::lines_of;
use kern_model::Inner;
use std::alloc::{AllocError, Global};
use zo_layout::{committed_word, pair_address, pair_value};

/// The steps that make a list of pairs durable: first in the journal, then the pairs' number there,
/// then at their own words; and at last the number 0.
pub fn journal_events(alloc: Global, pairs: &[(u64, u64)]) -> Result<Vec<Inner>, AllocError>
    requires { length pairs.now < 2 ^ 32 }
    ensures { IfOk result (λ events. events.items ≡ spec.journal_events pairs.now) }
{
    let mut events = Vec::new(alloc);
    push_phase(alloc, &mut events, &journal_words(alloc, pairs)?)?;
    push_phase(
        alloc,
        &mut events,
        &[(committed_word(), pairs.len() as u64)],
    )?;
    push_finish(alloc, &mut events, pairs)?;
    Ok(events)
}

/// The steps that finish the pairs that are committed; none where there are none.
pub fn finish_any(alloc: Global, pairs: &[(u64, u64)]) -> Result<Vec<Inner>, AllocError>
    ensures { IfOk result (λ events. events.items ≡ spec.finish_any pairs.now) }
{
    let mut events = Vec::new(alloc);
    if !pairs.is_empty() {
        push_finish(alloc, &mut events, pairs)?;
    }
    Ok(events)
}

fn push_finish(
    alloc: Global,
    events: &mut Vec<Inner>,
    pairs: &[(u64, u64)],
) -> Result<(), AllocError>
    ensures { OnOk result (events.new.items ≡ events.old.items ++ spec.finish_events pairs.now) }
{
    push_phase(alloc, events, pairs)?;
    push_phase(alloc, events, &[(committed_word(), 0)])
}

// Stores each value, flushes each line once, in order of address, and fences.
fn push_phase(
    alloc: Global,
    events: &mut Vec<Inner>,
    pairs: &[(u64, u64)],
) -> Result<(), AllocError>
    ensures { OnOk result (events.new.items ≡ events.old.items ++ phase pairs.now) }
{
    push_stores(events, pairs)?;
    push_flushes(events, &lines_of(alloc, pairs)?)?;
    events.push(Inner::Fence)?;
    Ok(())
}

fn push_stores(events: &mut Vec<Inner>, pairs: &[(u64, u64)]) -> Result<(), AllocError>
    ensures { OnOk result (events.new.items ≡ events.old.items ++ stores_of pairs.now) }
{
    for &(addr, value) in pairs {
        events.push(Inner::Store { addr, value })?;
    }
    Ok(())
}

fn push_flushes(events: &mut Vec<Inner>, lines: &[u64]) -> Result<(), AllocError>
    ensures { OnOk result (events.new.items ≡ events.old.items ++ flushes_at lines.now) }
{
    for &addr in lines {
        events.push(Inner::Flush { addr })?;
    }
    Ok(())
}

// The journal's words for these pairs, with their values.
fn journal_words(alloc: Global, pairs: &[(u64, u64)]) -> Result<Vec<(u64, u64)>, AllocError>
    requires { length pairs.now < 2 ^ 32 }
    ensures { IfOk result (λ words. words.items ≡ spec.journal_words 0 pairs.now) }
{
    let mut words = Vec::new(alloc);
    for (i, &(addr, value)) in pairs.iter().enumerate() {
        words.push((pair_address(i as u32), addr))?;
        words.push((pair_value(i as u32), value))?;
    }
    Ok(words)
}
