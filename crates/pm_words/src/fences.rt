//! What a fence leaves of the pending words.

ghost use Rattle.std.specs.Prelude.{◌≡◌, ◌≢◌, ℕ, ◌+◌, ◌*◌, ◌<◌, ◌≤◌, length, nat_eq, slice_get, Some, None, IfSome, IsSome, Contains};
ghost use Rattle.indexmap.specs.IndexMap.{get};
ghost use Rattle.pm_words.specs.View.{Held, held_at, no_held, look, IsFenced, ArePending};

use crate::marked::Lines;
use crate::pending::Line;
use indexmap::IndexMap;

// Where the entry of a line is, if a thread's fence leaves no older value of it.
fn index_ended(pending: &IndexMap<usize, Line>, thread: u16, line: usize) -> Option<usize>
    ensures there { IfSome result (λ index. (h : Held) × (slice_get pending.now.entries index ≡ Some (line, h))) }
    ensures ends { IsSome result → IsFenced thread (held_at pending.now.entries line) no_held }
    ensures lasts { result ≡ None → IfSome (get nat_eq pending.now line) (λ h. look h.marks thread < length h.older) }
{
    let (index, _, words) = pending.get_full(&line)?;
    if words.ends_by(thread) {
        Some(index)
    } else {
        None
    }
}

// Forgets the older values of a line that a thread's fence ends, where some are left.
fn forget_line(pending: &mut IndexMap<usize, Line>, thread: u16, line: usize)
    requires { IfSome (get nat_eq pending.old line) (λ h. look h.marks thread < length h.older) }
    ensures fenced { IsFenced thread (held_at pending.old.entries line) (held_at pending.new.entries line) }
    ensures others { (l : ℕ) → l ≢ line → held_at pending.new.entries l ≡ held_at pending.old.entries l }
    ensures pending { (count : ℕ) → ArePending count pending.old.entries → ArePending count pending.new.entries }
{
    match pending.get_mut(&line) {
        Some(words) => words.fence(thread),
        None => {}
    }
}

// A line after a thread's fence. A durable line has no entry.
fn fence_line(pending: &mut IndexMap<usize, Line>, thread: u16, line: usize)
    ensures fenced { IsFenced thread (held_at pending.old.entries line) (held_at pending.new.entries line) }
    ensures others { (l : ℕ) → l ≢ line → held_at pending.new.entries l ≡ held_at pending.old.entries l }
    ensures pending { (count : ℕ) → ArePending count pending.old.entries → ArePending count pending.new.entries }
{
    match index_ended(pending, thread, line) {
        Some(index) => {
            pending.swap_remove_index(index);
        }
        None => forget_line(pending, thread, line),
    }
}

/// The pending words after a thread's fence, which comes to its lines alone.
pub fn fence_lines(pending: &mut IndexMap<usize, Line>, thread: u16, lines: &Lines)
    ensures fenced { ((l : ℕ) → 0 < look (held_at pending.old.entries l).marks thread → Contains lines.now l) → (l : ℕ) → IsFenced thread (held_at pending.old.entries l) (held_at pending.new.entries l) }
    ensures pending { (count : ℕ) → ArePending count pending.old.entries → ArePending count pending.new.entries }
{
    // The line flushed last mostly came last too, and leaves no gap that another entry has to fill.
    for i in (0..lines.len()).rev() {
        fence_line(pending, thread, lines.line(i));
    }
}
