//! What a crash may leave in the pending words of a line, and what each thread has marked of it.

ghost use Rattle.std.specs.Prelude.{◌≡◌, ◌≢◌, ℕ, ◌+◌, ◌-◌, ◌*◌, ◌/◌, ◌<◌, ◌≤◌, ◌^◌, List, [], ◌∷◌, ◌++◌, length, drop, map, true, false, IsOk, IfOk, IfSome, OnOk, OnErr, None, Some, nat_eq, slice_index_or, slice_get, Contains};
ghost use Rattle.indexmap.specs.IndexMap.{get, index_map_len};
ghost use Rattle.smallvec.specs.SmallVec.{small_vec_len, HasRoomFor};
ghost use Rattle.pm_words.specs.declared.pending.Older.{Older};
ghost use Rattle.pm_words.specs.declared.pending.Mark.{Mark};
ghost use Rattle.pm_words.specs.View.{Held, look, lowered, values_at, held_at, no_held, older_at, lines_at, IsKept, IsFlushed, IsFenced, ArePending};

use crate::marked::{Lines, note};
use indexmap::IndexMap;
use smallvec::SmallVec;
use std::alloc::{AllocError, Global};
use std::marker::Model;

/// Words of a line.
pub const LINE_WORDS: usize = 8;

/// A value that a word had before its present one.
#[derive(Clone, Copy, Default)]
pub struct Older {
    place: usize,
    value: u64,
}

/// How many older values of a line go at a thread's next fence.
#[derive(Clone, Copy, Default)]
pub struct Mark {
    thread: u16,
    gone: usize,
}

/// The values that a line's words had before their present ones, in the order in which they were
/// stored over, and the marks. A flush marks all that are there.
#[derive(Drop)]
pub struct Line {
    older: SmallVec<Older, 8>,
    marks: SmallVec<Mark, 1>,
}

impl Model for Line {
    ghost use Rattle.std.specs.Prelude.{ℕ, ◌≤◌, length};
    ghost use Rattle.pm_words.specs.View.{Held, look};

    ghost Value = { Held };

    ghost view = { λ m. record { older = m.older.items; marks = m.marks.items } };

    ghost invariant = { λ m. (t : ℕ) → look m.marks.items t ≤ length m.older.items };
}

impl Line {
    /// One value and no marks, which takes no memory.
    pub fn with_value(alloc: Global, place: usize, value: u64) -> Line
        ensures kept { IsKept place value no_held result }
    {
        let mut values = SmallVec::new(alloc);
        values.push_reserved(Older { place, value });
        Line {
            older: values,
            marks: SmallVec::new(alloc),
        }
    }

    /// Adds a value after the others. An error leaves them as they were.
    pub fn push(&mut self, place: usize, value: u64) -> Result<(), AllocError>
        ensures ok { OnOk result (IsKept place value self.old self.new) }
        ensures err { OnErr result (self.new ≡ self.old) }
        ensures bound { (t : ℕ) → look self.old.marks t ≤ length self.old.older }
    {
        self.older.push(Older { place, value })?;
        Ok(())
    }

    /// Adds a value after the others where there is room for it. Answers whether there is; else nothing changes.
    pub fn push_in_room(&mut self, place: usize, value: u64) -> bool
        ensures pushed { result ≡ true → IsKept place value self.old self.new }
        ensures full { result ≡ false → self.new ≡ self.old }
        ensures bound { (t : ℕ) → look self.old.marks t ≤ length self.old.older }
    {
        let has_room = self.older.len() < self.older.capacity();
        if has_room {
            self.older.push_reserved(Older { place, value });
        }
        has_room
    }

    /// The values before the present ones.
    pub fn older(&self) -> &[Older]
        ensures older { result.now ≡ self.now.older }
    {
        self.older.as_slice()
    }

    /// Whether a thread has marked a value that isn't durable.
    pub fn is_marked(&self, thread: u16) -> bool
        ensures marked { result ≡ true → 0 < look self.now.marks thread }
        ensures unmarked { result ≡ false → look self.now.marks thread ≡ 0 }
    {
        gone_by(self.marks.as_slice(), thread) > 0
    }

    /// Marks the present values for a thread: all older ones go at its fence.
    pub fn mark(&mut self, thread: u16) -> Result<(), AllocError>
        ensures ok { OnOk result (IsFlushed thread self.old self.new) }
        ensures err { OnErr result (self.new ≡ self.old) }
    {
        let gone = self.older.len();
        put(&mut self.marks, thread, gone)
    }

    /// Whether a thread's fence leaves no older value.
    pub fn ends_by(&self, thread: u16) -> bool
        ensures ends { result ≡ true → length self.now.older ≤ look self.now.marks thread }
        ensures lasts { result ≡ false → look self.now.marks thread < length self.now.older }
        ensures bound { (t : ℕ) → look self.now.marks t ≤ length self.now.older }
    {
        self.older.len() <= gone_by(self.marks.as_slice(), thread)
    }

    /// Forgets the values before those that a thread has marked, and the thread's mark.
    pub fn fence(&mut self, thread: u16)
        ensures fenced { IsFenced thread self.old self.new }
    {
        let gone = gone_by(self.marks.as_slice(), thread);
        forget(&mut self.older, gone);
        lower(self.marks.as_mut_slice(), gone);
    }
}

// Forgets the first values.
fn forget(older: &mut SmallVec<Older, 8>, gone: usize)
    requires { gone ≤ small_vec_len older.old }
    ensures { older.new.items ≡ drop gone older.old.items }
{
    let left = older.len() - gone;
    older.as_mut_slice().rotate_left(gone);
    older.truncate(left);
}

// Puts a thread's mark in the place of its earlier one.
fn put(marks: &mut SmallVec<Mark, 1>, thread: u16, gone: usize) -> Result<(), AllocError>
    ensures own { OnOk result (look marks.new.items thread ≡ gone) }
    ensures others { (t : ℕ) → t ≢ thread → look marks.new.items t ≡ look marks.old.items t }
    ensures err { OnErr result (marks.new.items ≡ marks.old.items) }
{
    if !replace(marks.as_mut_slice(), thread, gone) {
        marks.push(Mark { thread, gone })?;
    }
    Ok(())
}

// Changes a thread's mark, where it has one. Answers whether it has.
fn replace(marks: &mut [Mark], thread: u16, gone: usize) -> bool
    ensures len { length marks.new ≡ length marks.old }
    ensures own { result ≡ true → look marks.new thread ≡ gone }
    ensures none { result ≡ false → (ms : List Mark) → look (marks.new ++ ms) thread ≡ look ms thread }
    ensures others { (t : ℕ) → t ≢ thread → (ms : List Mark) → look (marks.new ++ ms) t ≡ look (marks.old ++ ms) t }
    ensures kept { result ≡ false → marks.new ≡ marks.old }
{
    for mark in marks {
        if mark.thread == thread {
            mark.gone = gone;
            return true;
        }
    }
    false
}

// How many older values go at a thread's fence.
fn gone_by(marks: &[Mark], thread: u16) -> usize
    ensures gone { result ≡ look marks.now thread }
{
    for mark in marks {
        if mark.thread == thread {
            return mark.gone;
        }
    }
    0
}

// Lowers each mark, once older values have gone.
fn lower(marks: &mut [Mark], gone: usize)
    ensures len { length marks.new ≡ length marks.old }
    ensures lower { marks.new ≡ map (lowered gone) marks.old }
{
    for mark in marks {
        mark.gone = mark.gone.saturating_sub(gone);
    }
}

/// Keeps a value of the word at `place` that a store is about to replace. An error changes no word.
/// The line that came last is tried first, since most stores go to the line of the one before, and what
/// that takes is kept short.
pub fn keep(
    pending: &mut IndexMap<usize, Line>,
    alloc: Global,
    place: usize,
    value: u64,
) -> Result<(), AllocError>
    ensures ok { OnOk result (IsKept place value (held_at pending.old.entries (place / 8)) (held_at pending.new.entries (place / 8))) }
    ensures err { OnErr result (held_at pending.new.entries (place / 8) ≡ held_at pending.old.entries (place / 8)) }
    ensures others { (l : ℕ) → l ≢ place / 8 → held_at pending.new.entries l ≡ held_at pending.old.entries l }
    ensures bound { (t : ℕ) → look (held_at pending.old.entries (place / 8)).marks t ≤ length (held_at pending.old.entries (place / 8)).older }
    ensures pending { (count : ℕ) → 8 * (place / 8) + 8 ≤ count → ArePending count pending.old.entries → ArePending count pending.new.entries }
{
    if keep_in_last(pending, place, value) {
        Ok(())
    } else {
        keep_found(pending, alloc, place, value)
    }
}

// Keeps a value of a word where the entry of its line is the last one and has room. Answers whether it has.
fn keep_in_last(pending: &mut IndexMap<usize, Line>, place: usize, value: u64) -> bool
    ensures kept { result ≡ true → IsKept place value (held_at pending.old.entries (place / 8)) (held_at pending.new.entries (place / 8)) }
    ensures same { result ≡ false → (l : ℕ) → held_at pending.new.entries l ≡ held_at pending.old.entries l }
    ensures others { (l : ℕ) → l ≢ place / 8 → held_at pending.new.entries l ≡ held_at pending.old.entries l }
    ensures bound { result ≡ true → (t : ℕ) → look (held_at pending.old.entries (place / 8)).marks t ≤ length (held_at pending.old.entries (place / 8)).older }
    ensures pending { (count : ℕ) → ArePending count pending.old.entries → ArePending count pending.new.entries }
{
    if !is_last(pending, place / LINE_WORDS) {
        return false;
    }
    match pending.last_mut() {
        Some(words) => words.push_in_room(place, value),
        None => false,
    }
}

// Keeps a value of a word, where its line's entry may be anywhere, or not be there yet.
#[inline(never)]
fn keep_found(
    pending: &mut IndexMap<usize, Line>,
    alloc: Global,
    place: usize,
    value: u64,
) -> Result<(), AllocError>
    ensures ok { OnOk result (IsKept place value (held_at pending.old.entries (place / 8)) (held_at pending.new.entries (place / 8))) }
    ensures err { OnErr result (held_at pending.new.entries (place / 8) ≡ held_at pending.old.entries (place / 8)) }
    ensures others { (l : ℕ) → l ≢ place / 8 → held_at pending.new.entries l ≡ held_at pending.old.entries l }
    ensures bound { (t : ℕ) → look (held_at pending.old.entries (place / 8)).marks t ≤ length (held_at pending.old.entries (place / 8)).older }
    ensures pending { (count : ℕ) → 8 * (place / 8) + 8 ≤ count → ArePending count pending.old.entries → ArePending count pending.new.entries }
{
    match index_found(pending, place / LINE_WORDS) {
        Some(index) => keep_at(pending, index, place, value),
        None => open_line(pending, alloc, place, value),
    }
}

// Whether a line's entry is the last one.
fn is_last(pending: &IndexMap<usize, Line>, line: usize) -> bool
    ensures { result ≡ true → (h : Held) × (slice_get pending.now.entries (index_map_len pending.now - 1) ≡ Some (line, h)) }
{
    match pending.last() {
        Some((&last, _)) => last == line,
        None => false,
    }
}

// Where a line's entry is, by a look-up.
fn index_found(pending: &IndexMap<usize, Line>, line: usize) -> Option<usize>
    ensures some { IfSome result (λ index. (h : Held) × (slice_get pending.now.entries index ≡ Some (line, h))) }
    ensures none { result ≡ None → get nat_eq pending.now line ≡ None }
{
    match pending.get_full(&line) {
        Some((index, _, _)) => Some(index),
        None => None,
    }
}

// Keeps a value of a word, where its line's entry is at `index`.
fn keep_at(
    pending: &mut IndexMap<usize, Line>,
    index: usize,
    place: usize,
    value: u64,
) -> Result<(), AllocError>
    requires { (h : Held) × (slice_get pending.old.entries index ≡ Some (place / 8, h)) }
    ensures ok { OnOk result (IsKept place value (held_at pending.old.entries (place / 8)) (held_at pending.new.entries (place / 8))) }
    ensures err { OnErr result (held_at pending.new.entries (place / 8) ≡ held_at pending.old.entries (place / 8)) }
    ensures others { (l : ℕ) → l ≢ place / 8 → held_at pending.new.entries l ≡ held_at pending.old.entries l }
    ensures bound { (t : ℕ) → look (held_at pending.old.entries (place / 8)).marks t ≤ length (held_at pending.old.entries (place / 8)).older }
    ensures pending { (count : ℕ) → 8 * (place / 8) + 8 ≤ count → ArePending count pending.old.entries → ArePending count pending.new.entries }
{
    match pending.get_index_mut(index) {
        Some(words) => words.push(place, value),
        None => unreachable!(),
    }
}

// Makes an entry for the line of the word at `place`, with one older value.
fn open_line(
    pending: &mut IndexMap<usize, Line>,
    alloc: Global,
    place: usize,
    value: u64,
) -> Result<(), AllocError>
    requires { get nat_eq pending.old (place / 8) ≡ None }
    ensures ok { OnOk result (IsKept place value (held_at pending.old.entries (place / 8)) (held_at pending.new.entries (place / 8))) }
    ensures err { OnErr result (held_at pending.new.entries (place / 8) ≡ held_at pending.old.entries (place / 8)) }
    ensures others { (l : ℕ) → l ≢ place / 8 → held_at pending.new.entries l ≡ held_at pending.old.entries l }
    ensures pending { (count : ℕ) → 8 * (place / 8) + 8 ≤ count → ArePending count pending.old.entries → ArePending count pending.new.entries }
{
    pending.insert(place / LINE_WORDS, Line::with_value(alloc, place, value))?;
    Ok(())
}

/// Marks the present values of a line for a thread, and notes the line for its next fence.
pub fn flush_line(
    pending: &mut IndexMap<usize, Line>,
    marked: &mut IndexMap<u16, Lines>,
    alloc: Global,
    thread: u16,
    line: usize,
) -> Result<(), AllocError>
    ensures ok { OnOk result (IsFlushed thread (held_at pending.old.entries line) (held_at pending.new.entries line)) }
    ensures err { OnErr result (held_at pending.new.entries line ≡ held_at pending.old.entries line) }
    ensures others { (l : ℕ) → l ≢ line → held_at pending.new.entries l ≡ held_at pending.old.entries l }
    ensures idle { get nat_eq pending.old line ≡ None → IsOk result × (pending.new.entries ≡ pending.old.entries) }
    ensures noted { OnOk result (0 < look (held_at pending.new.entries line).marks thread → look (held_at pending.old.entries line).marks thread ≡ 0 → Contains (lines_at marked.new.entries thread) line) }
    ensures kept { (l : ℕ) → Contains (lines_at marked.old.entries thread) l → Contains (lines_at marked.new.entries thread) l }
    ensures rest { (t : ℕ) → t ≢ thread → lines_at marked.new.entries t ≡ lines_at marked.old.entries t }
    ensures pending { (count : ℕ) → ArePending count pending.old.entries → ArePending count pending.new.entries }
{
    match pending.get_mut(&line) {
        Some(words) => {
            note_once(marked, alloc, thread, line, words.is_marked(thread))?;
            words.mark(thread)
        }
        None => Ok(()),
    }
}

// Notes a line for a thread's next fence, where it isn't noted yet. An error changes no line.
fn note_once(
    marked: &mut IndexMap<u16, Lines>,
    alloc: Global,
    thread: u16,
    line: usize,
    is_noted: bool,
) -> Result<(), AllocError>
    ensures ok { OnOk result (is_noted ≡ false → Contains (lines_at marked.new.entries thread) line) }
    ensures kept { (l : ℕ) → Contains (lines_at marked.old.entries thread) l → Contains (lines_at marked.new.entries thread) l }
    ensures rest { (t : ℕ) → t ≢ thread → lines_at marked.new.entries t ≡ lines_at marked.old.entries t }
{
    if is_noted {
        return Ok(());
    }
    note(marked, alloc, thread, line)
}

/// How many older values the word at `place` has among these.
pub fn count_of(older: &[Older], place: usize) -> usize
    ensures count { result ≡ length (values_at place older.now) }
    ensures most { result ≤ length older.now }
{
    let mut count = 0;
    for entry in older {
        if entry.place == place {
            count += 1;
        }
    }
    count
}

/// The value at an index, of the older ones of the word at `place` and then the present one.
pub fn value_at(older: &[Older], place: usize, index: usize, present: u64) -> u64
    ensures value { result ≡ slice_index_or (values_at place older.now ++ present ∷ []) index present }
{
    let mut left = index;
    for entry in older {
        if entry.place == place {
            if left == 0 {
                return entry.value;
            }
            left -= 1;
        }
    }
    present
}

/// A copy of the older values of the word at `place`.
pub fn older_of(
    pending: &IndexMap<usize, Line>,
    alloc: Global,
    place: usize,
) -> Result<Vec<u64>, AllocError>
    ensures older { IfOk result (λ list. list.items ≡ older_at pending.now.entries place) }
{
    match pending.get(&(place / LINE_WORDS)) {
        Some(words) => values_of(words.older(), alloc, place),
        None => Ok(Vec::new(alloc)),
    }
}

// The older values of the word at `place`.
fn values_of(older: &[Older], alloc: Global, place: usize) -> Result<Vec<u64>, AllocError>
    ensures values { IfOk result (λ list. list.items ≡ values_at place older.now) }
{
    let mut values = Vec::new(alloc);
    for entry in older {
        if entry.place == place {
            values.push(entry.value)?;
        }
    }
    Ok(values)
}
