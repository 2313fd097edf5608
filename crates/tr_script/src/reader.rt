// Reads the text of a script, line by line and word by word.
ghost use Rattle.std.specs.Prelude.{◌≡◌, ℕ, ◌<◌, ◌≤◌, ◌+◌, ◌^◌, List, ◌∷◌, length, take, IfOk, IfErr};
ghost use Rattle.tr_script.specs.Grammar.{lines_of, is_kept, nothing_declared, text_limit, IsScript};
ghost use Rattle.tr_script.specs.Places.{IsBadIn, IsEarlier, line_behind, column_behind, IsFirstOf, IsFirstBad};
ghost use Rattle.tr_script.specs.Reading.{OnBad, OnFault, OnBadLine, Reads, IsCountedFrom1};
ghost use Rattle.tr_script.specs.declared.script.Line.{Line};

use crate::{Line, Script};
use line::line;
use memchr::memchr;
use place::{Fault, Place};
use seen::Seen;
use std::alloc::Global;
use thiserror::Error;
use words::Words;

mod line;
mod place;
mod seen;
mod slots;
mod spelling;
mod words;

/// The greatest length of a script in bytes.
const TEXT_LIMIT: usize = 4_194_304;

/// Why a text was not read as a script.
#[derive(Debug, Drop, Error)]
pub enum ScriptFault {
    /// The first place where a script can't go on so. Lines and byte columns are counted from 1.
    #[error("bad script at {line}:{column}")]
    BadLine { line: u32, column: u32 },
    /// Memory ran out. Nothing is said of the text.
    #[error("no memory")]
    NoMemory,
}

/// The first line of a text, without its line feed, and the text behind it.
fn split_line(text: &[u8]) -> (&[u8], &[u8])
    requires { 0 < length text.now }
    ensures lines { lines_of text.now ≡ result.0.now ∷ lines_of result.1.now }
    ensures line_fits { length result.0.now ≤ length text.now }
    ensures shorter { length result.1.now < length text.now }
{
    match memchr(b'\n', text) {
        Some(end) => (&text[..end], &text[end + 1..]),
        None => (text, &[]),
    }
}

/// Empty lines and notes are passed over.
fn is_kept(line: &[u8]) -> bool
    ensures { result ≡ is_kept line.now }
{
    !matches!(line, [] | [b'#', ..])
}

/// The lines of a text, whatever limit its length is held to. There is at least one.
fn read_lines(alloc: Global, text: &[u8]) -> Result<Vec<Line>, Fault>
    requires { length text.now < 2 ^ 31 }
    ensures some { IfOk result (λ lines. 0 < length lines.items) }
    ensures ok { IfOk result (λ lines. Reads nothing_declared text.now lines.items) }
    ensures place { OnBad result (λ place. IsBadIn nothing_declared (lines_of text.now) 1 place.line place.column) }
{
    let mut seen = Seen::nothing(alloc);
    let mut lines = Vec::new(alloc);
    let mut rest = text;
    let mut number: u32 = 1;
    while !rest.is_empty() {
        let (bytes, after) = split_line(rest);
        if is_kept(bytes) {
            let line = line(alloc, &seen, &mut Words::of(bytes, number))?;
            seen.add(&line)?;
            lines.push(line)?;
        }
        rest = after;
        number += 1;
    }
    if lines.is_empty() {
        return Err(Fault::Bad(Place {
            line: number,
            column: 1,
        }));
    }
    Ok(lines)
}

/// The place behind the text.
fn place_after(text: &[u8]) -> Place
    requires { length text.now < 2 ^ 31 }
    ensures line { result.line ≡ line_behind 1 text.now }
    ensures column { result.column ≡ column_behind 1 text.now }
{
    let mut line = 1;
    let mut column = 1;
    for byte in text {
        if *byte == b'\n' {
            line += 1;
            column = 1;
        } else {
            column += 1;
        }
    }
    Place { line, column }
}

/// The earlier one of two places.
fn earlier(place: Place, limit: Place) -> Place
    ensures before { IsEarlier place.line place.column limit.line limit.column → result ≡ place }
    ensures behind { (IsEarlier place.line place.column limit.line limit.column → ⊥) → result ≡ limit }
{
    place.min(limit)
}

/// The fault of a text that is over the limit by one byte: its first bad place, which is at most that byte's.
fn fault_over_limit(alloc: Global, text: &[u8]) -> Fault
    requires { length text.now ≡ TEXT_LIMIT + 1 }
    ensures { OnFault result (λ place. IsFirstOf text.now (line_behind 1 (take text_limit text.now)) (column_behind 1 (take text_limit text.now)) place.line place.column) }
{
    let (inside, _) = text.split_at(TEXT_LIMIT);
    let limit = place_after(inside);
    match read_lines(alloc, text) {
        Ok(_) => Fault::Bad(limit),
        Err(Fault::Bad(place)) => Fault::Bad(earlier(place, limit)),
        Err(Fault::NoMemory) => Fault::NoMemory,
    }
}

/// The lines of a text. Of a text that is over the limit, no more than the first byte past it is looked at.
fn read_text(alloc: Global, text: &[u8]) -> Result<Vec<Line>, Fault>
    ensures some { IfOk result (λ lines. 0 < length lines.items) }
    ensures ok { IfOk result (λ lines. (length text.now ≤ text_limit) × Reads nothing_declared text.now lines.items) }
    ensures place { OnBad result (λ place. IsFirstBad text.now place.line place.column) }
{
    if text.len() > TEXT_LIMIT {
        return Err(fault_over_limit(alloc, &text[..=TEXT_LIMIT]));
    }
    read_lines(alloc, text)
}

/// Reads a script. Of a text that is over the limit, no more than the first byte past it is looked at.
///
/// # Errors
///
/// The first place that is bad, or want of memory.
pub fn read_script(alloc: Global, text: &[u8]) -> Result<Script, ScriptFault>
    ensures script { IfOk result (λ s. IsScript text.now s) }
    ensures refused { OnBadLine result (λ line column. (lines : List Line) → IsScript text.now lines → ⊥) }
    ensures place { OnBadLine result (IsFirstBad text.now) }
    ensures counted_from_1 { IfErr result IsCountedFrom1 }
{
    match read_text(alloc, text) {
        Ok(lines) => Ok(Script::new(lines)),
        Err(Fault::Bad(Place { line, column })) => Err(ScriptFault::BadLine { line, column }),
        Err(Fault::NoMemory) => Err(ScriptFault::NoMemory),
    }
}

/// A law of the definitions alone: a text that has a first bad place is no script, and it has one such place.
pub fn place_law()
    ensures refused { (text : List ℕ) (line column : ℕ) (lines : List Line) → IsFirstBad text line column → IsScript text lines → ⊥ }
    ensures one { (text : List ℕ) (line column line2 column2 : ℕ) → IsFirstBad text line column → IsFirstBad text line2 column2 → (line ≡ line2) × (column ≡ column2) }
{}

#[cfg(test)]
mod tests;
