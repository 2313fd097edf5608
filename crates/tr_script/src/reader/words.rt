// The words of a line, one after the other.
ghost use Rattle.std.specs.Prelude.{◌≡◌, ◌+◌, ◌^◌, ◌<◌, ◌≤◌, [], ◌∷◌, IfOk, OnOk, length};
ghost use Rattle.std.specs.Option.{option_copied};
ghost use Rattle.tr_script.specs.Grammar.{Declared, words_of};
ghost use Rattle.tr_script.specs.Places.{Slot};
ghost use Rattle.tr_script.specs.Reading.{OnBad, words_left, length_left, Takes, IsBadOf, IsBadWord};

use super::place::{Fault, Place};
use memchr::memchr;
use std::marker::Model;

/// A word of a line, and where it begins.
#[derive(Clone, Copy)]
pub struct Word<'a> {
    pub bytes: &'a [u8],
    pub place: Place,
}

impl<'a> Word<'a> {
    /// The fault that this word can't stand here.
    pub fn bad(&self) -> Fault
        ensures { result ≡ Fault.Bad self.now.place }
    {
        Fault::Bad(self.place)
    }
}

/// The words of a line that aren't read yet.
#[derive(Drop)]
pub struct Words<'a> {
    /// None behind the last word.
    rest: Option<&'a [u8]>,
    /// Where the next word begins, or would begin.
    place: Place,
}

impl<'a> Model for Words<'a> {
    ghost use Rattle.std.specs.Prelude.{◌+◌, ◌<◌, ◌^◌};
    ghost use Rattle.std.specs.Option.{option_copied};
    ghost use Rattle.tr_script.specs.Reading.{Left, words_left, length_left, next_column};

    ghost Value = { Left };

    ghost view = { λ w. record {
      words = words_left (option_copied w.rest);
      column = next_column (option_copied w.rest) w.place.column;
      line = w.place.line;
    } };

    ghost invariant = { λ w. w.place.column + length_left (option_copied w.rest) < 2 ^ 32 };
}

impl<'a> Words<'a> {
    /// The words of the line of this number.
    pub fn of(line: &'a [u8], number: u32) -> Words<'a>
        requires number { 1 ≤ number }
        requires length { length line.now < 2 ^ 31 }
        ensures words { result.words ≡ words_of line.now }
        ensures column { result.column ≡ 1 }
        ensures line { result.line ≡ number }
    {
        Words {
            rest: Some(line),
            place: Place {
                line: number,
                column: 1,
            },
        }
    }

    /// Takes the next word. Where there is none, its place is bad.
    pub fn word(&mut self) -> Result<Word<'a>, Fault>
        ensures ok { IfOk result (λ word. Takes self.old word.bytes.now self.new) }
        ensures place { IfOk result (λ word. (word.place.column ≡ self.old.column) × (word.place.line ≡ self.old.line)) }
        ensures bad { OnBad result (λ place. (d : Declared) (slot : Slot) → IsBadWord d slot self.old place) }
    {
        let place = self.place;
        let Some(rest) = self.rest else {
            return Err(Fault::Bad(place));
        };
        let (bytes, after) = split_word(rest);
        self.place.column += bytes.len() as u32 + u32::from(after.is_some());
        self.rest = after;
        Ok(Word { bytes, place })
    }

    /// That no word is left. A further word is bad.
    pub fn end(&self) -> Result<(), Fault>
        ensures ok { OnOk result (self.now.words ≡ []) }
        ensures bad { OnBad result (λ place. (d : Declared) → IsBadOf d [] self.now place) }
    {
        match self.rest {
            Some(_) => Err(Fault::Bad(self.place)),
            None => Ok(()),
        }
    }
}

/// The first word of what is left of a line, and what is left behind its space. There is none behind the last word.
fn split_word(rest: &[u8]) -> (&[u8], Option<&[u8]>)
    ensures words { words_of rest.now ≡ result.0.now ∷ words_left (option_copied result.1) }
    ensures length { length rest.now ≡ length result.0.now + length_left (option_copied result.1) }
{
    match memchr(b' ', rest) {
        Some(end) => (&rest[..end], Some(&rest[end + 1..])),
        None => (rest, None),
    }
}
