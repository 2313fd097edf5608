//! A source and a sink over memory, of which chosen calls fail.
ghost use Rattle.std.specs.Prelude.{◌≡◌, ◌==◌, ◌<◌, [], length, min, IfOk, Some};
ghost use Rattle.std.specs.Result.{is_err};
ghost use Rattle.std.specs.List.{list_any};
ghost use Rattle.std.specs.Io.{ReadsAtMost, WritesAtMost};
ghost use Rattle.std.specs.Io.KnownBytes.{ReadConsumes, WriteAppends};
ghost use Rattle.tr_outside.specs.Causes.{HasCause, one_more};
ghost use Rattle.tr_outside.specs.Memory.{SourceState, SinkState, fails_next, after_read, read_into, write_fails, after_write};

use crate::traits::{Failed, Sink, Source};
use pm_words::NoMemory;
use std::alloc::Global;
use std::marker::Model;

/// Gives the bytes that it was made of. Calls are numbered from 1, and the chosen ones fail.
#[derive(Drop)]
pub struct MemSource {
    bytes: Vec<u8>,
    at: usize,
    fails: Vec<u32>,
    calls: u64,
    faults: u64,
}

impl Model for MemSource {
    ghost use Rattle.std.specs.Prelude.{drop, ◌≤◌, length};
    ghost use Rattle.tr_outside.specs.Memory.{SourceState};

    ghost Value = { SourceState };

    ghost view = { λ s. record { left = drop s.at s.bytes.items; fails = s.fails.items; calls = s.calls; faults = s.faults } };

    ghost invariant = { λ s. s.at ≤ length s.bytes.items };
}

impl MemSource {
    /// A source of `bytes`. The calls whose numbers, from 1, are in `fails` fail.
    pub fn new(bytes: Vec<u8>, fails: Vec<u32>) -> MemSource
        ensures left { result.left ≡ bytes.items }
        ensures fails { result.fails ≡ fails.items }
        ensures calls { result.calls ≡ 0 }
        ensures faults { result.faults ≡ 0 }
    {
        MemSource {
            bytes,
            at: 0,
            fails,
            calls: 0,
            faults: 0,
        }
    }
}

impl Source for MemSource {
    ghost left = { λ s. Some s.left };

    ghost faults = { λ s. s.faults };

    fn read(&mut self, into: &mut [u8]) -> Result<usize, Failed>
        ensures bound { ReadsAtMost result into.new }
        ensures bytes { ReadConsumes (Some self.old.left) (Some self.new.left) result into.new }
        ensures cause { HasCause self.old.faults self.new.faults result }

        ensures fails { is_err result ≡ fails_next self.old.fails self.old.calls }
        ensures count { IfOk result (λ count. count ≡ min (length into.old) (length self.old.left)) }
        ensures filled { into.new ≡ read_into self.old into.old }
        ensures after { self.new ≡ after_read self.old (length into.old) }
    {
        self.calls = self.calls.saturating_add(1);
        if is_among(&self.fails, self.calls) {
            self.faults = self.faults.saturating_add(1);
            return Err(Failed);
        }
        let left = &self.bytes[self.at..];
        let count = into.len().min(left.len());
        into[..count].copy_from_slice(&left[..count]);
        self.at += count;
        Ok(count)
    }
}

/// Keeps what it takes, in memory that it reserves when it is made. Calls are numbered from 1, and
/// the chosen ones fail.
#[derive(Drop)]
pub struct MemSink {
    bytes: Vec<u8>,
    room: usize,
    fails: Vec<u32>,
    calls: u64,
    faults: u64,
}

impl Model for MemSink {
    ghost use Rattle.std.specs.Prelude.{◌+◌, ◌≤◌, vec_len, vec_capacity};
    ghost use Rattle.tr_outside.specs.Memory.{SinkState};

    ghost Value = { SinkState };

    ghost view = { λ s. record { written = s.bytes.items; room = s.room; fails = s.fails.items; calls = s.calls; faults = s.faults } };

    ghost invariant = { λ s. vec_len s.bytes + s.room ≤ vec_capacity s.bytes };
}

impl MemSink {
    /// A sink that takes up to `room` bytes. The calls whose numbers, from 1, are in `fails` fail.
    pub fn new(alloc: Global, room: usize, fails: Vec<u32>) -> Result<MemSink, NoMemory>
        ensures written { IfOk result (λ s. s.written ≡ []) }
        ensures room { IfOk result (λ s. s.room ≡ room) }
        ensures fails { IfOk result (λ s. s.fails ≡ fails.items) }
        ensures calls { IfOk result (λ s. s.calls ≡ 0) }
        ensures faults { IfOk result (λ s. s.faults ≡ 0) }
    {
        Ok(MemSink {
            bytes: Vec::with_capacity(alloc, room)?,
            room,
            fails,
            calls: 0,
            faults: 0,
        })
    }

    /// The bytes that were taken.
    pub fn bytes(&self) -> &[u8]
        ensures written { result.now ≡ self.now.written }
    {
        &self.bytes
    }
}

impl Sink for MemSink {
    ghost written = { λ s. Some s.written };

    ghost faults = { λ s. s.faults };

    /// Takes no memory.
    fn write(&mut self, from: &[u8]) -> Result<usize, Failed>
        ensures bound { WritesAtMost result from.now }
        ensures some { IfOk result (λ count. 0 < length from.now → 0 < count) }
        ensures bytes { WriteAppends (Some self.old.written) (Some self.new.written) result from.now }
        ensures cause { HasCause self.old.faults self.new.faults result }

        ensures fails { is_err result ≡ write_fails self.old from.now }
        ensures count { IfOk result (λ count. count ≡ min self.old.room (length from.now)) }
        ensures after { self.new ≡ after_write self.old from.now }
    {
        self.calls = self.calls.saturating_add(1);
        if is_among(&self.fails, self.calls) || (self.room == 0 && !from.is_empty()) {
            self.faults = self.faults.saturating_add(1);
            return Err(Failed);
        }
        let count = self.room.min(from.len());
        self.bytes.extend_from_slice(&from[..count]).unwrap();
        self.room -= count;
        Ok(count)
    }
}

// Whether the call of this number is one of those that fail.
fn is_among(fails: &[u32], number: u64) -> bool
    ensures found { result ≡ list_any (λ fail. fail == number) fails.now }
{
    fails.iter().any(|&fail| u64::from(fail) == number)
}

#[cfg(test)]
mod tests {
    use super::*;

    #[test]
    fn a_source_gives_pieces_and_fails_where_it_was_told(rt: HostRuntime) -> Result<(), NoMemory> {
        let bytes = Vec::from_slice(rt.alloc(), &[1u8, 2, 3, 4, 5])?;
        let mut source = MemSource::new(bytes, Vec::from_slice(rt.alloc(), &[2u32])?);
        let mut piece = [0u8; 3];
        let expected = [
            (Ok(3), [1u8, 2, 3]),
            (Err(Failed), [1, 2, 3]),
            (Ok(2), [4, 5, 3]),
            (Ok(0), [4, 5, 3]),
        ];
        for (answer, held) in expected {
            assert!(rt; source.read(&mut piece) == answer);
            assert!(rt; piece == held);
        }
        assert_eq!(rt; source.faults, 1);
        Ok(())
    }

    #[test]
    fn a_sink_takes_what_fits(rt: HostRuntime) -> Result<(), NoMemory> {
        let mut sink = MemSink::new(rt.alloc(), 3, Vec::from_slice(rt.alloc(), &[2u32])?)?;
        let pieces: [(&[u8], Result<usize, Failed>); 5] = [
            (b"ab", Ok(2)),
            (b"cd", Err(Failed)),
            (b"cd", Ok(1)),
            (b"e", Err(Failed)),
            (b"", Ok(0)),
        ];
        for (piece, answer) in pieces {
            assert!(rt; sink.write(piece) == answer);
        }
        assert_eq!(rt; sink.bytes(), b"abc".as_slice());
        assert_eq!(rt; sink.faults, 2);
        Ok(())
    }
}
