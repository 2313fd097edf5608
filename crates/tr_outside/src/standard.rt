//! The standard streams as a source and a sink.
ghost use Rattle.std.specs.Prelude.{◌≡◌, ◌<◌, length, None, IfOk};
ghost use Rattle.std.specs.Io.{ReadsAtMost, WritesAtMost};
ghost use Rattle.std.specs.Io.KnownBytes.{ReadConsumes, WriteAppends};
ghost use Rattle.tr_outside.specs.Adapter.{known_of};
ghost use Rattle.tr_outside.specs.Causes.{HasCause, CountsItself};

use crate::counting::{counted, counted_write};
use crate::traits::{Failed, Sink, Source};
use std::io;
use std::io::{Read, Write};
use std::marker::Model;

/// Standard input, which the first call opens.
///
/// As a source it tells no content. A contract sees what the open reader itself tells of its bytes,
/// and how many calls have failed.
#[derive(Drop)]
pub struct StdSource<'a, R: Input> {
    rt: &'a R,
    reader: Option<R::Reader>,
    faults: u64,
}

impl<'a, R: Input> Model for StdSource<'a, R> {
    ghost use Rattle.tr_outside.specs.Adapter.{AdapterState, known_of};

    ghost Value = { AdapterState };

    ghost view = { λ s. record { known = known_of (λ reader. R.Reader.remaining reader) s.reader; faults = s.faults } };
}

impl<'a, R: Input> StdSource<'a, R> {
    /// The standard input of `rt`, which isn't opened yet.
    pub fn new(rt: &'a R) -> StdSource<'a, R>
        ensures known { result.known ≡ None }
        ensures faults { result.faults ≡ 0 }
    {
        StdSource {
            rt,
            reader: None,
            faults: 0,
        }
    }
}

impl<R: Input> Source for StdSource<'_, R> {
    ghost left = { λ _. None };

    ghost faults = { λ s. s.faults };

    fn read(&mut self, into: &mut [u8]) -> Result<usize, Failed>
        ensures bound { ReadsAtMost result into.new }
        ensures bytes { ReadConsumes None None result into.new }
        ensures cause { HasCause self.old.faults self.new.faults result }

        ensures known { ReadConsumes self.old.known self.new.known result into.new }
        ensures counts { CountsItself self.old.faults self.new.faults result }
    {
        let outcome = read_opened(self.rt, &mut self.reader, into);
        counted(outcome, &mut self.faults)
    }
}

/// Standard output. Each write goes straight to it, and nothing is kept back.
///
/// As a sink it tells no content. A contract sees how many calls have failed.
#[derive(Drop)]
pub struct StdSink<'a, R: Print> {
    rt: &'a R,
    faults: u64,
}

impl<'a, R: Print> Model for StdSink<'a, R> {
    ghost use Rattle.std.specs.Prelude.{ℕ};

    ghost Value = { ℕ };

    ghost view = { λ s. s.faults };
}

impl<'a, R: Print> StdSink<'a, R> {
    /// The standard output of `rt`.
    pub fn new(rt: &'a R) -> StdSink<'a, R>
        ensures faults { result ≡ 0 }
    {
        StdSink { rt, faults: 0 }
    }
}

impl<R: Print> Sink for StdSink<'_, R> {
    ghost written = { λ _. None };

    ghost faults = { λ s. s };

    fn write(&mut self, from: &[u8]) -> Result<usize, Failed>
        ensures bound { WritesAtMost result from.now }
        ensures some { IfOk result (λ count. 0 < length from.now → 0 < count) }
        ensures bytes { WriteAppends None None result from.now }
        ensures cause { HasCause self.old self.new result }
        ensures counts { CountsItself self.old self.new result }
    {
        let outcome = io::writer(self.rt).write(from);
        counted_write(outcome, from, &mut self.faults)
    }
}

// Reads from the reader, which is opened where it isn't open yet.
fn read_opened<R: Input>(
    rt: &R,
    opened: &mut Option<R::Reader>,
    into: &mut [u8],
) -> io::Result<usize>
    ensures bound { ReadsAtMost result into.new }
    ensures known { ReadConsumes (known_of (λ reader. R.Reader.remaining reader) opened.old)
        (known_of (λ reader. R.Reader.remaining reader) opened.new) result into.new }
{
    let mut reader = match opened.take() {
        Some(reader) => reader,
        None => rt.reader(),
    };
    let outcome = reader.read(into);
    *opened = Some(reader);
    outcome
}

#[cfg(test)]
mod tests {
    use super::*;
    use crate::whole::write_all;
    use std::alloc::Allocator;
    use std::fmt::Display;
    use std::io::{BufRead, Lines};

    // A runtime whose input is `abc`, and whose output takes nothing.
    #[derive(Drop)]
    struct Stuck;

    impl Input for Stuck {
        type Reader = &'static [u8];

        fn read_line<A: Allocator + Clone>(&self, buf: &mut String<A>) -> io::Result<usize> {
            self.reader().read_line(buf)
        }

        fn lines<A: Allocator>(&self, alloc: A) -> Lines<&'static [u8], A> {
            self.reader().lines(alloc)
        }

        fn reader(&self) -> &'static [u8] {
            b"abc"
        }
    }

    impl Print for Stuck {
        fn print<D: Display + Drop>(&self, _value: D) -> io::Result<()> {
            Ok(())
        }

        fn println<D: Display + Drop>(&self, _value: D) -> io::Result<()> {
            Ok(())
        }

        fn write_all(&self, _bytes: &[u8]) -> io::Result<()> {
            Ok(())
        }

        fn write_some(&self, _bytes: &[u8]) -> io::Result<usize> {
            Ok(0)
        }
    }

    #[test]
    fn input_is_read_on_from_call_to_call(rt: HostRuntime) {
        let runtime = Stuck;
        let mut source = StdSource::new(&runtime);
        let mut piece = [0u8; 2];
        assert_eq!(rt; source.read(&mut piece), Ok(2));
        assert_eq!(rt; source.read(&mut piece), Ok(1));
        assert_eq!(rt; source.read(&mut piece), Ok(0));
        assert_eq!(rt; piece, *b"cb");
    }

    #[test]
    fn an_output_that_takes_nothing_fails_and_counts(rt: HostRuntime) {
        let runtime = Stuck;
        let mut sink = StdSink::new(&runtime);
        assert!(rt; write_all(&mut sink, b"abc").is_err());
        assert_eq!(rt; sink.faults, 1);
    }

    #[test]
    fn the_streams_of_the_host_answer(rt: HostRuntime) {
        assert_eq!(rt; StdSource::new(&rt).read(&mut []), Ok(0));
        assert_eq!(rt; StdSink::new(&rt).write(b""), Ok(0));
    }
}
