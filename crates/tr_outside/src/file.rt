//! Files as sources and sinks.
ghost use Rattle.std.specs.Prelude.{◌≡◌, ◌<◌, length, None, IfOk};
ghost use Rattle.std.specs.Io.{ReadsAtMost, WritesAtMost};
ghost use Rattle.std.specs.Io.KnownBytes.{ReadConsumes, WriteAppends};
ghost use Rattle.tr_outside.specs.Adapter.{known_of};
ghost use Rattle.tr_outside.specs.Causes.{HasCause, CountsItself};

use crate::counting::{counted, counted_write};
use crate::traits::{Failed, Sink, Source};
use std::fs::File;
use std::io;
use std::io::{Read, Write};
use std::marker::Model;
use std::rt::Files;

/// A file to read, which the first call opens.
///
/// As a source it tells no content. A contract sees what the open file itself tells of its bytes,
/// and how many calls have failed, a failed opening too.
#[derive(Drop)]
pub struct FileSource<'a, R: Files> {
    rt: &'a R,
    path: String,
    file: Option<R::File>,
    faults: u64,
}

impl<'a, R: Files> Model for FileSource<'a, R> {
    ghost use Rattle.tr_outside.specs.Adapter.{AdapterState, known_of};

    ghost Value = { AdapterState };

    ghost view = { λ s. record { known = known_of (λ file. R.File.remaining file) s.file; faults = s.faults } };
}

impl<'a, R: Files> FileSource<'a, R> {
    /// The file at `path`, which isn't opened yet.
    pub fn at(rt: &'a R, path: String) -> FileSource<'a, R>
        ensures known { result.known ≡ None }
        ensures faults { result.faults ≡ 0 }
    {
        FileSource {
            rt,
            path,
            file: None,
            faults: 0,
        }
    }
}

impl<R: Files> Source for FileSource<'_, R> {
    ghost left = { λ _. None };

    ghost faults = { λ s. s.faults };

    fn read(&mut self, into: &mut [u8]) -> Result<usize, Failed>
        ensures bound { ReadsAtMost result into.new }
        ensures bytes { ReadConsumes None None result into.new }
        ensures cause { HasCause self.old.faults self.new.faults result }

        ensures known { ReadConsumes self.old.known self.new.known result into.new }
        ensures counts { CountsItself self.old.faults self.new.faults result }
    {
        let outcome = read_opened(self.rt, self.path.as_str(), &mut self.file, into);
        counted(outcome, &mut self.faults)
    }
}

/// A file to write, which the first call makes, or empties where it stands.
///
/// As a sink it tells no content. A contract sees what the open file itself tells of its bytes, and
/// how many calls have failed, a failed opening too.
#[derive(Drop)]
pub struct FileSink<'a, R: Files> {
    rt: &'a R,
    path: String,
    file: Option<R::File>,
    faults: u64,
}

impl<'a, R: Files> Model for FileSink<'a, R> {
    ghost use Rattle.tr_outside.specs.Adapter.{AdapterState, known_of};

    ghost Value = { AdapterState };

    ghost view = { λ s. record { known = known_of (λ file. R.File.contents file) s.file; faults = s.faults } };
}

impl<'a, R: Files> FileSink<'a, R> {
    /// The file at `path`, which isn't made yet.
    pub fn at(rt: &'a R, path: String) -> FileSink<'a, R>
        ensures known { result.known ≡ None }
        ensures faults { result.faults ≡ 0 }
    {
        FileSink {
            rt,
            path,
            file: None,
            faults: 0,
        }
    }
}

impl<R: Files> Sink for FileSink<'_, R> {
    ghost written = { λ _. None };

    ghost faults = { λ s. s.faults };

    fn write(&mut self, from: &[u8]) -> Result<usize, Failed>
        ensures bound { WritesAtMost result from.now }
        ensures some { IfOk result (λ count. 0 < length from.now → 0 < count) }
        ensures bytes { WriteAppends None None result from.now }
        ensures cause { HasCause self.old.faults self.new.faults result }

        ensures known { WriteAppends self.old.known self.new.known result from.now }
        ensures counts { CountsItself self.old.faults self.new.faults result }
    {
        let outcome = write_opened(self.rt, self.path.as_str(), &mut self.file, from);
        counted_write(outcome, from, &mut self.faults)
    }
}

// Reads from the file, which is opened where it isn't open yet.
fn read_opened<R: Files>(
    rt: &R,
    path: &str,
    opened: &mut Option<R::File>,
    into: &mut [u8],
) -> io::Result<usize>
    ensures bound { ReadsAtMost result into.new }
    ensures known { ReadConsumes (known_of (λ file. R.File.remaining file) opened.old)
        (known_of (λ file. R.File.remaining file) opened.new) result into.new }
{
    let mut file = match opened.take() {
        Some(file) => file,
        None => File::open(rt, path)?,
    };
    let outcome = file.read(into);
    *opened = Some(file);
    outcome
}

// Writes to the file, which is made or emptied where it isn't open yet.
fn write_opened<R: Files>(
    rt: &R,
    path: &str,
    opened: &mut Option<R::File>,
    from: &[u8],
) -> io::Result<usize>
    ensures bound { WritesAtMost result from.now }
    ensures known { WriteAppends (known_of (λ file. R.File.contents file) opened.old)
        (known_of (λ file. R.File.contents file) opened.new) result from.now }
{
    let mut file = match opened.take() {
        Some(file) => file,
        None => File::create(rt, path)?,
    };
    let outcome = file.write(from);
    *opened = Some(file);
    outcome
}

#[cfg(test)]
mod tests {
    use super::*;
    use crate::whole::{ReadError, read_up_to, write_all};
    use std::alloc::AllocError;
    use std::fs;

    #[test]
    fn a_file_is_written_and_read_back(rt: HostRuntime) -> Result<(), ReadError> {
        let mut sink = FileSink::at(&rt, String::from_str(rt.alloc(), "bytes")?);
        assert!(rt; write_all(&mut sink, b"abc").is_ok());
        assert!(rt; write_all(&mut sink, b"de").is_ok());
        let mut source = FileSource::at(&rt, String::from_str(rt.alloc(), "bytes")?);
        let bytes = read_up_to(rt.alloc(), &mut source, 99)?;
        assert_eq!(rt; bytes.as_slice(), b"abcde".as_slice());
        assert!(rt; fs::remove_file(&rt, "bytes").is_ok());
        Ok(())
    }

    #[test]
    fn a_missing_file_fails_and_counts(rt: HostRuntime) -> Result<(), AllocError> {
        let mut source = FileSource::at(&rt, String::from_str(rt.alloc(), "none")?);
        let mut piece = [0u8; 4];
        assert!(rt; source.read(&mut piece).is_err());
        assert!(rt; source.read(&mut piece).is_err());
        assert_eq!(rt; source.faults, 2);
        Ok(())
    }

    #[test]
    fn a_missing_folder_fails_and_counts(rt: HostRuntime) -> Result<(), AllocError> {
        let mut sink = FileSink::at(&rt, String::from_str(rt.alloc(), "none/bytes")?);
        assert!(rt; write_all(&mut sink, b"abc").is_err());
        assert_eq!(rt; sink.faults, 1);
        Ok(())
    }
}
