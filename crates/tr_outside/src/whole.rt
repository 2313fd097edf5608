//! Calls that go on until all is written or read, or a fault stops them.
ghost use Rattle.std.specs.Prelude.{◌≡◌, ◌≤◌, ◌<◌, [], length, take, drop, IfOk, OnErr, IsOk, Ok, Err, vec_len};
ghost use Rattle.tr_outside.specs.declared.whole.ReadError.TheVariants.{Fault, NoMemory};
ghost use Rattle.tr_outside.specs.Causes.{HasCause, Rose};
ghost use Rattle.tr_outside.specs.Whole.{WritesAll, ReadsUpTo, ConsumesAtMost};

use crate::traits::{Failed, Sink, Source};
use std::alloc::{AllocError, Global};
use thiserror::Error;

/// A sink failed before it had taken all.
#[derive(Debug, PartialEq, Eq, Drop, Error)]
#[error("a write failed")]
pub struct WriteFault;

impl From<Failed> for WriteFault {
    fn from(_fault: Failed) -> WriteFault {
        WriteFault
    }
}

/// Why not all that a source has was read.
#[derive(Debug, PartialEq, Eq, Drop, Error)]
pub enum ReadError {
    /// The source failed.
    #[error("a read failed")]
    Fault,
    /// Memory for the bytes ran out.
    #[error("out of memory")]
    NoMemory,
}

impl From<Failed> for ReadError {
    ghost from_gives = { λ _ error. error ≡ Fault };

    fn from(_fault: Failed) -> ReadError {
        ReadError::Fault
    }
}

impl From<AllocError> for ReadError {
    ghost from_gives = { λ _ error. error ≡ NoMemory };

    fn from(_error: AllocError) -> ReadError {
        ReadError::NoMemory
    }
}

/// How many bytes are asked of a source at a time.
const PIECE: usize = 65_536;

/// Hands all of `bytes` to `sink`, in one write where the sink takes them all. Empty `bytes` make no
/// write.
///
/// After a fault the sink has taken a front of them.
pub fn write_all<D: Sink>(sink: &mut D, bytes: &[u8]) -> Result<(), WriteFault>
    ensures written { WritesAll (D.written sink.old) (D.written sink.new)
        (D.faults sink.old) (D.faults sink.new) bytes.now result }
    ensures empty { bytes.now ≡ [] → IsOk result × (sink.new ≡ sink.old) }
{
    let mut at = 0;
    while at < bytes.len() {
        at += sink.write(&bytes[at..])?;
    }
    Ok(())
}

/// Reads up to a read that gives 0, or until `limit` bytes are there, whichever comes first. No more
/// than `limit` bytes are taken from the source, whatever the answer.
///
/// The fault of the source ends it, and what was read until then is lost.
pub fn read_up_to<S: Source>(
    alloc: Global,
    source: &mut S,
    limit: usize,
) -> Result<Vec<u8>, ReadError>
    ensures read { IfOk result (λ v. ReadsUpTo limit (S.left source.old) (S.left source.new) v.items) }
    ensures taken { ConsumesAtMost limit (S.left source.old) (S.left source.new) }
    ensures fault { result ≡ Err ReadError.Fault → Rose (S.faults source.old) (S.faults source.new) }
    ensures later { S.faults source.old ≤ S.faults source.new }
{
    let mut bytes = Vec::new(alloc);
    let mut piece = [0u8; PIECE];
    while bytes.len() < limit {
        let size = PIECE.min(limit - bytes.len());
        bytes.reserve(size)?;
        let count = source.read(&mut piece[..size])?;
        if count == 0 {
            return Ok(bytes);
        }
        bytes.extend_from_slice(&piece[..count]).unwrap();
    }
    Ok(bytes)
}

#[cfg(test)]
mod tests {
    use super::*;
    use crate::memory::{MemSink, MemSource};

    #[test]
    fn all_is_one_write_and_nothing_is_none(rt: HostRuntime) -> Result<(), AllocError> {
        let mut sink = MemSink::new(rt.alloc(), 8, Vec::from_slice(rt.alloc(), &[2u32])?)?;
        assert_eq!(rt; write_all(&mut sink, b"abc"), Ok(()));
        assert_eq!(rt; write_all(&mut sink, b""), Ok(()));
        assert_eq!(rt; write_all(&mut sink, b"d"), Err(WriteFault));
        assert_eq!(rt; sink.bytes(), b"abc".as_slice());
        Ok(())
    }

    #[test]
    fn a_full_sink_keeps_a_front(rt: HostRuntime) -> Result<(), AllocError> {
        let mut sink = MemSink::new(rt.alloc(), 2, Vec::new(rt.alloc()))?;
        assert_eq!(rt; write_all(&mut sink, b"abc"), Err(WriteFault));
        assert_eq!(rt; sink.bytes(), b"ab".as_slice());
        Ok(())
    }

    #[test]
    fn a_limit_ends_a_read(rt: HostRuntime) -> Result<(), ReadError> {
        let bytes = Vec::from_slice(rt.alloc(), &[1u8, 2, 3, 4, 5])?;
        let mut source = MemSource::new(bytes, Vec::new(rt.alloc()));
        let front = read_up_to(rt.alloc(), &mut source, 3)?;
        assert_eq!(rt; front.as_slice(), [1, 2, 3].as_slice());
        let rest = read_up_to(rt.alloc(), &mut source, 9)?;
        assert_eq!(rt; rest.as_slice(), [4, 5].as_slice());
        Ok(())
    }

    #[test]
    fn a_fault_ends_a_read(rt: HostRuntime) -> Result<(), ReadError> {
        let bytes = Vec::from_slice(rt.alloc(), &[1u8, 2])?;
        let mut source = MemSource::new(bytes, Vec::from_slice(rt.alloc(), &[2u32])?);
        let outcome = read_up_to(rt.alloc(), &mut source, 9);
        assert!(rt; matches!(outcome, Err(ReadError::Fault)));
        Ok(())
    }
}
