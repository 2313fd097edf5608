//! What the adapters over the runtime make of its answers.
ghost use Rattle.std.specs.Prelude.{◌≡◌, ◌<◌, length, Ok, IfOk, OnErr, IsErr};
ghost use Rattle.tr_outside.specs.Causes.{CountsItself, HasCause};

use crate::traits::Failed;
use std::io;
use std::io::ErrorKind;

/// Counts an error, and keeps an answer.
pub(crate) fn counted(outcome: io::Result<usize>, faults: &mut u64) -> Result<usize, Failed>
    ensures same { IfOk result (λ count. outcome ≡ Ok count) }
    ensures failed { OnErr result (IsErr outcome) }
    ensures counts { CountsItself faults.old faults.new result }
    ensures cause { HasCause faults.old faults.new result }
{
    match outcome {
        Ok(count) => Ok(count),
        Err(_) => {
            *faults = faults.saturating_add(1);
            Err(Failed)
        }
    }
}

/// The same for a write of `from`, where none taken of a piece that isn't empty is an error too.
pub(crate) fn counted_write(
    outcome: io::Result<usize>,
    from: &[u8],
    faults: &mut u64,
) -> Result<usize, Failed>
    ensures same { IfOk result (λ count. outcome ≡ Ok count) }
    ensures failed { OnErr result (IfOk outcome (λ count. count ≡ 0)) }
    ensures some { IfOk result (λ count. 0 < length from.now → 0 < count) }
    ensures counts { CountsItself faults.old faults.new result }
    ensures cause { HasCause faults.old faults.new result }
{
    match outcome {
        Ok(0) if !from.is_empty() => counted(Err(io::Error::from(ErrorKind::WriteZero)), faults),
        other => counted(other, faults),
    }
}
