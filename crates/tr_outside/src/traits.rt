//! Sources and sinks of bytes, as their callers see them.
ghost use Rattle.std.specs.Prelude.{◌≡◌, ℕ, ◌<◌, List, length, IfOk};
ghost use Rattle.std.specs.declared.option.Option.{Option};
ghost use Rattle.std.specs.Io.{ReadsAtMost, WritesAtMost};
ghost use Rattle.std.specs.Io.KnownBytes.{ReadConsumes, WriteAppends};
ghost use Rattle.tr_outside.specs.Causes.{HasCause};

use thiserror::Error;

/// A fault of the outside. Whoever answered it has counted it.
#[derive(Debug, PartialEq, Eq, Drop, Error)]
#[error("the outside failed")]
pub struct Failed;

/// Where bytes come from.
pub trait Source {
    /// The bytes still to come, where they are known.
    ghost left: { Self → Option (List ℕ) };

    /// How many calls have failed. It never falls.
    ghost faults: { Self → ℕ };

    /// Puts the next bytes at the front of `into` and answers how many: 0 for a buffer that has room
    /// means that the source has ended.
    ///
    /// `Failed` takes nothing, and comes only where `faults` rose or stands at its last value.
    fn read(&mut self, into: &mut [u8]) -> Result<usize, Failed>
        ensures bound { ReadsAtMost result into.new }
        ensures bytes { ReadConsumes (left self.old) (left self.new) result into.new }
        ensures cause { HasCause (faults self.old) (faults self.new) result };
}

/// Where bytes go.
pub trait Sink {
    /// The bytes that were taken, where they are known.
    ghost written: { Self → Option (List ℕ) };

    /// How many calls have failed. It never falls.
    ghost faults: { Self → ℕ };

    /// Takes the first bytes of `from` and answers how many: of a piece that isn't empty, at least
    /// one.
    ///
    /// `Failed` takes nothing, and comes only where `faults` rose or stands at its last value.
    fn write(&mut self, from: &[u8]) -> Result<usize, Failed>
        ensures bound { WritesAtMost result from.now }
        ensures some { IfOk result (λ count. 0 < length from.now → 0 < count) }
        ensures bytes { WriteAppends (written self.old) (written self.new) result from.now }
        ensures cause { HasCause (faults self.old) (faults self.new) result };
}
