// What a program asks of the file system, and what it is told.
ghost use Rattle.std.specs.Prelude.{◌≡◌, IfOk};

use crate::{Bytes, Names, Path, Right};
use std::alloc::{AllocError, Global};

/// A file command.
#[derive(Debug, Drop)]
pub enum Command {
    Create { path: Path, mode: u16 },
    Stat { path: Path },
}

impl Command {
    /// The same command once more.
    pub fn copy(&self, alloc: Global) -> Result<Command, AllocError>
        ensures { IfOk result (λ command. command ≡ self.now) }
    {
        match self {
            Command::Create { path, mode } => Ok(Command::Create {
                path: path.copy(alloc)?,
                mode: *mode,
            }),
            Command::Stat { path } => Ok(Command::Stat {
                path: path.copy(alloc)?,
            }),
        }
    }
}

/// What stands at a path.
#[derive(Clone, Copy, Debug, PartialEq, Eq)]
pub enum Kind {
    File,
    Dir,
}

/// What a call is told at its end. Addresses and sizes are in bytes, times in ticks.
#[derive(Debug, Drop)]
pub enum Reply {
    Made,
    Gone,
    Wrote(u64),
    Cut,
    Data(Bytes),
    /// Kind, size, uid, gid and mode. The size of a directory is its number of names.
    Info(Kind, u64, u32, u32, u16),
    Names(Names),
    Moded,
    Moved,
    Denied(Right, Path),
    NotFound,
    NotDir,
    Exists,
    IsDir,
    NotEmpty,
    TooBig(u64),
    TooLong,
    CrossCoffer,
    TooMany,
    NoSpace { need: u32, free: u32 },
    Quarantined,
    Busy { addr: u64, word: u64, now: u32 },
    Expired { addr: u64, word: u64 },
    NoKey,
    InUse { thread: u16 },
    Again { times: u8 },
    Damaged { addr: u64 },
}

#[cfg(test)]
mod tests {
    use super::*;

    #[test]
    fn a_copy_has_the_path_and_the_mode(rt: HostRuntime) -> Result<(), AllocError> {
        let path = Path::new(Vec::from_slice(rt.alloc(), b"/f")?);
        let command = Command::Create { path, mode: 0o666 };
        match command.copy(rt.alloc())? {
            Command::Create { path, mode } => {
                assert_eq!(rt; path.as_bytes(), b"/f".as_slice());
                assert_eq!(rt; mode, 438);
            }
            Command::Stat { .. } => assert!(rt; false, "another command"),
        }
        Ok(())
    }
}
