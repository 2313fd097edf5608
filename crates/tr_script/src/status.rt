// How a run ends.
ghost use Rattle.std.specs.Prelude.{◌≡◌, Some};
ghost use Rattle.tr_script.specs.Status as spec;

use std::fmt;

/// How a run ends.
#[derive(Clone, Copy, Debug, PartialEq, Eq)]
pub enum Status {
    Done,
    /// The command line is none that the program knows.
    Usage,
    /// The script is bad at this line and byte column, both counted from 1.
    BadScript { line: u32, column: u32 },
    ReadFault,
    WriteFault,
    NoMemory,
    /// The trace has no room for a further entry.
    Full,
}

impl Status {
    /// The exit code of the program.
    pub fn exit_code(&self) -> u8
        ensures { result ≡ spec.exit_code self.now }
    {
        match self {
            Status::Done => 0,
            Status::Usage => 2,
            Status::BadScript { .. } => 4,
            Status::ReadFault => 5,
            Status::WriteFault => 6,
            Status::NoMemory => 7,
            Status::Full => 8,
        }
    }
}

/// Writes what the program says as it ends: nothing where all is done.
impl fmt::Display for Status {
    ghost output = { λ status. Some (spec.status_text status) };

    fn fmt<W: fmt::Write>(&self, f: &mut fmt::Formatter<W>) -> fmt::Result {
        match self {
            Status::Done => Ok(()),
            Status::Usage => f.write_str("zofs: usage"),
            Status::BadScript { line, column } => write!(f, "zofs: bad script at {line}:{column}"),
            Status::ReadFault => f.write_str("zofs: read fault"),
            Status::WriteFault => f.write_str("zofs: write fault"),
            Status::NoMemory => f.write_str("zofs: no memory"),
            Status::Full => f.write_str("zofs: trace full"),
        }
    }
}

#[cfg(test)]
mod tests {
    use super::*;
    use std::test::Fail;

    #[test]
    fn texts_of_the_statuses(rt: HostRuntime) -> Result<(), Fail> {
        for (status, text) in [
            (Status::Done, ""),
            (Status::Usage, "zofs: usage"),
            (
                Status::BadScript {
                    line: 3,
                    column: 17,
                },
                "zofs: bad script at 3:17",
            ),
            (Status::ReadFault, "zofs: read fault"),
            (Status::WriteFault, "zofs: write fault"),
            (Status::NoMemory, "zofs: no memory"),
            (Status::Full, "zofs: trace full"),
        ] {
            assert_eq!(rt; format!(in rt.alloc(); "{status}")?.as_str(), text);
        }
        Ok(())
    }

    #[test]
    fn exit_code_of_a_bad_script(rt: HostRuntime) {
        assert_eq!(rt; Status::BadScript { line: 1, column: 1 }.exit_code(), 4);
    }
}
