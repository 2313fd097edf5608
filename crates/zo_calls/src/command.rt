// What a call needs of its command.
ghost use Rattle.std.specs.Prelude.{◌≡◌, take, IfOk};
ghost use Rattle.zo_calls.specs.Places as spec;

use std::alloc::{AllocError, Global};
use tr_types::{Command, Mapped, Path, Right};

/// The path of the coffer that a command has mapped.
pub(crate) fn coffer_path(
    alloc: Global,
    command: &Command,
    mapped: &Mapped,
) -> Result<Path, AllocError>
    ensures { IfOk result (λ path. path ≡ take mapped.now.path_len (spec.path_of command.now)) }
{
    let path = path_of(command);
    let len = path.len().min(usize::from(mapped.path_len));
    let coffer = &path[..len];
    Ok(Path::new(Vec::from_slice(alloc, coffer)?))
}

/// The right with which a command maps its coffer.
pub(crate) fn right_of(command: &Command) -> Right
    ensures { result.0 ≡ spec.right_of command.now }
{
    match command {
        Command::Create { .. } => Right::WRITE,
        Command::Stat { .. } => Right::READ,
    }
}

fn path_of(command: &Command) -> &[u8]
    ensures { result.now ≡ spec.path_of command.now }
{
    match command {
        Command::Create { path, .. } | Command::Stat { path } => path.as_bytes(),
    }
}

/// The name that a command's path has in the root directory; none for `/`.
pub(crate) fn name_of(command: &Command) -> &[u8]
    ensures { result.now ≡ spec.name_of command.now }
{
    let path = path_of(command);
    if path.is_empty() { path } else { &path[1..] }
}
