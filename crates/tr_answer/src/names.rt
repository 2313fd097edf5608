// The names of paths, and how the names of two paths compare.
ghost use Rattle.std.specs.Prelude.{◌≡◌, ◌+◌, [], ◌∷◌, ◌++◌, length, drop, ◌&&◌, ◌==◌, nat_lt, IfOk, OnOk};
ghost use Rattle.std.specs.List.{list_any};
ghost use Rattle.tr_types.specs.Paths as paths;
ghost use Rattle.zo_model.specs.Answers as answers;
ghost use Rattle.zo_model.specs.Coffers as coffers;
ghost use Rattle.zo_model.specs.Tree as spec;
ghost use Rattle.tr_answer.specs.Nodes.{names_kept};

use std::alloc::{AllocError, Global};
use tr_types::{Name, Names};

/// The most bytes of a name and of a path, and the most names of a path.
const NAME_BYTES: usize = 255;

const PATH_BYTES: usize = 1024;

const PATH_NAMES: usize = 32;

/// Puts the bytes at the end as a name, unless there are none.
fn push_name(names: &mut Names, alloc: Global, bytes: &[u8]) -> Result<(), AllocError>
    ensures { OnOk result (names.new ≡ names.old ++ names_kept (bytes.now ∷ [])) }
{
    if bytes.is_empty() {
        return Ok(());
    }
    names.push(Name::new(Vec::from_slice(alloc, bytes)?))
}

/// The names of a path: what stands between its slashes.
pub fn names_of(alloc: Global, path: &[u8]) -> Result<Names, AllocError>
    ensures { IfOk result (λ names. names ≡ paths.names_of path.now) }
{
    let mut names = Names::new(alloc);
    let mut name = Vec::new(alloc);
    for &byte in path {
        if byte == b'/' {
            push_name(&mut names, alloc, &name)?;
            name.clear();
        } else {
            name.push(byte)?;
        }
    }
    push_name(&mut names, alloc, &name)?;
    Ok(names)
}

/// The path of these names as a text.
pub fn path_text(alloc: Global, names: &[Name]) -> Result<Vec<u8>, AllocError>
    ensures { IfOk result (λ text. text.items ≡ coffers.path_text names.now) }
{
    let mut text = Vec::new(alloc);
    for name in names {
        text.push(b'/')?;
        text.extend_from_slice(name.as_bytes())?;
    }
    if names.is_empty() {
        text.push(b'/')?;
    }
    Ok(text)
}

/// The same names once more.
pub fn copy_names(alloc: Global, names: &[Name]) -> Result<Names, AllocError>
    ensures { IfOk result (λ copy. copy ≡ names.now) }
{
    let mut copy = Names::new(alloc);
    for name in names {
        copy.push(Name::new(Vec::from_slice(alloc, name.as_bytes())?))?;
    }
    Ok(copy)
}

/// Some name is longer than any may be.
fn has_long_name(names: &[Name]) -> bool
    ensures { result ≡ list_any (λ name. nat_lt NAME_BYTES (length name)) names.now }
{
    names.iter().any(|name| name.as_bytes().len() > NAME_BYTES)
}

/// The path with these names is longer than any path may be.
pub fn is_too_long(path: &[u8], names: &[Name]) -> bool
    requires { names.now ≡ paths.names_of path.now }
    ensures { result ≡ answers.is_too_long path.now }
{
    path.len() > PATH_BYTES || names.len() > PATH_NAMES || has_long_name(names)
}

/// The names are the same, one by one.
pub fn same_names(left: &[Name], right: &[Name]) -> bool
    ensures { result ≡ spec.same_names left.now right.now }
{
    if left.len() != right.len() {
        return false;
    }
    for (i, name) in left.iter().enumerate() {
        if name.as_bytes() != right[i].as_bytes() {
            return false;
        }
    }
    true
}

/// The names begin with those in front.
pub fn lies_in(names: &[Name], front: &[Name]) -> bool
    ensures { result ≡ coffers.lies_in names.now front.now }
{
    front.len() <= names.len() && same_names(front, &names[..front.len()])
}

/// `names` stand directly under the directory of the names `above`.
pub fn is_directly_under(above: &[Name], names: &[Name]) -> bool
    ensures { result ≡ ((length names.now == length above.now + 1) && coffers.lies_in names.now above.now) }
{
    names.len() == above.len() + 1 && lies_in(names, above)
}

/// The names of the directory in which the last of the names stands.
pub fn parent(names: &[Name]) -> &[Name]
    ensures { result.now ≡ coffers.parent names.now }
{
    &names[..names.len().saturating_sub(1)]
}

/// The names from the place `start` on, of which there may be none.
pub fn names_from(names: &[Name], start: usize) -> &[Name]
    ensures { result.now ≡ drop start names.now }
{
    &names[start.min(names.len())..]
}

#[cfg(test)]
mod tests {
    use super::*;

    #[test]
    fn names_lie_between_slashes(rt: HostRuntime) -> Result<(), AllocError> {
        let names = names_of(rt.alloc(), b"//ab/c/")?;
        let names = names.as_slice();
        assert_eq!(rt; names.len(), 2);
        assert_eq!(rt;
            names.first().map(|name| name.as_bytes()),
            Some(b"ab".as_slice())
        );
        assert_eq!(rt;
            names.last().map(|name| name.as_bytes()),
            Some(b"c".as_slice())
        );
        Ok(())
    }
}
