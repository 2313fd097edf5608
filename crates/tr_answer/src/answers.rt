// What commands are answered, and the coffers after them.
ghost use Rattle.std.specs.Prelude.{◌≡◌, [], ◌∷◌, map, slice_get, IfOk, OnOk, OnErr};
ghost use Rattle.std.specs.List.{IsDistinct};
ghost use Rattle.tr_types.specs.Paths as paths;
ghost use Rattle.zo_model.specs.Alone.{root_coffer};
ghost use Rattle.zo_model.specs.Answers as spec;
ghost use Rattle.zo_model.specs.Coffers as model;
ghost use Rattle.zo_model.specs.Tree as tree;
ghost use Rattle.tr_answer.specs.Nodes.{node_of};
ghost use Rattle.tr_answer.specs.Contents.{with_content, content_closed};
ghost use Rattle.tr_answer.specs.Decisions.{reply_in, coffers_after, with_coffer, grown_in};

use crate::coffer::{Closed, Coffer, close_all, is_coffer};
use crate::decision::{Decision, decide};
use crate::names::{copy_names, names_of};
use crate::tree::Node;
use std::alloc::{AllocError, Global};
use std::marker::Model;
use tr_types::{Bytes, Command, Cred, Name, Names, Perm, Reply};

/// The coffers as their users see them.
#[derive(Debug, Drop)]
pub struct Coffers {
    coffers: Vec<Coffer>,
}

impl Model for Coffers {
    ghost use Rattle.std.specs.Prelude.{List};
    ghost use Rattle.std.specs.List.{IsDistinct};
    ghost use Rattle.zo_model.specs.Coffers as spec;
    ghost use Rattle.zo_model.specs.Tree.{same_names};

    ghost Value = { List spec.Coffer };

    ghost view = { λ c. c.coffers.items };

    // no two have one path
    ghost invariant = { λ c. IsDistinct same_names (spec.paths_of c.coffers.items) };
}

impl Coffers {
    /// A new file system: the root coffer alone, with an empty directory, which belongs to uid 0 and gid 0
    /// and which everyone may read and write. Fails only where memory is refused.
    pub fn new(alloc: Global) -> Result<Coffers, AllocError>
        ensures { IfOk result (λ coffers. coffers ≡ root_coffer tree.new_tree ∷ []) }
    {
        let perm = Perm {
            uid: 0,
            gid: 0,
            mode: 0o666,
        };
        let root = Coffer::new(alloc, Names::new(alloc), perm, Node::Directory)?;
        let mut coffers = Vec::new(alloc);
        coffers.push(root)?;
        Ok(Coffers { coffers })
    }

    /// What the command is answered, if anything is promised. It changes nothing: `apply` does. Fails only
    /// where memory is refused.
    pub fn answer(
        &self,
        alloc: Global,
        cred: &Cred,
        command: &Command,
    ) -> Result<Option<Reply>, AllocError>
        ensures { IfOk result (λ reply. reply ≡ reply_in (spec.answer self.now cred.now command.now)) }
    {
        match decide(&self.coffers, alloc, cred, command)? {
            Decision::Told(reply) => Ok(reply),
            Decision::Grows { .. } | Decision::Founds { .. } => Ok(Some(Reply::Made)),
        }
    }

    /// Does what the command asks for. Fails only where memory is refused, and the coffers then stay as they
    /// were.
    pub fn apply(&mut self, alloc: Global, cred: &Cred, command: &Command) -> Result<(), AllocError>
        ensures ok { OnOk result (self.new ≡ coffers_after self.old (spec.answer self.old cred.now command.now)) }
        ensures err { OnErr result (self.new ≡ self.old) }
    {
        match decide(&self.coffers, alloc, cred, command)? {
            Decision::Told(_) => Ok(()),
            Decision::Grows { at, names } => grow(&mut self.coffers, alloc, at, names.as_slice()),
            Decision::Founds { path, perm } => {
                let file = Node::File(Bytes::new(alloc));
                found(&mut self.coffers, alloc, path, perm, file)
            }
        }
    }

    /// Puts a coffer with an empty directory at a path, unless one has it. Fails only where memory is
    /// refused, and the coffers then stay as they were.
    pub fn push(&mut self, alloc: Global, path: &[u8], perm: Perm) -> Result<(), AllocError>
        ensures ok { OnOk result (self.new ≡ with_coffer self.old (paths.names_of path.now) perm) }
        ensures err { OnErr result (self.new ≡ self.old) }
    {
        let names = names_of(alloc, path)?;
        if is_coffer(&self.coffers, names.as_slice()) {
            return Ok(());
        }
        found(&mut self.coffers, alloc, names, perm, Node::Directory)
    }

    /// Closes the coffer of just this path, if there is one. Fails only where memory is refused, and the
    /// coffers then stay as they were.
    pub fn close(&mut self, alloc: Global, path: &[u8], closed: Closed) -> Result<(), AllocError>
        ensures ok { OnOk result (self.new ≡ map (with_content (paths.names_of path.now) (content_closed closed)) self.old) }
        ensures err { OnErr result (self.new ≡ self.old) }
    {
        let names = names_of(alloc, path)?;
        close_all(&mut self.coffers, names.as_slice(), closed);
        Ok(())
    }
}

/// Puts an empty file with these names into the coffer at this place.
fn grow(
    coffers: &mut Vec<Coffer>,
    alloc: Global,
    at: usize,
    names: &[Name],
) -> Result<(), AllocError>
    requires { IsDistinct tree.same_names (model.paths_of coffers.old.items) }
    ensures ok { OnOk result (coffers.new.items ≡ grown_in coffers.old.items names.now (slice_get coffers.old.items at)) }
    ensures paths { model.paths_of coffers.new.items ≡ model.paths_of coffers.old.items }
    ensures err { OnErr result (coffers.new.items ≡ coffers.old.items) }
{
    let Some(coffer) = coffers.get_mut(at) else {
        return Ok(());
    };
    let inner = copy_names(alloc, coffer.within(names))?;
    coffer.add_file(alloc, inner)
}

/// Puts a coffer with this root at the end.
fn found(
    coffers: &mut Vec<Coffer>,
    alloc: Global,
    path: Names,
    perm: Perm,
    root: Node,
) -> Result<(), AllocError>
    ensures ok { OnOk result (coffers.new.items ≡ spec.founded coffers.old.items path perm (node_of root)) }
    ensures err { OnErr result (coffers.new.items ≡ coffers.old.items) }
{
    coffers.push(Coffer::new(alloc, path, perm, root)?)?;
    Ok(())
}

#[cfg(test)]
mod tests;
