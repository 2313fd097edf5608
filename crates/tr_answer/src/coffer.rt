// The coffers that stand, and which of them a path belongs to.
ghost use Rattle.std.specs.Prelude.{◌≡◌, ◌<◌, length, map, IfOk, IfSome, OnOk, OnErr};
ghost use Rattle.zo_model.specs.Answers as answers;
ghost use Rattle.zo_model.specs.Coffers as spec;
ghost use Rattle.tr_answer.specs.Nodes.{node_of};
ghost use Rattle.tr_answer.specs.Contents.{coffer_at, is_deeper_than, with_file, root_of, content_closed, closed_coffer, with_content};

use crate::names::{is_directly_under, lies_in, names_from, same_names};
use crate::tree::{Member, Node};
use std::alloc::{AllocError, Global};
use std::marker::Model;
use tr_types::{Bytes, Name, Names, Perm};

/// What a coffer holds: a tree, nothing that is promised, or nothing at all.
#[derive(Debug, Drop)]
pub enum Content {
    Ready(Vec<Member>),
    Lost,
    Quarantined,
}

/// A coffer, with the names of its path.
#[derive(Debug, Drop)]
pub struct Coffer {
    pub path: Names,
    pub perm: Perm,
    pub content: Content,
}

impl Model for Coffer {
    ghost use Rattle.zo_model.specs.Coffers as spec;
    ghost use Rattle.tr_answer.specs.Contents.{content_of};

    ghost Value = { spec.Coffer };

    ghost view = { λ c. record { path = c.path; perm = c.perm; content = content_of c.content } };
}

/// How a coffer is closed to its users: nothing is promised of it, or it is shut off.
#[derive(Clone, Copy, Debug, PartialEq, Eq)]
pub enum Closed {
    Lost,
    Quarantined,
}

impl Coffer {
    /// A coffer with its root alone.
    pub fn new(alloc: Global, path: Names, perm: Perm, root: Node) -> Result<Coffer, AllocError>
        ensures { IfOk result (λ coffer. coffer ≡ record { path = path; perm = perm; content = root_of (node_of root) }) }
    {
        let mut tree = Vec::new(alloc);
        tree.push(Member {
            names: Names::new(alloc),
            node: root,
        })?;
        Ok(Coffer {
            path,
            perm,
            content: Content::Ready(tree),
        })
    }

    /// The names from the coffer's root on.
    pub fn within<'a>(&self, names: &'a [Name]) -> &'a [Name]
        ensures { result.now ≡ spec.within self.now names.now }
    {
        names_from(names, self.path.len())
    }

    /// Puts an empty file into the coffer's tree, under these names from its root on.
    pub fn add_file(&mut self, alloc: Global, names: Names) -> Result<(), AllocError>
        ensures ok { OnOk result (self.new ≡ with_file self.old names) }
        ensures err { OnErr result (self.new ≡ self.old) }
    {
        match &mut self.content {
            Content::Ready(tree) => {
                let node = Node::File(Bytes::new(alloc));
                tree.push(Member { names, node })?;
                Ok(())
            }
            Content::Lost | Content::Quarantined => Ok(()),
        }
    }

    /// Closes the coffer.
    fn close(&mut self, closed: Closed)
        ensures { self.new ≡ closed_coffer (content_closed closed) self.old }
    {
        self.content = match closed {
            Closed::Lost => Content::Lost,
            Closed::Quarantined => Content::Quarantined,
        };
    }
}

/// Closes each coffer of just this path.
pub fn close_all(coffers: &mut [Coffer], names: &[Name], closed: Closed)
    ensures { coffers.new ≡ map (with_content names.now (content_closed closed)) coffers.old }
{
    for coffer in coffers.iter_mut() {
        if same_names(coffer.path.as_slice(), names) {
            coffer.close(closed);
        }
    }
}

/// The coffer has a longer path than that at this place, if there is one.
fn is_deeper(coffers: &[Coffer], coffer: &Coffer, other: Option<usize>) -> bool
    ensures { result ≡ is_deeper_than coffer.now (coffer_at coffers.now other) }
{
    match other {
        Some(at) => match coffers.get(at) {
            Some(other) => other.path.len() < coffer.path.len(),
            None => true,
        },
        None => true,
    }
}

/// The place of the coffer of a path: that with the longest path with which it begins.
pub fn coffer_of(coffers: &[Coffer], names: &[Name]) -> Option<usize>
    ensures coffer { coffer_at coffers.now result ≡ spec.coffer_of coffers.now names.now }
    ensures inside { IfSome result (λ at. at < length coffers.now) }
{
    let mut deepest = None;
    for (i, coffer) in coffers.iter().enumerate() {
        if lies_in(names, coffer.path.as_slice()) && is_deeper(coffers, coffer, deepest) {
            deepest = Some(i);
        }
    }
    deepest
}

/// A coffer has just this path.
pub fn is_coffer(coffers: &[Coffer], names: &[Name]) -> bool
    ensures { result ≡ spec.is_coffer coffers.now names.now }
{
    coffers
        .iter()
        .any(|coffer| same_names(coffer.path.as_slice(), names))
}

/// How many coffers stand directly under the directory of these names.
pub fn coffers_under(coffers: &[Coffer], names: &[Name]) -> usize
    ensures { result ≡ spec.coffers_under coffers.now names.now }
{
    let mut count = 0;
    for coffer in coffers {
        if is_directly_under(names, coffer.path.as_slice()) {
            count += 1;
        }
    }
    count
}
