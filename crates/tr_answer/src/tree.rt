// The tree of a coffer as a list of all that stands in it.
ghost use Rattle.std.specs.Prelude.{◌≡◌, [], length, filter};
ghost use Rattle.std.specs.Option.{option_copied, option_map};
ghost use Rattle.zo_model.specs.Answers as answers;
ghost use Rattle.zo_model.specs.Tree as spec;
ghost use Rattle.tr_answer.specs.Nodes.{node_of, walk_of};

use crate::names::{is_directly_under, same_names};
use std::marker::Model;
use tr_types::{Bytes, Name, Names};

/// What stands at a path.
#[derive(Debug, Drop)]
pub enum Node {
    Directory,
    File(Bytes),
}

/// What stands at a path, with the path's names from the coffer's root on.
#[derive(Debug, Drop)]
pub struct Member {
    pub names: Names,
    pub node: Node,
}

impl Model for Member {
    ghost use Rattle.zo_model.specs.Tree as spec;
    ghost use Rattle.tr_answer.specs.Nodes.{node_of};

    ghost Value = { spec.Member };

    ghost view = { λ m. record { names = m.names; node = node_of m.node } };
}

/// How a walk ends: at a node, at a name that isn't there, or at a file before the last name.
pub enum WalkEnd<'a> {
    Reaches(&'a Node),
    MissesName,
    MeetsFile,
}

/// What stands under these names.
pub fn node_at<'a>(members: &'a [Member], names: &[Name]) -> Option<&'a Node>
    ensures { option_map node_of (option_copied result) ≡ spec.node_at members.now names.now }
{
    for member in members {
        if same_names(member.names.as_slice(), names) {
            return Some(&member.node);
        }
    }
    None
}

/// How many members stand directly under the directory of these names.
pub fn count_children(members: &[Member], names: &[Name]) -> usize
    ensures { result ≡ length (filter (spec.is_child names.now) members.now) }
{
    let mut count = 0;
    for member in members {
        if is_directly_under(names, member.names.as_slice()) {
            count += 1;
        }
    }
    count
}

/// The walk from the root through these names.
pub fn walk<'a>(members: &'a [Member], names: &[Name]) -> WalkEnd<'a>
    ensures { walk_of result ≡ answers.walk members.now [] names.now }
{
    for i in 0..names.len() {
        match node_at(members, &names[..i]) {
            Some(Node::Directory) => {}
            Some(Node::File(_)) => return WalkEnd::MeetsFile,
            None => return WalkEnd::MissesName,
        }
    }
    match node_at(members, names) {
        Some(node) => WalkEnd::Reaches(node),
        None => WalkEnd::MissesName,
    }
}
