// What is to become of a command.
ghost use Rattle.std.specs.Prelude.{◌≡◌, ◌<◌, ◌^◌, ◌∷◌, [], List, length, true, false, IfOk, IfNone};
ghost use Rattle.tr_types.specs.declared.command.Command.{Command as TheCommand};
ghost use Rattle.zo_model.specs.Answers as spec;
ghost use Rattle.zo_model.specs.Coffers as model;
ghost use Rattle.zo_model.specs.Tree.{Node as TheNode};
ghost use Rattle.tr_types.specs.declared.permission.Perm.{Perm as ThePerm};
ghost use Rattle.tr_answer.specs.Decisions.{answered_by, opened_by, unless_told, IsFresh};

use crate::coffer::{Coffer, Content, coffer_of, coffers_under, is_coffer};
use crate::names::{is_too_long, names_of, parent, path_text};
use crate::tree::{Member, Node, WalkEnd, count_children, node_at, walk};
use std::alloc::{AllocError, Global};
use tr_types::{Command, Cred, Kind, Name, Names, Path, Perm, Reply, Right, refuses};

/// The most bytes of a coffer's path.
const COFFER_PATH_BYTES: usize = 440;

/// What is to become of a command.
#[derive(Debug, Drop)]
pub enum Decision {
    /// The caller is told so, where anything is promised, and nothing changes.
    Told(Option<Reply>),
    /// A file is made in the coffer at this place in the list.
    Grows { at: usize, names: Names },
    /// A file is made as the root of a coffer of its own.
    Founds { path: Names, perm: Perm },
}

/// What is to become of a command. A coffer that is to be founded has a path that no other has.
pub fn decide(
    coffers: &[Coffer],
    alloc: Global,
    cred: &Cred,
    command: &Command,
) -> Result<Decision, AllocError>
    requires { length coffers.now < 2 ^ 63 }
    ensures answer { IfOk result (λ decision. answered_by coffers.now decision ≡ spec.answer coffers.now cred.now command.now) }
    ensures fresh { IfOk result (IsFresh coffers.now) }
{
    match command {
        Command::Create { path, mode } => decide_create(
            coffers,
            alloc,
            cred,
            path.as_bytes(),
            *mode,
        ),
        Command::Stat { path } => Ok(Decision::Told(stat(coffers, alloc, cred, path.as_bytes())?)),
    }
}

/// What `stat` is answered.
fn stat(
    coffers: &[Coffer],
    alloc: Global,
    cred: &Cred,
    path: &[u8],
) -> Result<Option<Reply>, AllocError>
    requires { length coffers.now < 2 ^ 63 }
    ensures { IfOk result (λ reply. answered_by coffers.now (Decision.Told reply) ≡ spec.answer coffers.now cred.now (Command.Stat path.now)) }
{
    let names = names_of(alloc, path)?;
    let names = names.as_slice();
    if is_too_long(path, names) {
        return Ok(Some(Reply::TooLong));
    }
    let Some(at) = coffer_of(coffers, names) else {
        return Ok(None);
    };
    let coffer = &coffers[at];
    match open_tree(coffer, alloc, cred, Right::READ)? {
        Ok(tree) => Ok(Some(state_of(coffers, coffer, tree, names))),
        Err(reply) => Ok(reply),
    }
}

/// What is to become of a `create`.
fn decide_create(
    coffers: &[Coffer],
    alloc: Global,
    cred: &Cred,
    path: &[u8],
    mode: u16,
) -> Result<Decision, AllocError>
    ensures answer { IfOk result (λ decision. answered_by coffers.now decision ≡ spec.answer coffers.now cred.now (Command.Create path.now mode)) }
    ensures fresh { IfOk result (IsFresh coffers.now) }
{
    let names = names_of(alloc, path)?;
    if is_too_long(path, names.as_slice()) {
        return Ok(Decision::Told(Some(Reply::TooLong)));
    }
    let Some(at) = coffer_of(coffers, parent(names.as_slice())) else {
        return Ok(Decision::Told(None));
    };
    let coffer = &coffers[at];
    let tree = match open_tree(coffer, alloc, cred, Right::WRITE)? {
        Ok(tree) => tree,
        Err(reply) => return Ok(Decision::Told(reply)),
    };
    if let Some(reply) = obstacle(coffers, coffer, tree, names.as_slice()) {
        return Ok(Decision::Told(Some(reply)));
    }
    let perm = Perm {
        uid: cred.uid,
        gid: cred.gid,
        mode,
    };
    if perm == coffer.perm {
        return Ok(Decision::Grows { at, names });
    }
    if path_text(alloc, names.as_slice())?.len() > COFFER_PATH_BYTES {
        return Ok(Decision::Told(Some(Reply::TooLong)));
    }
    Ok(Decision::Founds { path: names, perm })
}

/// The coffer's tree, where it is ready and gives the caller the right; else what the caller is told.
fn open_tree<'a>(
    coffer: &'a Coffer,
    alloc: Global,
    cred: &Cred,
    right: Right,
) -> Result<Result<&'a [Member], Option<Reply>>, AllocError>
    ensures answer { IfOk result (λ opened. (coffers : List model.Coffer) (command : TheCommand)
        → opened_by coffers cred.now command coffer.now opened
        ≡ spec.answer_at coffers cred.now command (record { right = right; coffer = coffer.now } ∷ [])) }
    ensures content { IfOk result (λ opened. IfOk opened (λ tree. coffer.now.content ≡ model.Ready tree.now)) }
    ensures small { IfOk result (λ opened. IfOk opened (λ tree. length tree.now < 2 ^ 63)) }
{
    if refuses(&coffer.perm, cred, right) {
        let path = Path::new(path_text(alloc, coffer.path.as_slice())?);
        return Ok(Err(Some(Reply::Denied(right, path))));
    }
    match &coffer.content {
        Content::Ready(tree) => Ok(Ok(tree)),
        Content::Lost => Ok(Err(None)),
        Content::Quarantined => Ok(Err(Some(Reply::Quarantined))),
    }
}

/// What `stat` is answered by the tree of the coffer of these names.
fn state_of(coffers: &[Coffer], coffer: &Coffer, tree: &[Member], names: &[Name]) -> Reply
    requires small { length coffers.now < 2 ^ 63 }
    requires small_tree { length tree.now < 2 ^ 63 }
    requires inside { model.lies_in names.now coffer.now.path ≡ true }
    ensures { result ≡ spec.state_of coffers.now coffer.now tree.now (model.within coffer.now names.now) (spec.walk tree.now [] (model.within coffer.now names.now)) }
{
    let Perm { uid, gid, mode } = coffer.perm;
    let inner = coffer.within(names);
    match walk(tree, inner) {
        WalkEnd::Reaches(Node::Directory) => {
            let count = count_children(tree, inner) + coffers_under(coffers, names);
            Reply::Info(Kind::Dir, count as u64, uid, gid, mode)
        }
        WalkEnd::Reaches(Node::File(bytes)) => {
            Reply::Info(Kind::File, bytes.len() as u64, uid, gid, mode)
        }
        WalkEnd::MissesName => Reply::NotFound,
        WalkEnd::MeetsFile => Reply::NotDir,
    }
}

/// Why nothing can be made under these names, if so.
fn obstacle(coffers: &[Coffer], coffer: &Coffer, tree: &[Member], names: &[Name]) -> Option<Reply>
    ensures reply { (perm : ThePerm) (node : TheNode)
        → spec.make coffers.now coffer.now tree.now names.now perm node (spec.walk tree.now [] (model.within coffer.now (model.parent names.now)))
        ≡ unless_told coffers.now result (spec.made coffers.now coffer.now tree.now names.now perm node) }
    ensures free { IfNone result (model.is_coffer coffers.now names.now ≡ false) }
{
    match walk(tree, coffer.within(parent(names))) {
        WalkEnd::Reaches(Node::Directory) => {
            let stands = node_at(tree, coffer.within(names)).is_some() || is_coffer(coffers, names);
            stands.then_some(Reply::Exists)
        }
        WalkEnd::Reaches(Node::File(_)) | WalkEnd::MeetsFile => Some(Reply::NotDir),
        WalkEnd::MissesName => Some(Reply::NotFound),
    }
}
