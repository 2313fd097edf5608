// Reads a kernel call from a line: `new PARENT PATH KIND MODE LINK GUARD`, with the mode in
// octal, a link as ADDRESS:OLD:NEW, a guard as ADDRESS:WORD and pages as numbers with commas between.
ghost use Rattle.std.specs.Prelude.{IfOk};
ghost use Rattle.kern_model.specs.KernelCalls.{IsCall};

use crate::LineFault;
use crate::fields::{
    guard_of, is_exclusive, is_ready, kind_of, link_of, number, octal_mode, pages_of, path,
    right_of,
};
use std::alloc::{AllocError, Global};
use tr_types::Kcall;

/// The call that a line writes.
pub fn call_of(alloc: Global, line: &str) -> Result<Kcall, LineFault>
    ensures { IfOk result IsCall }
{
    let (name, fields) = line.split_once(' ').ok_or(LineFault::NoLine)?;
    let fields = words_of(alloc, fields)?;
    call_named(alloc, name, &fields)
}

fn words_of<'a>(alloc: Global, line: &'a str) -> Result<Vec<&'a str>, AllocError> {
    line.split_whitespace().collect(alloc)
}

fn call_named(alloc: Global, name: &str, fields: &[&str]) -> Result<Kcall, LineFault>
    ensures { IfOk result IsCall }
{
    match name {
        "find" => find_of(alloc, fields),
        "map" => map_of(alloc, fields),
        "unmap" => unmap_of(fields),
        "new" => new_of(alloc, fields),
        "delete" => delete_of(fields),
        "enlarge" => enlarge_of(fields),
        "shrink" => shrink_of(alloc, fields),
        "split" => split_of(alloc, fields),
        "merge" => merge_of(alloc, fields),
        "mode" => mode_of(fields),
        "recover" => recover_of(fields),
        _ => Err(LineFault::NoLine),
    }
}

fn find_of(alloc: Global, paths: &[&str]) -> Result<Kcall, LineFault>
    ensures { IfOk result IsCall }
{
    match paths {
        [first] => Ok(Kcall::Find {
            path: path(alloc, first.as_bytes())?,
            also: None,
        }),
        [first, second] => {
            let first = path(alloc, first.as_bytes())?;
            Ok(Kcall::Find {
                path: first,
                also: Some(path(alloc, second.as_bytes())?),
            })
        }
        _ => Err(LineFault::NoLine),
    }
}

fn map_of(alloc: Global, fields: &[&str]) -> Result<Kcall, LineFault>
    ensures { IfOk result IsCall }
{
    let [at, right, sharing] = fields else {
        return Err(LineFault::NoLine);
    };
    let right = right_of(right)?;
    let exclusive = is_exclusive(sharing)?;
    Ok(Kcall::Map {
        path: path(alloc, at.as_bytes())?,
        right,
        exclusive,
    })
}

fn new_of(alloc: Global, fields: &[&str]) -> Result<Kcall, LineFault>
    ensures { IfOk result IsCall }
{
    let [parent, at, kind, mode, link, guard] = fields else {
        return Err(LineFault::NoLine);
    };
    let parent = number(parent)?;
    let kind = kind_of(kind)?;
    let mode = octal_mode(mode)?;
    let link = link_of(link)?;
    let guard = guard_of(guard)?;
    Ok(Kcall::New {
        parent,
        path: path(alloc, at.as_bytes())?,
        kind,
        mode,
        link,
        guard,
    })
}

fn delete_of(fields: &[&str]) -> Result<Kcall, LineFault>
    ensures { IfOk result IsCall }
{
    let [id, parent, link, guard] = fields else {
        return Err(LineFault::NoLine);
    };
    Ok(Kcall::Delete {
        id: number(id)?,
        parent: number(parent)?,
        link: link_of(link)?,
        guard: guard_of(guard)?,
    })
}

fn unmap_of(fields: &[&str]) -> Result<Kcall, LineFault>
    ensures { IfOk result IsCall }
{
    let [id] = fields else {
        return Err(LineFault::NoLine);
    };
    Ok(Kcall::Unmap { id: number(id)? })
}

fn enlarge_of(fields: &[&str]) -> Result<Kcall, LineFault>
    ensures { IfOk result IsCall }
{
    let [id, count] = fields else {
        return Err(LineFault::NoLine);
    };
    Ok(Kcall::Enlarge {
        id: number(id)?,
        count: number(count)?,
    })
}

fn shrink_of(alloc: Global, fields: &[&str]) -> Result<Kcall, LineFault>
    ensures { IfOk result IsCall }
{
    let [id, pages, guard] = fields else {
        return Err(LineFault::NoLine);
    };
    let id = number(id)?;
    let guard = guard_of(guard)?;
    Ok(Kcall::Shrink {
        id,
        pages: pages_of(alloc, pages)?,
        guard,
    })
}

fn split_of(alloc: Global, fields: &[&str]) -> Result<Kcall, LineFault>
    ensures { IfOk result IsCall }
{
    let [id, at, pages, mode, link, guard] = fields else {
        return Err(LineFault::NoLine);
    };
    let id = number(id)?;
    let mode = octal_mode(mode)?;
    let link = link_of(link)?;
    let guard = guard_of(guard)?;
    let pages = pages_of(alloc, pages)?;
    Ok(Kcall::Split {
        id,
        path: path(alloc, at.as_bytes())?,
        pages,
        mode,
        link,
        guard,
    })
}

fn merge_of(alloc: Global, fields: &[&str]) -> Result<Kcall, LineFault>
    ensures { IfOk result IsCall }
{
    let [child, parent, pages, link, guard] = fields else {
        return Err(LineFault::NoLine);
    };
    let child = number(child)?;
    let parent = number(parent)?;
    let link = link_of(link)?;
    let guard = guard_of(guard)?;
    Ok(Kcall::Merge {
        child,
        parent,
        pages: pages_of(alloc, pages)?,
        link,
        guard,
    })
}

fn mode_of(fields: &[&str]) -> Result<Kcall, LineFault>
    ensures { IfOk result IsCall }
{
    let [id, mode] = fields else {
        return Err(LineFault::NoLine);
    };
    Ok(Kcall::Mode {
        id: number(id)?,
        mode: octal_mode(mode)?,
    })
}

fn recover_of(fields: &[&str]) -> Result<Kcall, LineFault>
    ensures { IfOk result IsCall }
{
    let [id, state] = fields else {
        return Err(LineFault::NoLine);
    };
    Ok(Kcall::Recover {
        id: number(id)?,
        ready: is_ready(state)?,
    })
}
