// What one word of a line writes.
ghost use Rattle.std.specs.Prelude.{◌≡◌, ◌≤◌, ◌<◌, length, IfOk, true};
ghost use Rattle.kern_model.specs.KernelCalls.{IsOneRight};
ghost use Rattle.kern_model.specs.KernelTables as tables;
ghost use Rattle.tr_types.specs.Paths as paths;

use crate::LineFault;
use kern_view::is_path_text;
use std::alloc::Global;
use std::str::FromStr;
use tr_types::{Pages, Path, Right};

/// The bits that a mode may have.
const MODE_BITS: u16 = 0o666;

/// The path of a text.
pub fn path(alloc: Global, text: &[u8]) -> Result<Path, LineFault>
    ensures { IfOk result (λ path. paths.is_path_text path ≡ true) }
{
    if !is_path_text(text) {
        return Err(LineFault::NoPath);
    }
    Ok(Path::new(Vec::from_slice(alloc, text)?))
}

/// The number that a word writes in decimal.
pub fn number<T: FromStr>(word: &str) -> Result<T, LineFault>
where
    T::Err: Drop,
{
    word.parse().ok().ok_or(LineFault::NoLine)
}

pub fn kind_of(word: &str) -> Result<u8, LineFault>
    ensures { IfOk result (λ kind. kind ≤ 1) }
{
    match word {
        "dir" => Ok(0),
        "file" => Ok(1),
        _ => Err(LineFault::NoLine),
    }
}

pub fn octal_mode(word: &str) -> Result<u16, LineFault>
    ensures { IfOk result (λ mode. tables.is_mode mode ≡ true) }
{
    match u16::from_str_radix(word, 8) {
        Ok(mode) if mode & MODE_BITS == mode => Ok(mode),
        _ => Err(LineFault::NoLine),
    }
}

pub fn right_of(word: &str) -> Result<Right, LineFault>
    ensures { IfOk result IsOneRight }
{
    match word {
        "read" => Ok(Right::READ),
        "write" => Ok(Right::WRITE),
        "own" => Ok(Right::OWN),
        _ => Err(LineFault::NoLine),
    }
}

pub fn is_exclusive(word: &str) -> Result<bool, LineFault> {
    match word {
        "shared" => Ok(false),
        "alone" => Ok(true),
        _ => Err(LineFault::NoLine),
    }
}

pub fn is_ready(word: &str) -> Result<bool, LineFault> {
    match word {
        "ready" => Ok(true),
        "quarantined" => Ok(false),
        _ => Err(LineFault::NoLine),
    }
}

pub fn link_of(word: &str) -> Result<(u64, u64, u64), LineFault> {
    let (addr, words) = word.split_once(':').ok_or(LineFault::NoLine)?;
    let (old, new) = words.split_once(':').ok_or(LineFault::NoLine)?;
    Ok((number(addr)?, number(old)?, number(new)?))
}

pub fn guard_of(word: &str) -> Result<(u64, u64), LineFault> {
    let (addr, found) = word.split_once(':').ok_or(LineFault::NoLine)?;
    Ok((number(addr)?, number(found)?))
}

// At least one page.
pub fn pages_of(alloc: Global, word: &str) -> Result<Pages, LineFault>
    ensures { IfOk result (λ pages. 0 < length pages) }
{
    let mut pages = Pages::new(alloc);
    for page in word.split(',') {
        pages.push(number(page)?)?;
    }
    if pages.is_empty() {
        return Err(LineFault::NoLine);
    }
    Ok(pages)
}
