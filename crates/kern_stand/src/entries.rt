// What an image says of its coffers, asked line by line.
ghost use Rattle.kern_model.specs.KernelRules.{IsSoundKernel};

use crate::RowFault;
use kern_lines::{number, path};
use kern_roots::{RootsFault, children, entry_of, find, path_of};
use pm_words::{NoMemory, Words};
use std::alloc::{AllocError, Global};
use std::fmt::Write;

/// The lines of a table, each ASKED -> OUTCOME, that have another outcome, with that one. What is asked is
/// `find PATH`, or the `entry`, `path` or `children` of a coffer by its number.
pub fn wrong_entries(alloc: Global, words: &Words, table: &str) -> Result<String, RowFault>
    requires { IsSoundKernel words.now }
{
    let mut wrong = String::new(alloc);
    for line in table.lines() {
        check_line(alloc, words, line, &mut wrong)?;
    }
    Ok(wrong)
}

fn check_line(alloc: Global, words: &Words, line: &str, wrong: &mut String) -> Result<(), RowFault>
    requires { IsSoundKernel words.now }
{
    let (asked, want) = line.split_once(" -> ").ok_or(RowFault::NoLine)?;
    let outcome = outcome(alloc, words, asked)?;
    if outcome.as_str() != want {
        writeln!(wrong, "{asked} -> {outcome}")?;
    }
    Ok(())
}

fn outcome(alloc: Global, words: &Words, asked: &str) -> Result<String, RowFault>
    requires { IsSoundKernel words.now }
{
    let (what, of) = asked.split_once(' ').ok_or(RowFault::NoLine)?;
    match what {
        "find" => found(alloc, words, of),
        "entry" => Ok(entry(alloc, words, number(of)?)?),
        "path" => Ok(path_text(alloc, words, number(of)?)?),
        "children" => Ok(child_list(alloc, words, number(of)?)?),
        _ => Err(RowFault::NoLine),
    }
}

fn found(alloc: Global, words: &Words, text: &str) -> Result<String, RowFault>
    requires { IsSoundKernel words.now }
{
    let found = find(words, &path(alloc, text.as_bytes())?);
    Ok(format!(in alloc; "{found:?}")?)
}

fn entry(alloc: Global, words: &Words, id: u16) -> Result<String, NoMemory>
    requires { IsSoundKernel words.now }
{
    match entry_of(words, id) {
        Some(root) => format!(in alloc; "{root:?}"),
        None => String::from_str(alloc, "None"),
    }
}

fn path_text(alloc: Global, words: &Words, id: u16) -> Result<String, NoMemory>
    requires { IsSoundKernel words.now }
{
    match path_of(alloc, words, id) {
        Ok(path) => text_of(alloc, path.as_bytes()),
        Err(fault) => fault_text(alloc, fault),
    }
}

fn child_list(alloc: Global, words: &Words, id: u16) -> Result<String, NoMemory>
    requires { IsSoundKernel words.now }
{
    match children(alloc, words, id) {
        Ok(ids) => format!(in alloc; "{:?}", ids.as_slice()),
        Err(fault) => fault_text(alloc, fault),
    }
}

// A path's bytes as letters.
fn text_of(alloc: Global, path: &[u8]) -> Result<String, NoMemory> {
    let mut text = String::new(alloc);
    for &byte in path {
        text.push(char::from(byte))?;
    }
    Ok(text)
}

fn fault_text(alloc: Global, fault: RootsFault) -> Result<String, NoMemory> {
    match fault {
        RootsFault::NoMemory => Err(AllocError),
        _ => format!(in alloc; "{fault:?}"),
    }
}
