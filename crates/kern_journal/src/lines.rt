// The lines that a list of pairs is flushed by.
ghost use Rattle.std.specs.Prelude.{◌≡◌, ◌<◌, IfOk, OnOk};
ghost use Rattle.kern_model.specs.Inner.{line_of, with_line, lines_of, IsAscending};

use pm_words::LINE_BYTES;
use std::alloc::{AllocError, Global};

/// The lines that the pairs' addresses are in, each once, in order of address.
pub fn lines_of(alloc: Global, pairs: &[(u64, u64)]) -> Result<Vec<u64>, AllocError>
    ensures { IfOk result (λ lines. lines.items ≡ lines_of pairs.now) }
{
    let mut lines = Vec::new(alloc);
    for &(addr, _) in pairs {
        add_line(&mut lines, line_of(addr))?;
    }
    Ok(lines)
}

// The address of the line that an address is in.
fn line_of(addr: u64) -> u64
    ensures { result ≡ line_of addr }
{
    addr / LINE_BYTES * LINE_BYTES
}

// Puts a line in its place among lines in order, where it isn't there.
fn add_line(lines: &mut Vec<u64>, line: u64) -> Result<(), AllocError>
    requires { IsAscending lines.old.items }
    ensures { OnOk result (lines.new.items ≡ with_line line lines.old.items) }
{
    match lines.binary_search(&line) {
        Ok(_place) => {}
        Err(place) => lines.insert(place, line)?,
    }
    Ok(())
}
