// Tables of lines, each over an image of its own.
use crate::entries::wrong_entries;
use crate::image::image_with;
use crate::{RowFault, Stand};
use pm_words::Words;
use std::alloc::Global;

/// Words that are stored in an image, by their byte addresses, and lines that are asked over it.
#[derive(Clone, Copy)]
pub struct Table<'a> {
    pub stored: &'a [(u64, u64)],
    pub lines: &'a str,
}

/// The lines of these tables that have another outcome, asked at a tick of a kernel over a new image with
/// the words `below`, and then those of the table.
pub fn wrong_calls_in(
    alloc: Global,
    below: &[(u64, u64)],
    tick: u32,
    tables: &[Table],
) -> Result<String, RowFault> {
    let mut wrong = String::new(alloc);
    for &Table { stored, lines } in tables {
        add_wrong_calls(alloc, &mut wrong, below, stored, tick, lines)?;
    }
    Ok(wrong)
}

fn add_wrong_calls(
    alloc: Global,
    wrong: &mut String,
    below: &[(u64, u64)],
    stored: &[(u64, u64)],
    tick: u32,
    lines: &str,
) -> Result<(), RowFault> {
    let words = image_with(alloc, below, stored)?;
    let lines = wrong_calls(alloc, &words, tick, lines)?;
    wrong.push_str(&lines)?;
    Ok(())
}

fn wrong_calls(alloc: Global, words: &Words, tick: u32, lines: &str) -> Result<String, RowFault> {
    let mut stand = Stand::over(alloc, words, tick)?;
    stand.wrong_lines(lines)
}

/// The same of lines that are asked of the coffers of an image.
pub fn wrong_entries_in(
    alloc: Global,
    below: &[(u64, u64)],
    tables: &[Table],
) -> Result<String, RowFault> {
    let mut wrong = String::new(alloc);
    for &Table { stored, lines } in tables {
        add_wrong_entries(alloc, &mut wrong, below, stored, lines)?;
    }
    Ok(wrong)
}

fn add_wrong_entries(
    alloc: Global,
    wrong: &mut String,
    below: &[(u64, u64)],
    stored: &[(u64, u64)],
    lines: &str,
) -> Result<(), RowFault> {
    let words = image_with(alloc, below, stored)?;
    let lines = wrong_entries(alloc, &words, lines)?;
    wrong.push_str(&lines)?;
    Ok(())
}
