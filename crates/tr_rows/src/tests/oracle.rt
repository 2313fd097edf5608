// A plain reader of scripts, which shares nothing with the program's.
use pm_words::NoMemory;
use std::alloc::Global;

/// What the lines above have declared: whether there are any, the words that name processes and threads, and the word
/// of the thread whose call no `finish` line has ended.
#[derive(Drop)]
struct Above<'a> {
    begun: bool,
    names: Vec<&'a [u8]>,
    calling: Option<&'a [u8]>,
}

impl<'a> Above<'a> {
    fn nothing(alloc: Global) -> Above<'a> {
        Above {
            begun: false,
            names: Vec::new(alloc),
            calling: None,
        }
    }

    fn declares(&self, name: &[u8]) -> bool {
        self.names.iter().any(|other| *other == name)
    }

    fn has_process(&self, name: &[u8]) -> bool {
        name.starts_with(b"p") && self.declares(name)
    }

    fn has_thread(&self, name: &[u8]) -> bool {
        name.starts_with(b"t") && self.declares(name)
    }

    /// Whether the last of these words, the first ones of a line, may stand behind those before it.
    fn may_stand(&self, words: &[&[u8]]) -> bool {
        match words {
            [b"mkfs", rest @ ..] => self.may_make(rest),
            [b"process", rest @ ..] => self.begun && self.may_start_process(rest),
            [b"thread", rest @ ..] => self.begun && self.may_start_thread(rest),
            [b"call" | b"do", rest @ ..] => {
                self.begun && self.calling.is_none() && self.may_call(rest)
            }
            [b"finish" | b"open", rest @ ..] => self.begun && self.may_turn(rest),
            [b"stray", rest @ ..] => self.begun && self.may_stray(rest),
            _ => false,
        }
    }

    fn may_make(&self, words: &[&[u8]]) -> bool {
        match words {
            [] => !self.begun,
            [pages] => number(pages).is_some_and(|pages| (64..=16_384).contains(&pages)),
            _ => false,
        }
    }

    fn may_start_process(&self, words: &[&[u8]]) -> bool {
        match words {
            [] => true,
            [name] => is_numbered(b'p', 64, name) && !self.declares(name),
            [_, zero] | [_, _, zero] => *zero == b"0".as_slice(),
            _ => false,
        }
    }

    fn may_start_thread(&self, words: &[&[u8]]) -> bool {
        match words {
            [] => true,
            [name] => is_numbered(b't', 256, name) && !self.declares(name),
            [_, process] => self.has_process(process),
            _ => false,
        }
    }

    fn may_call(&self, words: &[&[u8]]) -> bool {
        match words {
            [] => true,
            [thread] => self.has_thread(thread),
            [_, b"create" | b"stat"] => true,
            [_, b"create", path] => is_path_of_one(path),
            [_, b"create", _, mode] => *mode == b"666".as_slice(),
            [_, b"stat", path] => *path == b"/".as_slice() || is_path_of_one(path),
            _ => false,
        }
    }

    fn may_turn(&self, words: &[&[u8]]) -> bool {
        match words {
            [] => true,
            [thread] => self.has_thread(thread),
            _ => false,
        }
    }

    fn may_stray(&self, words: &[&[u8]]) -> bool {
        match words {
            [] => true,
            [thread] => self.has_thread(thread) && self.calling != Some(*thread),
            [_, addr] => number(addr).is_some_and(is_address),
            [_, _, word] => number(word).is_some(),
            _ => false,
        }
    }

    /// Adds what a line of these words declares.
    fn add(&mut self, words: &[&'a [u8]]) -> Result<(), NoMemory> {
        self.begun = true;
        match words {
            [b"process" | b"thread", name, ..] => self.names.push(*name)?,
            [b"call", thread, ..] => self.calling = Some(*thread),
            [b"finish", thread] if self.calling == Some(*thread) => self.calling = None,
            _ => {}
        }
        Ok(())
    }
}

/// Whether a line may end behind these words.
fn is_whole(words: &[&[u8]]) -> bool {
    matches!(
        words,
        [b"mkfs", _]
            | [b"process", _, _, _]
            | [b"thread", _, _]
            | [b"call" | b"do", _, b"create", _, _]
            | [b"call" | b"do", _, b"stat", _]
            | [b"finish" | b"open", _]
            | [b"stray", _, _, _]
    )
}

/// Whether it is that of a word of the greatest image.
fn is_address(addr: u64) -> bool {
    addr % 8 == 0 && addr <= 67_108_856
}

/// The number that the word writes in decimal, with no leading zero.
fn number(word: &[u8]) -> Option<u64> {
    if word.is_empty() || (word.len() > 1 && word.starts_with(b"0")) {
        return None;
    }
    let mut number = 0u64;
    for digit in word {
        if !digit.is_ascii_digit() {
            return None;
        }
        number = number
            .checked_mul(10)?
            .checked_add(u64::from(digit - b'0'))?;
    }
    Some(number)
}

/// Whether the word is the letter and a number from 1 to `most`.
fn is_numbered(letter: u8, most: u64, word: &[u8]) -> bool {
    match word {
        [first, digits @ ..] if *first == letter => {
            number(digits).is_some_and(|number| 1 <= number && number <= most)
        }
        _ => false,
    }
}

/// Whether the word is `/` and a name.
fn is_path_of_one(word: &[u8]) -> bool {
    match word {
        b"/" | b"/." | b"/.." => false,
        [b'/', name @ ..] => {
            name.len() <= 255
                && name
                    .iter()
                    .all(|byte| *byte > 32 && *byte < 127 && *byte != b'/')
        }
        _ => false,
    }
}

/// What stands between the bytes `mark`.
fn split<'a>(alloc: Global, bytes: &'a [u8], mark: u8) -> Result<Vec<&'a [u8]>, NoMemory> {
    let mut pieces = Vec::new(alloc);
    let mut start = 0;
    for (at, byte) in bytes.iter().enumerate() {
        if *byte == mark {
            pieces.push(&bytes[start..at])?;
            start = at + 1;
        }
    }
    pieces.push(&bytes[start..])?;
    Ok(pieces)
}

/// The byte column, from 1, of the first word of a line that can't stand, or of the line's end where a word is missing.
fn bad_column(above: &Above, words: &[&[u8]]) -> Option<usize> {
    let mut column = 1usize;
    for (at, word) in words.iter().enumerate() {
        if !above.may_stand(&words[..=at]) {
            return Some(column);
        }
        column = column.saturating_add(word.len()).saturating_add(1);
    }
    if is_whole(words) {
        None
    } else {
        Some(column.saturating_sub(1))
    }
}

/// The line and byte column, from 1, of the first bad place of a text. None where it is a script.
pub fn bad_place(alloc: Global, text: &[u8]) -> Result<Option<(usize, usize)>, NoMemory> {
    let lines = split(alloc, text, b'\n')?;
    let mut above = Above::nothing(alloc);
    for (i, line) in lines.iter().enumerate() {
        if line.is_empty() || line.starts_with(b"#") {
            continue;
        }
        let words = split(alloc, line, b' ')?;
        if let Some(column) = bad_column(&above, &words) {
            return Ok(Some((i + 1, column)));
        }
        above.add(&words)?;
    }
    if above.begun {
        return Ok(None);
    }
    // behind the last line, which a line feed ends or the text's end
    let whole = text.is_empty() || text.ends_with(b"\n");
    let behind = if whole { lines.len() } else { lines.len() + 1 };
    Ok(Some((behind, 1)))
}
