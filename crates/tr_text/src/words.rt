// The words that texts are made of: numbers, names, modes, rights and the like.
ghost use Rattle.std.specs.Prelude.{◌≡◌, ◌+◌, ◌%◌, ◌<◌, ◌++◌, [], ◌∷◌, OnOk, flat_map, codes, length, take};
ghost use Rattle.std.specs.Fmt.{decimal};
ghost use Rattle.tr_text.specs.Spelling as spelling;
ghost use Rattle.tr_text.specs.Spelling.{mode_text, process_name, thread_name};
ghost use Rattle.tr_text.specs.Text.{then_number, then_text, then_words};

use itoa::write_digits;
use pm_words::NoMemory;
use tr_types::{CofferState, FaultKind, Kind, Mark, Name, Right, Why};

/// The most digits of a number of 64 bits.
const MOST_DIGITS: usize = 20;

/// Appends a word and then each number after a space.
pub(crate) fn append_numbers(
    text: &mut Vec<u8>,
    word: &[u8],
    numbers: &[u64],
) -> Result<(), NoMemory>
    ensures ok { OnOk result (text.new.items ≡ text.old.items ++ word.now ++ flat_map then_number numbers.now) }
    ensures kept { take (length text.old.items) text.new.items ≡ text.old.items }
{
    text.extend_from_slice(word)?;
    for &number in numbers {
        append_number(text, number)?;
    }
    Ok(())
}

/// Appends a space and a number.
pub(crate) fn append_number(text: &mut Vec<u8>, number: u64) -> Result<(), NoMemory>
    ensures ok { OnOk result (text.new.items ≡ text.old.items ++ then_number number) }
    ensures kept { take (length text.old.items) text.new.items ≡ text.old.items }
{
    append_behind(text, b' ', number)
}

/// Appends a byte and a number, in one piece.
fn append_behind(text: &mut Vec<u8>, byte: u8, number: u64) -> Result<(), NoMemory>
    ensures ok { OnOk result (text.new.items ≡ text.old.items ++ byte ∷ decimal number) }
    ensures kept { take (length text.old.items) text.new.items ≡ text.old.items }
{
    if number < 10 {
        return text.extend_from_slice(&[byte, b'0' + number as u8]);
    }
    let mut digits = [0; MOST_DIGITS + 1];
    let start = write_digits(number, &mut digits, MOST_DIGITS + 1);
    digits[start - 1] = byte;
    text.extend_from_slice(&digits[start - 1..])
}

/// Appends the name of a thread: threads are numbered from 0, and named from `t1` on.
pub(crate) fn append_thread(text: &mut Vec<u8>, thread: u16) -> Result<(), NoMemory>
    ensures ok { OnOk result (text.new.items ≡ text.old.items ++ thread_name thread) }
    ensures kept { take (length text.old.items) text.new.items ≡ text.old.items }
{
    append_behind(text, b't', u64::from(thread) + 1)
}

/// Appends the name of a process: processes are numbered from 0, and named from `p1` on.
pub(crate) fn append_process(text: &mut Vec<u8>, process: u8) -> Result<(), NoMemory>
    ensures ok { OnOk result (text.new.items ≡ text.old.items ++ process_name process) }
    ensures kept { take (length text.old.items) text.new.items ≡ text.old.items }
{
    append_behind(text, b'p', u64::from(process) + 1)
}

/// Appends a space and a word.
pub(crate) fn append_word(text: &mut Vec<u8>, word: &[u8]) -> Result<(), NoMemory>
    ensures ok { OnOk result (text.new.items ≡ text.old.items ++ then_text word.now) }
    ensures kept { take (length text.old.items) text.new.items ≡ text.old.items }
{
    text.push(b' ')?;
    text.extend_from_slice(word)
}

/// Appends each name after a space.
pub(crate) fn append_names(text: &mut Vec<u8>, names: &[Name]) -> Result<(), NoMemory>
    ensures ok { OnOk result (text.new.items ≡ text.old.items ++ then_words names.now) }
    ensures kept { take (length text.old.items) text.new.items ≡ text.old.items }
{
    for name in names {
        append_word(text, name.as_bytes())?;
    }
    Ok(())
}

/// Appends a space and numbers with commas between them.
pub(crate) fn append_list(text: &mut Vec<u8>, numbers: &[u32]) -> Result<(), NoMemory>
    ensures ok { OnOk result (text.new.items ≡ text.old.items ++ then_text (spelling.list_text numbers.now)) }
    ensures kept { take (length text.old.items) text.new.items ≡ text.old.items }
{
    match numbers {
        [] => text.extend_from_slice(b" "),
        [first, rest @ ..] => append_some(text, *first, rest),
    }
}

/// Appends a number after a space, and each of the rest after a comma.
fn append_some(text: &mut Vec<u8>, first: u32, rest: &[u32]) -> Result<(), NoMemory>
    ensures ok { OnOk result (text.new.items ≡ text.old.items ++ then_text (spelling.list_text (first ∷ rest.now))) }
    ensures kept { take (length text.old.items) text.new.items ≡ text.old.items }
{
    append_number(text, u64::from(first))?;
    append_more(text, rest)
}

/// Appends each number after a comma.
fn append_more(text: &mut Vec<u8>, numbers: &[u32]) -> Result<(), NoMemory>
    ensures ok { OnOk result (text.new.items ≡ text.old.items ++ flat_map (λ n. 44 ∷ decimal n) numbers.now) }
    ensures kept { take (length text.old.items) text.new.items ≡ text.old.items }
{
    for &number in numbers {
        append_behind(text, b',', u64::from(number))?;
    }
    Ok(())
}

/// Appends a space and the three octal digits of a mode.
pub(crate) fn append_mode(text: &mut Vec<u8>, mode: u16) -> Result<(), NoMemory>
    ensures ok { OnOk result (text.new.items ≡ text.old.items ++ then_text (mode_text mode)) }
    ensures kept { take (length text.old.items) text.new.items ≡ text.old.items }
{
    text.extend_from_slice(&[
        b' ',
        octal_digit(mode / 64),
        octal_digit(mode / 8),
        octal_digit(mode),
    ])
}

/// The last octal digit of a number.
fn octal_digit(number: u16) -> u8
    ensures { result ≡ 48 + number % 8 }
{
    b'0' + (number % 8) as u8
}

/// Appends a space and the bytes of a file in hexadecimal, `-` for none.
pub(crate) fn append_data(text: &mut Vec<u8>, bytes: &[u8]) -> Result<(), NoMemory>
    ensures ok { OnOk result (text.new.items ≡ text.old.items ++ then_text (spelling.data_text bytes.now)) }
    ensures kept { take (length text.old.items) text.new.items ≡ text.old.items }
{
    if bytes.is_empty() {
        return text.extend_from_slice(b" -");
    }
    text.push(b' ')?;
    text.reserve(2 * bytes.len())?;
    for &byte in bytes {
        text.extend_from_slice(&[hex_digit(byte >> 4), hex_digit(byte & 15)])?;
    }
    Ok(())
}

fn hex_digit(digit: u8) -> u8
    requires { digit < 16 }
    ensures { result ≡ spelling.hex_digit digit }
{
    if digit < 10 {
        b'0' + digit
    } else {
        b'a' + (digit - 10)
    }
}

/// A space and 1 for yes, 0 for no.
pub(crate) fn bit_word<'a>(bit: bool) -> &'a [u8]
    ensures { result.now ≡ then_text (spelling.bit_text bit) }
{
    if bit { b" 1" } else { b" 0" }
}

/// A space and how a coffer is held.
pub(crate) fn share_word<'a>(exclusive: bool) -> &'a [u8]
    ensures { result.now ≡ then_text (spelling.share_text exclusive) }
{
    if exclusive { b" exclusive" } else { b" shared" }
}

/// A space and a right.
pub(crate) fn right_word<'a>(right: Right) -> &'a [u8]
    ensures { result.now ≡ then_text (spelling.right_text right) }
{
    if right == Right::READ {
        b" read"
    } else if right == Right::WRITE {
        b" write"
    } else {
        b" own"
    }
}

/// A space and what stands at a path.
pub(crate) fn kind_word<'a>(kind: Kind) -> &'a [u8]
    ensures { result.now ≡ then_text (spelling.kind_text kind) }
{
    match kind {
        Kind::File => b" file",
        Kind::Dir => b" dir",
    }
}

/// A fault, after a space.
pub(crate) fn fault_words<'a>(kind: FaultKind) -> &'a [u8]
    ensures { result.now ≡ then_words (codes "fault" ∷ spelling.fault_text kind ∷ []) }
{
    match kind {
        FaultKind::NotMapped => b" fault unmapped",
        FaultKind::NotWritable => b" fault readonly",
        FaultKind::KeyDenied => b" fault key",
    }
}

/// A space and what an action is for.
pub(crate) fn mark_word<'a>(mark: Mark) -> &'a [u8]
    ensures { result.now ≡ then_text (spelling.mark_text mark) }
{
    match mark {
        Mark::Plain => b" plain",
        Mark::Open => b" open",
        Mark::Close => b" close",
        Mark::Take => b" take",
        Mark::Note => b" note",
        Mark::Check => b" check",
        Mark::Point => b" point",
        Mark::Commit => b" commit",
    }
}

/// A space and why a line was passed over.
pub(crate) fn why_word<'a>(why: Why) -> &'a [u8]
    ensures { result.now ≡ then_text (spelling.why_text why) }
{
    match why {
        Why::Dead => b" dead",
        Why::Running => b" running",
        Why::Sound => b" sound",
        Why::Down => b" down",
        Why::Up => b" up",
        Why::NotKernel => b" notkernel",
        Why::NoThread => b" nothread",
    }
}

/// A space and how a coffer stands.
pub(crate) fn state_word<'a>(state: CofferState) -> &'a [u8]
    ensures { result.now ≡ then_text (spelling.state_text state) }
{
    match state {
        CofferState::Ready => b" ready",
        CofferState::Lost => b" lost",
        CofferState::Quarantined => b" quarantined",
    }
}
