// Takes one word at a kind of place of a line.
ghost use Rattle.std.specs.Prelude.{◌≡◌, ◌≢◌, ℕ, ◌<◌, ◌≤◌, List, ◌∷◌, IfOk, IfSome, IfNone, OnOk, Contains, Some, codes};
ghost use Rattle.std.specs.Fmt.{decimal};
ghost use Rattle.zo_model.specs.Commands.{IsPath, IsPathOfOne};
ghost use Rattle.tr_script.specs.Grammar.{Declared, nothing_declared, IsThreadOf, IsScriptAddress};
ghost use Rattle.tr_text.specs.Spelling.{process_name, thread_name, mode_text};
ghost use Rattle.tr_script.specs.Places.{FirstWord, Size, NewProcess, Zero, NewThread, KnownProcess, KnownThread, StrayThread, CommandWord, FilePath, AnyPath, FileMode, Address, Number, MayBe, MayBegin};
ghost use Rattle.tr_script.specs.Reading.{OnBad, Takes, IsBadWord, first_text, may_begin, name_text};

use super::place::Fault;
use super::seen::Seen;
use super::spelling::{address_word, is_path, is_path_of_one, number_word, size_word};
use super::words::Words;

/// The mode that a new file has for now, and how it is written.
const FILE_MODE: u16 = 0o666;

const FILE_MODE_TEXT: &[u8] = b"666";

/// The first word of a line.
#[derive(Clone, Copy)]
pub enum First {
    Mkfs,
    Process,
    Thread,
    Call,
    Do,
    Finish,
    Open,
    Stray,
}

/// The first word of a command.
#[derive(Clone, Copy)]
pub enum Name {
    Create,
    Stat,
}

fn first_of(word: &[u8]) -> Option<First>
    ensures some { IfSome result (λ first. word.now ≡ first_text first) }
    ensures none { IfNone result ((first : First) → word.now ≢ first_text first) }
{
    match word {
        b"mkfs" => Some(First::Mkfs),
        b"process" => Some(First::Process),
        b"thread" => Some(First::Thread),
        b"call" => Some(First::Call),
        b"do" => Some(First::Do),
        b"finish" => Some(First::Finish),
        b"open" => Some(First::Open),
        b"stray" => Some(First::Stray),
        _ => None,
    }
}

/// Whether a line may begin so.
fn may_begin(seen: &Seen, first: First) -> bool
    ensures { result ≡ may_begin seen.now first }
{
    match first {
        First::Mkfs => !seen.begun(),
        First::Call | First::Do => seen.begun() && seen.calling().is_none(),
        _ => seen.begun(),
    }
}

/// The first word of a line that the word is, where a line may begin so.
fn opening_word(seen: &Seen, word: &[u8]) -> Option<First>
    ensures some { IfSome result (λ first. (word.now ≡ first_text first) × MayBegin seen.now (first_text first)) }
    ensures none { IfNone result (MayBegin seen.now word.now → ⊥) }
{
    match first_of(word)? {
        first if may_begin(seen, first) => Some(first),
        _ => None,
    }
}

fn name_of(word: &[u8]) -> Option<Name>
    ensures some { IfSome result (λ name. word.now ≡ name_text name) }
    ensures none { IfNone result (MayBe nothing_declared CommandWord word.now → ⊥) }
{
    match word {
        b"create" => Some(Name::Create),
        b"stat" => Some(Name::Stat),
        _ => None,
    }
}

/// Takes the first word of a line.
pub fn first_word(seen: &Seen, words: &mut Words) -> Result<First, Fault>
    ensures ok { IfOk result (λ first. Takes words.old (first_text first) words.new × MayBegin seen.now (first_text first)) }
    ensures bad { OnBad result (IsBadWord seen.now FirstWord words.old) }
{
    let word = words.word()?;
    match opening_word(seen, word.bytes) {
        Some(first) => Ok(first),
        None => Err(word.bad()),
    }
}

/// Takes the first word of a command.
pub fn command_name(words: &mut Words) -> Result<Name, Fault>
    ensures ok { IfOk result (λ name. Takes words.old (name_text name) words.new) }
    ensures bad { OnBad result (λ place. (d : Declared) → IsBadWord d CommandWord words.old place) }
{
    let word = words.word()?;
    match name_of(word.bytes) {
        Some(name) => Ok(name),
        None => Err(word.bad()),
    }
}

/// Takes a number of pages.
pub fn size(words: &mut Words) -> Result<u32, Fault>
    ensures ok { IfOk result (λ pages. Takes words.old (decimal pages) words.new × (64 ≤ pages) × (pages ≤ 16384)) }
    ensures bad { OnBad result (λ place. (d : Declared) → IsBadWord d Size words.old place) }
{
    let word = words.word()?;
    match size_word(word.bytes) {
        Some(pages) => Ok(pages),
        None => Err(word.bad()),
    }
}

/// Takes a uid or a gid, which is 0 for now.
pub fn zero(words: &mut Words) -> Result<(), Fault>
    ensures ok { OnOk result (Takes words.old (codes "0") words.new) }
    ensures bad { OnBad result (λ place. (d : Declared) → IsBadWord d Zero words.old place) }
{
    let word = words.word()?;
    if word.bytes != b"0".as_slice() {
        return Err(word.bad());
    }
    Ok(())
}

/// Takes the name of a process that is declared there.
pub fn new_process(seen: &Seen, words: &mut Words) -> Result<u8, Fault>
    ensures ok { IfOk result (λ process. Takes words.old (process_name process) words.new × (process < 64) × (Contains seen.now.processes process → ⊥)) }
    ensures bad { OnBad result (IsBadWord seen.now NewProcess words.old) }
{
    let word = words.word()?;
    match seen.new_process(word.bytes) {
        Some(process) => Ok(process),
        None => Err(word.bad()),
    }
}

/// Takes the name of a thread that is declared there.
pub fn new_thread(seen: &Seen, words: &mut Words) -> Result<u16, Fault>
    ensures ok { IfOk result (λ thread. Takes words.old (thread_name thread) words.new × (thread < 256) × (IsThreadOf seen.now thread → ⊥)) }
    ensures bad { OnBad result (IsBadWord seen.now NewThread words.old) }
{
    let word = words.word()?;
    match seen.new_thread(word.bytes) {
        Some(thread) => Ok(thread),
        None => Err(word.bad()),
    }
}

/// Takes the name of a process that is declared above.
pub fn known_process(seen: &Seen, words: &mut Words) -> Result<u8, Fault>
    ensures ok { IfOk result (λ process. Takes words.old (process_name process) words.new × (process < 64) × Contains seen.now.processes process) }
    ensures bad { OnBad result (IsBadWord seen.now KnownProcess words.old) }
{
    let word = words.word()?;
    match seen.known_process(word.bytes) {
        Some(process) => Ok(process),
        None => Err(word.bad()),
    }
}

/// Takes the name of a thread that is declared above.
pub fn known_thread(seen: &Seen, words: &mut Words) -> Result<u16, Fault>
    ensures ok { IfOk result (λ thread. Takes words.old (thread_name thread) words.new × (thread < 256) × IsThreadOf seen.now thread) }
    ensures bad { OnBad result (IsBadWord seen.now KnownThread words.old) }
{
    let word = words.word()?;
    match seen.known_thread(word.bytes) {
        Some(thread) => Ok(thread),
        None => Err(word.bad()),
    }
}

/// Takes the name of a thread that is declared above and has no call open.
pub fn stray_thread(seen: &Seen, words: &mut Words) -> Result<u16, Fault>
    ensures ok { IfOk result (λ thread. Takes words.old (thread_name thread) words.new × (thread < 256) × IsThreadOf seen.now thread × (seen.now.calling ≢ Some thread)) }
    ensures bad { OnBad result (IsBadWord seen.now StrayThread words.old) }
{
    let word = words.word()?;
    match seen.stray_thread(word.bytes) {
        Some(thread) => Ok(thread),
        None => Err(word.bad()),
    }
}

/// Takes an address in bytes.
pub fn address(words: &mut Words) -> Result<u64, Fault>
    ensures ok { IfOk result (λ addr. Takes words.old (decimal addr) words.new × IsScriptAddress addr) }
    ensures bad { OnBad result (λ place. (d : Declared) → IsBadWord d Address words.old place) }
{
    let word = words.word()?;
    match address_word(word.bytes) {
        Some(addr) => Ok(addr),
        None => Err(word.bad()),
    }
}

/// Takes any number that a word of the memory can hold.
pub fn number(words: &mut Words) -> Result<u64, Fault>
    ensures ok { IfOk result (λ number. Takes words.old (decimal number) words.new × (number ≤ 18446744073709551615)) }
    ensures bad { OnBad result (λ place. (d : Declared) → IsBadWord d Number words.old place) }
{
    let word = words.word()?;
    match number_word(word.bytes) {
        Some(number) => Ok(number),
        None => Err(word.bad()),
    }
}

/// Takes a path of one name.
pub fn file_path<'a>(words: &mut Words<'a>) -> Result<&'a [u8], Fault>
    ensures ok { IfOk result (λ path. Takes words.old path.now words.new × IsPathOfOne path.now) }
    ensures bad { OnBad result (λ place. (d : Declared) → IsBadWord d FilePath words.old place) }
{
    let word = words.word()?;
    if !is_path_of_one(word.bytes) {
        return Err(word.bad());
    }
    Ok(word.bytes)
}

/// Takes a path.
pub fn any_path<'a>(words: &mut Words<'a>) -> Result<&'a [u8], Fault>
    ensures ok { IfOk result (λ path. Takes words.old path.now words.new × IsPath path.now) }
    ensures bad { OnBad result (λ place. (d : Declared) → IsBadWord d AnyPath words.old place) }
{
    let word = words.word()?;
    if !is_path(word.bytes) {
        return Err(word.bad());
    }
    Ok(word.bytes)
}

/// Takes the mode of a new file.
pub fn file_mode(words: &mut Words) -> Result<u16, Fault>
    ensures ok { IfOk result (λ mode. Takes words.old (mode_text 438) words.new × (mode ≡ 438)) }
    ensures bad { OnBad result (λ place. (d : Declared) → IsBadWord d FileMode words.old place) }
{
    let word = words.word()?;
    if word.bytes != FILE_MODE_TEXT {
        return Err(word.bad());
    }
    Ok(FILE_MODE)
}
