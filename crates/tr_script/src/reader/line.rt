// Reads one line of a script from its words.
ghost use Rattle.std.specs.Prelude.{◌≡◌, [], ◌∷◌, IfOk, IsTrue, false, codes};
ghost use Rattle.tr_script.specs.Grammar.{Declared, line_words, MayStand, IsThreadOf};
ghost use Rattle.tr_text.specs.Spelling.{thread_name};
ghost use Rattle.tr_text.specs.Words.{command_words};
ghost use Rattle.zo_model.specs.Commands.{IsCommand};
ghost use Rattle.tr_script.specs.Places.{FirstWord, Size, NewProcess, Zero, NewThread, KnownProcess, KnownThread, StrayThread, CommandWord, FilePath, AnyPath, FileMode, Address, Number, MayBegin, slots_behind};
ghost use Rattle.tr_script.specs.Reading.{OnBad, IsBadOf, first_text};

use super::place::Fault;
use super::seen::Seen;
use super::slots::{self, First, Name};
use super::words::Words;
use crate::Line;
use sqlite_items::Boxed;
use std::alloc::Global;
use tr_types::{Command, Cred, Path};

fn path_of(alloc: Global, bytes: &[u8]) -> Result<Path, Fault>
    ensures ok { IfOk result (λ path. path ≡ bytes.now) }
    ensures no_bad { OnBad result (λ place. ⊥) }
{
    Ok(Path::new(Vec::from_slice(alloc, bytes)?))
}

/// The command of these words behind `create`.
fn create_command(alloc: Global, words: &mut Words) -> Result<Command, Fault>
    ensures ok { IfOk result (λ command. (codes "create" ∷ words.old.words ≡ command_words command) × IsCommand command) }
    ensures bad { OnBad result (λ place. (d : Declared) → IsBadOf d (FilePath ∷ FileMode ∷ []) words.old place) }
{
    let path = slots::file_path(words)?;
    let mode = slots::file_mode(words)?;
    words.end()?;
    let path = path_of(alloc, path)?;
    Ok(Command::Create { path, mode })
}

/// The command of these words behind `stat`.
fn stat_command(alloc: Global, words: &mut Words) -> Result<Command, Fault>
    ensures ok { IfOk result (λ command. (codes "stat" ∷ words.old.words ≡ command_words command) × IsCommand command) }
    ensures bad { OnBad result (λ place. (d : Declared) → IsBadOf d (AnyPath ∷ []) words.old place) }
{
    let path = slots::any_path(words)?;
    words.end()?;
    let path = path_of(alloc, path)?;
    Ok(Command::Stat { path })
}

/// The command that the words spell.
fn command(alloc: Global, words: &mut Words) -> Result<Command, Fault>
    ensures ok { IfOk result (λ command. (words.old.words ≡ command_words command) × IsCommand command) }
    ensures bad { OnBad result (λ place. (d : Declared) → IsBadOf d (CommandWord ∷ []) words.old place) }
{
    match slots::command_name(words)? {
        Name::Create => create_command(alloc, words),
        Name::Stat => stat_command(alloc, words),
    }
}

/// The line of these words behind `mkfs`.
fn mkfs_line(words: &mut Words) -> Result<Line, Fault>
    ensures ok { IfOk result (λ l. (codes "mkfs" ∷ words.old.words ≡ line_words l) × ((d : Declared) → d.begun ≡ false → MayStand d l)) }
    ensures bad { OnBad result (λ place. (d : Declared) → IsBadOf d (Size ∷ []) words.old place) }
{
    let pages = slots::size(words)?;
    words.end()?;
    Ok(Line::Mkfs(pages))
}

/// The line of these words behind `process`. The process has uid and gid 0, and no further groups.
#[tactic(auto, using(crate::proofs::SpellingLemmas::decimal_zero))]
fn process_line(alloc: Global, seen: &Seen, words: &mut Words) -> Result<Line, Fault>
    requires { IsTrue seen.now.begun }
    ensures ok { IfOk result (λ l. (codes "process" ∷ words.old.words ≡ line_words l) × MayStand seen.now l) }
    ensures bad { OnBad result (IsBadOf seen.now (NewProcess ∷ Zero ∷ Zero ∷ []) words.old) }
{
    let process = slots::new_process(seen, words)?;
    slots::zero(words)?;
    slots::zero(words)?;
    words.end()?;
    Ok(Line::Process {
        process,
        cred: Boxed::new(alloc, Cred::new(0, 0))?,
    })
}

/// The line of these words behind `thread`.
fn thread_line(seen: &Seen, words: &mut Words) -> Result<Line, Fault>
    requires { IsTrue seen.now.begun }
    ensures ok { IfOk result (λ l. (codes "thread" ∷ words.old.words ≡ line_words l) × MayStand seen.now l) }
    ensures bad { OnBad result (IsBadOf seen.now (NewThread ∷ KnownProcess ∷ []) words.old) }
{
    let thread = slots::new_thread(seen, words)?;
    let process = slots::known_process(seen, words)?;
    words.end()?;
    Ok(Line::Thread { thread, process })
}

/// The thread and the command of these words behind `call` or `do`.
fn given_command(alloc: Global, seen: &Seen, words: &mut Words) -> Result<(u16, Command), Fault>
    ensures ok { IfOk result (λ given. (words.old.words ≡ thread_name given.0 ∷ command_words given.1) × IsThreadOf seen.now given.0 × IsCommand given.1) }
    ensures bad { OnBad result (IsBadOf seen.now (KnownThread ∷ CommandWord ∷ []) words.old) }
{
    let thread = slots::known_thread(seen, words)?;
    let command = command(alloc, words)?;
    Ok((thread, command))
}

/// The thread of these words behind `finish` or `open`.
fn only_thread(seen: &Seen, words: &mut Words) -> Result<u16, Fault>
    ensures ok { IfOk result (λ thread. (words.old.words ≡ thread_name thread ∷ []) × IsThreadOf seen.now thread) }
    ensures bad { OnBad result (IsBadOf seen.now (KnownThread ∷ []) words.old) }
{
    let thread = slots::known_thread(seen, words)?;
    words.end()?;
    Ok(thread)
}

/// The line of these words behind `stray`.
fn stray_line(seen: &Seen, words: &mut Words) -> Result<Line, Fault>
    requires { IsTrue seen.now.begun }
    ensures ok { IfOk result (λ l. (codes "stray" ∷ words.old.words ≡ line_words l) × MayStand seen.now l) }
    ensures bad { OnBad result (IsBadOf seen.now (StrayThread ∷ Address ∷ Number ∷ []) words.old) }
{
    let thread = slots::stray_thread(seen, words)?;
    let addr = slots::address(words)?;
    let word = slots::number(words)?;
    words.end()?;
    Ok(Line::Stray { thread, addr, word })
}

/// The line of these words behind its first word, which a line may begin with.
fn line_behind(alloc: Global, seen: &Seen, first: First, words: &mut Words) -> Result<Line, Fault>
    requires { MayBegin seen.now (first_text first) }
    ensures ok { IfOk result (λ l. (first_text first ∷ words.old.words ≡ line_words l) × MayStand seen.now l) }
    ensures bad { OnBad result (IsBadOf seen.now (slots_behind FirstWord (first_text first) []) words.old) }
{
    match first {
        First::Mkfs => mkfs_line(words),
        First::Process => process_line(alloc, seen, words),
        First::Thread => thread_line(seen, words),
        First::Call => {
            let (thread, command) = given_command(alloc, seen, words)?;
            Ok(Line::Call { thread, command })
        }
        First::Do => {
            let (thread, command) = given_command(alloc, seen, words)?;
            Ok(Line::Do { thread, command })
        }
        First::Finish => Ok(Line::Finish {
            thread: only_thread(seen, words)?,
        }),
        First::Open => Ok(Line::Open {
            thread: only_thread(seen, words)?,
        }),
        First::Stray => stray_line(seen, words),
    }
}

/// The line that the words spell, below lines that have declared what was seen.
pub fn line(alloc: Global, seen: &Seen, words: &mut Words) -> Result<Line, Fault>
    ensures ok { IfOk result (λ l. (words.old.words ≡ line_words l) × MayStand seen.now l) }
    ensures bad { OnBad result (IsBadOf seen.now (FirstWord ∷ []) words.old) }
{
    let first = slots::first_word(seen, words)?;
    line_behind(alloc, seen, first, words)
}
