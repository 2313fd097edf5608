// Steps on images of 64 pages, line by line, at tick 0. Threads 0 and 1 are in process 0 and thread 2 in process 1, and
// both processes are user 0's. Page 38 is the root coffer's control page, and page 39, its root page, begins at 159744.
ghost use Rattle.std.specs.Prelude.{◌≡◌, ◌<◌, ◌%◌, IfOk, OnOk, length};
ghost use Rattle.bus_model.specs.Machine.{IsAction};
ghost use Rattle.kern_model.specs.KernelCalls.{IsOneRight, IsPathText};

use super::*;
use kern_journal::new_image;
use pm_words::{NoMemory, Words};
use sqlite_items::Boxed;
use std::alloc::{AllocError, Global};
use std::fmt::Write;
use std::str::FromStr;
use std::test::Fail;
use thiserror::Error;
use tr_types::{Action, Answer, Cred, Groups, Kcall, PROCESSES, Path, Pick, Right, THREADS};

/// Bytes of 64 pages.
const BYTES: u64 = 262_144;

const USER: Cred = Cred {
    uid: 0,
    gid: 0,
    groups: Groups::NONE,
};

/// What each step answers: an access where nothing is mapped; a step of nobody; under a closed key, an open one and one that
/// is open to loads alone; and where the coffer is mapped to be read. A flush needs the right to load, and an exchange
/// that to store.
const STEPS: &str = "\
0 store 159744 1 -> Fault(NotMapped)
0 stray 159744 1 -> Fault(NotMapped)
0 cas 159744 0 1 -> Fault(NotMapped)
0 flush 159744 -> Fault(NotMapped)
3 load 159744 -> no such thread was started
0 map write -> Mapped(Mapped { id: 1, key: 1, control: 38, root: 39, pages: 2, path_len: 1, perm: Perm { uid: 0, gid: 0, mode: 438 } })
0 load 159744 -> Fault(KeyDenied)
0 pkru 1431655760 -> Done
0 store 159744 7 -> Done
0 load 159744 -> Word(7)
0 cas 159744 6 9 -> Word(7)
0 cas 159744 7 8 -> Word(7)
left 159744 -> [0, 7, 8]
0 flush 159748 -> Fault(NotMapped)
0 flush 159752 -> Done
1 fence -> Done
left 159744 -> [0, 7, 8]
0 fence -> Done
left 159744 -> [8]
1 flush 159744 -> Fault(KeyDenied)
2 load 159744 -> Fault(NotMapped)
0 load 262144 -> Fault(NotMapped)
0 pkru 1431655768 -> Done
0 cas 159744 9 9 -> Fault(KeyDenied)
0 flush 159744 -> Done
0 map read -> Mapped(Mapped { id: 1, key: 1, control: 38, root: 39, pages: 2, path_len: 1, perm: Perm { uid: 0, gid: 0, mode: 438 } })
0 store 159744 1 -> Fault(NotWritable)
0 cas 159744 9 9 -> Fault(NotWritable)
";

/// A store that is made durable, one that isn't, and a crash that takes the durable values. Nobody acts from then on,
/// nothing is started, and who was never started still wasn't. A second crash changes nothing more.
const CRASHED: &str = "\
0 map write -> Mapped(Mapped { id: 1, key: 1, control: 38, root: 39, pages: 2, path_len: 1, perm: Perm { uid: 0, gid: 0, mode: 438 } })
0 pkru 1431655760 -> Done
0 store 159744 7 -> Done
0 flush 159744 -> Done
0 fence -> Done
0 store 159744 8 -> Done
left 159744 -> [7, 8]
crash none -> Done
left 159744 -> [7]
0 load 159744 -> it has ended, or the machine is down
0 stray 159744 9 -> it has ended, or the machine is down
2 fence -> it has ended, or the machine is down
3 fence -> no such thread was started
start process 0 -> it was started before
start process 2 -> it has ended, or the machine is down
start thread 3 2 -> no such process was started
start thread 2 0 -> it was started before
start thread 3 0 -> it has ended, or the machine is down
crash all -> Done
left 159744 -> [7]
";

/// The same stores, and a crash that takes the present values.
const KEPT: &str = "\
0 map write -> Mapped(Mapped { id: 1, key: 1, control: 38, root: 39, pages: 2, path_len: 1, perm: Perm { uid: 0, gid: 0, mode: 438 } })
0 pkru 1431655760 -> Done
0 store 159744 7 -> Done
0 flush 159744 -> Done
0 fence -> Done
0 store 159744 8 -> Done
crash all -> Done
left 159744 -> [8]
";

/// The journal says that word 0 of page 40 becomes 7.
const COMMITTED: [(u64, u64); 3] = [(4096, 1), (4160, 163_840), (4168, 7)];

/// What is committed is finished.
const FINISHED: &str = "\
left 4096 -> [0]
left 163840 -> [7]
";

/// Word 0 of the journal has been 1, and so has word 0 of page 40.
const STORED_TWICE: [(u64, u64); 4] = [(4096, 1), (4096, 0), (163_840, 1), (163_840, 0)];

/// That nothing is committed is made durable.
const SETTLED: &str = "\
left 4096 -> [0]
left 163840 -> [0, 1, 0]
";

/// Why a table can't be tried.
#[derive(Debug, Drop, Error)]
enum LineFault {
    #[error("the machine doesn't open")]
    Shut,
    #[error("that is no line of a table")]
    NoLine,
    #[error("out of memory")]
    NoMemory,
}

impl From<AllocError> for LineFault {
    fn from(_: AllocError) -> LineFault {
        LineFault::NoMemory
    }
}

impl From<MountFault> for LineFault {
    fn from(_: MountFault) -> LineFault {
        LineFault::Shut
    }
}

impl From<BusFault> for LineFault {
    fn from(_: BusFault) -> LineFault {
        LineFault::NoLine
    }
}

fn put(words: &mut Words, pairs: &[(u64, u64)]) -> Result<(), NoMemory>
    requires { length words.old ≡ 32768 }
{
    for &(addr, word) in pairs {
        if addr % 8 == 0 && addr < BYTES {
            words.store(addr, word)?;
        }
    }
    Ok(())
}

// A new image in which these words (address, word) were stored.
fn image_with(alloc: Global, pairs: &[(u64, u64)]) -> Result<Words, NoMemory> {
    let mut words = new_image(alloc, 64)?;
    put(&mut words, pairs)?;
    Ok(words)
}

fn start_all(machine: &mut Machine) -> Result<(), BusFault> {
    machine.start_process(0, USER)?;
    machine.start_process(1, USER)?;
    machine.start_thread(0, 0)?;
    machine.start_thread(1, 0)?;
    machine.start_thread(2, 1)
}

// The lines of a table, each ASKED -> OUTCOME, that have another outcome over an image with these words, with that one.
fn wrong_lines(alloc: Global, pairs: &[(u64, u64)], table: &str) -> Result<String, LineFault> {
    let mut machine = Machine::open(alloc, image_with(alloc, pairs)?)?;
    wrong_in(&mut machine, alloc, table)
}

fn wrong_in(machine: &mut Machine, alloc: Global, table: &str) -> Result<String, LineFault> {
    start_all(machine)?;
    let mut wrong = String::new(alloc);
    for line in table.lines() {
        let (asked, want) = line.split_once(" -> ").ok_or(LineFault::NoLine)?;
        let outcome = outcome(machine, alloc, asked)?;
        if outcome.as_str() != want {
            writeln!(wrong, "{asked} -> {outcome}")?;
        }
    }
    Ok(wrong)
}

// What comes of a line: `left` ADDRESS, for what a crash may leave there; `crash` PICK; `start process` NUMBER and
// `start thread` NUMBER PROCESS; or THREAD and an action.
fn outcome(machine: &mut Machine, alloc: Global, line: &str) -> Result<String, LineFault> {
    let words = words_of(alloc, line)?;
    match words.as_slice() {
        ["left", addr] => left(machine, alloc, number(addr)?),
        ["crash", pick] => crash(machine, alloc, pick_of(pick)?),
        ["start", number @ ..] => text_of(alloc, start(machine, number)?),
        [thread, action @ ..] => text_of(alloc, step(machine, alloc, number(thread)?, action)?),
        [] => Err(LineFault::NoLine),
    }
}

fn words_of<'a>(alloc: Global, line: &'a str) -> Result<Vec<&'a str>, NoMemory> {
    line.split_whitespace().collect(alloc)
}

fn step(
    machine: &mut Machine,
    alloc: Global,
    thread: u16,
    words: &[&str],
) -> Result<Result<Answer, BusFault>, LineFault> {
    match words {
        ["stray", addr, word] => Ok(machine.stray(thread, number(addr)?, number(word)?)),
        _ => {
            let action = action_of(alloc, words)?;
            Ok(machine.act(thread, 0, &action))
        }
    }
}

fn left(machine: &Machine, alloc: Global, addr: u64) -> Result<String, LineFault> {
    if addr % 8 != 0 || addr >= BYTES {
        return Err(LineFault::NoLine);
    }
    let list = pending(machine.words(), addr)?;
    Ok(format!(in alloc; "{:?}", list.as_slice())?)
}

fn crash(machine: &mut Machine, alloc: Global, pick: Pick) -> Result<String, LineFault> {
    machine.crash(pick);
    text_of(alloc, Ok(Answer::Done))
}

fn pick_of(word: &str) -> Result<Pick, LineFault> {
    match word {
        "none" => Ok(Pick::None),
        "all" => Ok(Pick::All),
        _ => Err(LineFault::NoLine),
    }
}

fn start(machine: &mut Machine, words: &[&str]) -> Result<Result<Answer, BusFault>, LineFault> {
    match words {
        ["process", process] => start_process(machine, number(process)?),
        ["thread", thread, process] => start_thread(machine, number(thread)?, number(process)?),
        _ => Err(LineFault::NoLine),
    }
}

fn start_process(
    machine: &mut Machine,
    process: u8,
) -> Result<Result<Answer, BusFault>, LineFault> {
    if process >= PROCESSES {
        return Err(LineFault::NoLine);
    }
    Ok(done(machine.start_process(process, USER)))
}

fn start_thread(
    machine: &mut Machine,
    thread: u16,
    process: u8,
) -> Result<Result<Answer, BusFault>, LineFault> {
    if thread >= THREADS {
        return Err(LineFault::NoLine);
    }
    Ok(done(machine.start_thread(thread, process)))
}

fn done(told: Result<(), BusFault>) -> Result<Answer, BusFault> {
    told?;
    Ok(Answer::Done)
}

fn pending(words: &Words, addr: u64) -> Result<Vec<u64>, NoMemory>
    requires aligned { addr % 8 ≡ 0 }
    requires inside { addr < 262144 }
{
    // There are 64 pages at least.
    let _pages = words.pages();
    words.pending(addr)
}

fn text_of(alloc: Global, answer: Result<Answer, BusFault>) -> Result<String, LineFault> {
    match answer {
        Ok(Answer::Kern(answer)) => Ok(format!(in alloc; "{:?}", answer.get())?),
        Ok(answer) => Ok(format!(in alloc; "{answer:?}")?),
        Err(fault) => Ok(format!(in alloc; "{fault}")?),
    }
}

fn action_of(alloc: Global, words: &[&str]) -> Result<Action, LineFault>
    ensures { IfOk result IsAction }
{
    match words {
        ["load", addr] => Ok(Action::Load(number(addr)?)),
        ["store", addr, word] => Ok(Action::Store(number(addr)?, number(word)?)),
        ["cas", addr, old, new] => Ok(Action::Cas {
            addr: number(addr)?,
            old: number(old)?,
            new: number(new)?,
        }),
        ["flush", addr] => Ok(Action::Flush(number(addr)?)),
        ["fence"] => Ok(Action::Fence),
        ["pkru", pkru] => Ok(Action::Pkru(number(pkru)?)),
        ["map", right] => map_of(alloc, right),
        _ => Err(LineFault::NoLine),
    }
}

// A Map of the root coffer.
fn map_of(alloc: Global, right: &str) -> Result<Action, LineFault>
    ensures { IfOk result IsAction }
{
    let call = Kcall::Map {
        path: root(alloc)?,
        right: right_of(right)?,
        exclusive: false,
    };
    Ok(Action::Kernel(Boxed::new(alloc, call)?))
}

fn right_of(word: &str) -> Result<Right, LineFault>
    ensures { IfOk result IsOneRight }
{
    match word {
        "read" => Ok(Right::READ),
        "write" => Ok(Right::WRITE),
        _ => Err(LineFault::NoLine),
    }
}

fn root(alloc: Global) -> Result<Path, AllocError>
    ensures { IfOk result IsPathText }
{
    Ok(Path::new(Vec::from_slice(alloc, b"/")?))
}

fn number<T: FromStr>(word: &str) -> Result<T, LineFault>
where
    T::Err: Drop,
{
    word.parse().ok().ok_or(LineFault::NoLine)
}

#[test]
fn steps_are_answered_by_the_rights(rt: HostRuntime) -> Result<(), Fail> {
    assert_eq!(rt; wrong_lines(rt.alloc(), &[], STEPS)?.as_str(), "");
    Ok(())
}

#[test]
fn a_crash_takes_what_was_picked_and_ends_everyone(rt: HostRuntime) -> Result<(), Fail> {
    assert_eq!(rt; wrong_lines(rt.alloc(), &[], CRASHED)?.as_str(), "");
    Ok(())
}

#[test]
fn a_crash_may_keep_what_was_not_fenced(rt: HostRuntime) -> Result<(), Fail> {
    assert_eq!(rt; wrong_lines(rt.alloc(), &[], KEPT)?.as_str(), "");
    Ok(())
}

#[test]
fn what_is_committed_is_finished(rt: HostRuntime) -> Result<(), Fail> {
    assert_eq!(rt; wrong_lines(rt.alloc(), &COMMITTED, FINISHED)?.as_str(), "");
    Ok(())
}

#[test]
fn that_nothing_is_committed_is_made_durable(rt: HostRuntime) -> Result<(), Fail> {
    assert_eq!(rt;
        wrong_lines(rt.alloc(), &STORED_TWICE, SETTLED)?.as_str(),
        ""
    );
    Ok(())
}

#[test]
fn an_image_without_its_signature_is_damaged_at_word_0(rt: HostRuntime) -> Result<(), Fail> {
    let words = image_with(rt.alloc(), &[(0, 1)])?;
    let fault = Machine::open(rt.alloc(), words).err();
    assert_eq!(rt; fault, Some(MountFault::BadKernel(0)));
    Ok(())
}
