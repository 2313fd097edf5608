// The entries of short runs, each worked out by hand. In an image of 64 pages the root coffer has page 38, its control
// page, and page 39, its root directory; the first file takes pages 40 and 41.
use super::run_text;
use pm_words::NoMemory;
use tr_types::{
    Action, Answer, Entry, FaultKind, Kcall, KernAnswer, Kind, Mapped, Mark, Reply, Right,
};

/// PKRU with every key but 0 closed, with key 1 open to loads, and with key 1 open to loads and stores.
const CLOSED: u32 = 0x5555_5554;

const LOADS: u32 = 0x5555_5558;

const STORES: u32 = 0x5555_5550;

/// An entry, short. Threads are left out but where a call begins and ends.
#[derive(Clone, Copy, Debug, PartialEq, Eq)]
enum Step {
    Mkfs(u32),
    Process(u8),
    Thread(u16, u8),
    Call(u16),
    /// The root coffer was found, with the path's own coffer or not.
    Find(bool),
    /// The root coffer was mapped under key 1: whether for stores too.
    Map(bool),
    Pkru(Mark, u32),
    /// The address and the word.
    Load(u64, u64),
    Store(Mark, u64, u64),
    /// So many pages were asked for, and given from page 40 on.
    Enlarge(u32),
    Unmap,
    Made(u16),
    /// The number of names in a directory.
    Names(u16, u64),
    /// A stray store that a key refused.
    Stray(u16, u64),
    Other,
}

fn step_of_kernel(call: &Kcall, answer: &KernAnswer) -> Step {
    match (call, answer) {
        (
            Kcall::Find { also: None, .. },
            KernAnswer::Found {
                first,
                second: None,
            },
        ) if (first.id, first.path_len) == (1, 1) => { Step::Find(first.exact) }
        (
            Kcall::Map {
                right,
                exclusive: false,
                ..
            },
            KernAnswer::Mapped(mapped),
        ) if is_root_mapped(mapped) => { Step::Map(*right == Right::WRITE) }
        (Kcall::Enlarge { id: 1, count }, KernAnswer::Pages(pages))
            if pages.as_slice() == [40, 41].as_slice() => { Step::Enlarge(*count) }
        (Kcall::Unmap { id: 1 }, KernAnswer::Done) => Step::Unmap,
        _ => Step::Other,
    }
}

fn is_root_mapped(mapped: &Mapped) -> bool {
    (
        mapped.id,
        mapped.key,
        mapped.control,
        mapped.root,
        mapped.pages,
        mapped.path_len,
    ) == (1, 1, 38, 39, 2, 1)
}

fn step_of_action(mark: Mark, action: &Action, answer: &Answer) -> Step {
    match (mark, action, answer) {
        (Mark::Plain, Action::Kernel(call), Answer::Kern(answer)) => {
            step_of_kernel(call.get(), answer.get())
        }
        (Mark::Plain, Action::Load(addr), Answer::Word(word)) => Step::Load(*addr, *word),
        (mark, Action::Store(addr, word), Answer::Done) => Step::Store(mark, *addr, *word),
        (mark, Action::Pkru(pkru), Answer::Done) => Step::Pkru(mark, *pkru),
        _ => Step::Other,
    }
}

fn step_of(entry: &Entry) -> Step {
    match entry {
        Entry::Mkfs(pages) => Step::Mkfs(*pages),
        Entry::Process { process, .. } => Step::Process(*process),
        Entry::Thread { thread, process } => Step::Thread(*thread, *process),
        Entry::Call { thread, .. } => Step::Call(*thread),
        Entry::Act {
            mark,
            action,
            answer,
            ..
        } => step_of_action(*mark, action, answer),
        Entry::Reply {
            thread,
            reply: Reply::Made,
        } => Step::Made(*thread),
        Entry::Reply {
            thread,
            reply: Reply::Info(Kind::Dir, names, 0, 0, 438),
        } => { Step::Names(*thread, *names) }
        Entry::Stray {
            thread,
            addr,
            answer: Answer::Fault(FaultKind::KeyDenied),
            ..
        } => { Step::Stray(*thread, *addr) }
        _ => Step::Other,
    }
}

/// Whether the entries are these.
fn are(entries: Option<&[Entry]>, steps: &[Step]) -> bool {
    entries.is_some_and(|entries| {
        entries.len() == steps.len()
            && entries
                .iter()
                .zip(steps)
                .all(|(entry, step)| step_of(entry) == *step)
    })
}

/// A look at the root directory finds an empty bucket, one after the other from its first on.
fn are_empty_buckets(entries: Option<&[Entry]>) -> bool {
    entries.is_some_and(|entries| {
        entries.len() == 256
            && entries
                .iter()
                .zip((161_792..163_840).step_by(8))
                .all(|(entry, at)| step_of(entry) == Step::Load(at, 0))
    })
}

#[test]
fn a_stat_looks_at_each_bucket_in_its_window(rt: HostRuntime) -> Result<(), NoMemory> {
    let script = b"mkfs 64\nprocess p1 0 0\nthread t1 p1\ndo t1 stat /\n";
    let ran = run_text(rt.alloc(), script, 4096)?;
    let entries = ran.outcome.trace.entries();
    let front = [
        Step::Mkfs(64),
        Step::Process(0),
        Step::Thread(0, 0),
        Step::Call(0),
        Step::Find(true),
        Step::Map(false),
        Step::Pkru(Mark::Open, LOADS),
    ];
    let back = [
        Step::Pkru(Mark::Close, CLOSED),
        Step::Unmap,
        Step::Names(0, 0),
    ];
    assert!(rt; are(entries.get(..7), &front));
    assert!(rt; are_empty_buckets(entries.get(7..263)));
    assert!(rt; are(entries.get(263..), &back));
    Ok(())
}

/// What a `create` of `f` does in its window in a new file system.
const CREATE: [Step; 24] = [
    // the bucket of `f`, the first free entry, the first entry page and the pool's first page: there is none
    Step::Load(163_528, 0),
    Step::Load(159_784, 0),
    Step::Load(159_776, 0),
    Step::Load(155_720, 0),
    Step::Enlarge(2),
    // the file's kind; no further entry page; the free entries, each but the last with the next one
    Step::Store(Mark::Plain, 167_936, 1),
    Step::Store(Mark::Plain, 163_840, 0),
    Step::Store(Mark::Plain, 164_416, 164_736),
    Step::Store(Mark::Plain, 164_736, 165_056),
    Step::Store(Mark::Plain, 165_056, 165_376),
    Step::Store(Mark::Plain, 165_376, 165_696),
    Step::Store(Mark::Plain, 165_696, 166_016),
    Step::Store(Mark::Plain, 166_016, 166_336),
    Step::Store(Mark::Plain, 166_336, 166_656),
    Step::Store(Mark::Plain, 166_656, 166_976),
    Step::Store(Mark::Plain, 166_976, 167_296),
    Step::Store(Mark::Plain, 167_296, 167_616),
    // the entry: none behind it, the file, the name's length and its letter
    Step::Store(Mark::Plain, 164_096, 0),
    Step::Store(Mark::Plain, 164_104, 167_936),
    Step::Store(Mark::Plain, 164_112, 1),
    Step::Store(Mark::Plain, 164_120, 102),
    // the directory's first entry page and first free entry
    Step::Store(Mark::Plain, 159_776, 163_840),
    Step::Store(Mark::Plain, 159_784, 164_416),
    Step::Store(Mark::Commit, 163_528, 164_096),
];

#[test]
fn a_create_commits_in_its_window(rt: HostRuntime) -> Result<(), NoMemory> {
    let script = b"mkfs 64\nprocess p1 0 0\nthread t1 p1\ndo t1 create /f 666\n";
    let ran = run_text(rt.alloc(), script, 4096)?;
    let entries = ran.outcome.trace.entries();
    let front = [
        Step::Call(0),
        Step::Find(true),
        Step::Map(true),
        Step::Pkru(Mark::Open, STORES),
    ];
    let back = [Step::Pkru(Mark::Close, CLOSED), Step::Unmap, Step::Made(0)];
    assert!(rt; are(entries.get(3..7), &front));
    assert!(rt; are(entries.get(7..31), &CREATE));
    assert!(rt; are(entries.get(31..), &back));
    Ok(())
}

#[test]
fn a_stray_store_stands_within_the_window(rt: HostRuntime) -> Result<(), NoMemory> {
    let script =
        b"mkfs 64\nprocess p1 0 0\nthread t1 p1\nthread t2 p1\ncall t2 create /f 666\nopen t2\nstray t1 159744 7\nfinish t2\n";
    let ran = run_text(rt.alloc(), script, 4096)?;
    let entries = ran.outcome.trace.entries();
    let front = [
        Step::Thread(1, 0),
        Step::Call(1),
        Step::Find(true),
        Step::Map(true),
        Step::Pkru(Mark::Open, STORES),
        Step::Stray(0, 159_744),
    ];
    let back = [Step::Pkru(Mark::Close, CLOSED), Step::Unmap, Step::Made(1)];
    assert!(rt; are(entries.get(3..9), &front));
    assert!(rt; are(entries.get(9..33), &CREATE));
    assert!(rt; are(entries.get(33..), &back));
    Ok(())
}
