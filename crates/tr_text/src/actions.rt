// What threads do and are answered: actions, kernel calls and their answers.
ghost use Rattle.std.specs.Prelude.{◌≡◌, ◌++◌, [], ◌∷◌, OnOk, flat_map, codes, length, take};
ghost use Rattle.tr_text.specs.Spelling.{right_text, thread_name};
ghost use Rattle.tr_text.specs.Text.{then_number, then_words};
ghost use Rattle.tr_text.specs.Words as spec;

use crate::calls::{append_in_use, append_path};
use crate::words::{
    append_list, append_mode, append_number, append_numbers, append_word, bit_word, fault_words,
    right_word, share_word,
};
use pm_words::NoMemory;
use tr_types::{Action, Answer, FoundAt, Kcall, KernAnswer, Mapped, Pages, Path, Right};

/// Appends an action, each of its words after a space.
pub(crate) fn append_action(text: &mut Vec<u8>, action: &Action) -> Result<(), NoMemory>
    ensures ok { OnOk result (text.new.items ≡ text.old.items ++ then_words (spec.action_words action.now)) }
    ensures kept { take (length text.old.items) text.new.items ≡ text.old.items }
{
    match *action {
        Action::Load(addr) => append_numbers(text, b" load", &[addr]),
        Action::Store(addr, word) => append_numbers(text, b" store", &[addr, word]),
        Action::Cas { addr, old, new } => append_numbers(text, b" cas", &[addr, old, new]),
        Action::Flush(addr) => append_numbers(text, b" flush", &[addr]),
        Action::Fence => text.extend_from_slice(b" fence"),
        Action::Pkru(pkru) => append_numbers(text, b" pkru", &[u64::from(pkru)]),
        Action::Kernel(ref kcall) => append_kernel(text, kcall.get()),
    }
}

fn append_kernel(text: &mut Vec<u8>, kcall: &Kcall) -> Result<(), NoMemory>
    ensures ok { OnOk result (text.new.items ≡ text.old.items ++ then_words (codes "kernel" ∷ spec.kcall_words kcall.now)) }
    ensures kept { take (length text.old.items) text.new.items ≡ text.old.items }
{
    text.extend_from_slice(b" kernel")?;
    append_kcall(text, kcall)
}

/// Appends a kernel call, each of its words after a space.
pub(crate) fn append_kcall(text: &mut Vec<u8>, kcall: &Kcall) -> Result<(), NoMemory>
    ensures ok { OnOk result (text.new.items ≡ text.old.items ++ then_words (spec.kcall_words kcall.now)) }
    ensures kept { take (length text.old.items) text.new.items ≡ text.old.items }
{
    match kcall {
        Kcall::Find { path, also } => append_find(text, path, also),
        Kcall::Map {
            path,
            right,
            exclusive,
        } => append_map(text, path, *right, *exclusive),
        Kcall::Unmap { id } => append_numbers(text, b" unmap", &[u64::from(*id)]),
        Kcall::New { .. } | Kcall::Split { .. } => append_coming(text, kcall),
        Kcall::Delete { .. } | Kcall::Merge { .. } => append_going(text, kcall),
        Kcall::Enlarge { id, count } => {
            append_numbers(text, b" enlarge", &[u64::from(*id), u64::from(*count)])
        }
        Kcall::Shrink { id, pages, guard } => append_shrink(text, *id, pages, *guard),
        Kcall::Mode { id, mode } => append_mode_call(text, *id, *mode),
        Kcall::Recover { id, ready } => append_recover(text, *id, *ready),
    }
}

fn append_find(text: &mut Vec<u8>, path: &Path, also: &Option<Path>) -> Result<(), NoMemory>
    ensures ok { OnOk result (text.new.items ≡ text.old.items ++ then_words (spec.kcall_words (Kcall.Find path.now also.now))) }
    ensures kept { take (length text.old.items) text.new.items ≡ text.old.items }
{
    append_path(text, b" find ", path)?;
    match also {
        Some(also) => append_word(text, also.as_bytes()),
        None => Ok(()),
    }
}

fn append_map(
    text: &mut Vec<u8>,
    path: &Path,
    right: Right,
    exclusive: bool,
) -> Result<(), NoMemory>
    ensures ok { OnOk result (text.new.items ≡ text.old.items ++ then_words (spec.kcall_words (Kcall.Map path.now right exclusive))) }
    ensures kept { take (length text.old.items) text.new.items ≡ text.old.items }
{
    append_path(text, b" map ", path)?;
    text.extend_from_slice(right_word(right))?;
    text.extend_from_slice(share_word(exclusive))
}

/// Appends a call by which a coffer comes.
fn append_coming(text: &mut Vec<u8>, kcall: &Kcall) -> Result<(), NoMemory>
    requires { spec.IsComing kcall.now }
    ensures ok { OnOk result (text.new.items ≡ text.old.items ++ then_words (spec.kcall_words kcall.now)) }
    ensures kept { take (length text.old.items) text.new.items ≡ text.old.items }
{
    match kcall {
        Kcall::New {
            parent,
            path,
            kind,
            mode,
            link,
            guard,
        } => append_new(text, *parent, path, *kind, *mode, *link, *guard),
        Kcall::Split {
            id,
            path,
            pages,
            mode,
            link,
            guard,
        } => append_split(text, *id, path, pages, *mode, *link, *guard),
        _ => unreachable!(),
    }
}

/// Appends a call by which a coffer goes.
fn append_going(text: &mut Vec<u8>, kcall: &Kcall) -> Result<(), NoMemory>
    requires { spec.IsGoing kcall.now }
    ensures ok { OnOk result (text.new.items ≡ text.old.items ++ then_words (spec.kcall_words kcall.now)) }
    ensures kept { take (length text.old.items) text.new.items ≡ text.old.items }
{
    match kcall {
        Kcall::Delete {
            id,
            parent,
            link,
            guard,
        } => append_delete(text, *id, *parent, *link, *guard),
        Kcall::Merge {
            child,
            parent,
            pages,
            link,
            guard,
        } => append_merge(text, *child, *parent, pages, *link, *guard),
        _ => unreachable!(),
    }
}

fn append_new(
    text: &mut Vec<u8>,
    parent: u16,
    path: &Path,
    kind: u8,
    mode: u16,
    link: (u64, u64, u64),
    guard: (u64, u64),
) -> Result<(), NoMemory>
    ensures ok { OnOk result (text.new.items ≡ text.old.items ++ then_words (spec.kcall_words (Kcall.New parent path.now kind mode link guard))) }
    ensures kept { take (length text.old.items) text.new.items ≡ text.old.items }
{
    append_numbers(text, b" new", &[u64::from(parent)])?;
    append_word(text, path.as_bytes())?;
    append_number(text, u64::from(kind))?;
    append_mode(text, mode)?;
    append_link_and_guard(text, link, guard)
}

fn append_split(
    text: &mut Vec<u8>,
    id: u16,
    path: &Path,
    pages: &Pages,
    mode: u16,
    link: (u64, u64, u64),
    guard: (u64, u64),
) -> Result<(), NoMemory>
    ensures ok { OnOk result (text.new.items ≡ text.old.items ++ then_words (spec.kcall_words (Kcall.Split id path.now pages.now mode link guard))) }
    ensures kept { take (length text.old.items) text.new.items ≡ text.old.items }
{
    append_numbers(text, b" split", &[u64::from(id)])?;
    append_word(text, path.as_bytes())?;
    append_list(text, pages.as_slice())?;
    append_mode(text, mode)?;
    append_link_and_guard(text, link, guard)
}

fn append_delete(
    text: &mut Vec<u8>,
    id: u16,
    parent: u16,
    link: (u64, u64, u64),
    guard: (u64, u64),
) -> Result<(), NoMemory>
    ensures ok { OnOk result (text.new.items ≡ text.old.items ++ then_words (spec.kcall_words (Kcall.Delete id parent link guard))) }
    ensures kept { take (length text.old.items) text.new.items ≡ text.old.items }
{
    append_numbers(text, b" delete", &[u64::from(id), u64::from(parent)])?;
    append_link_and_guard(text, link, guard)
}

fn append_merge(
    text: &mut Vec<u8>,
    child: u16,
    parent: u16,
    pages: &Pages,
    link: (u64, u64, u64),
    guard: (u64, u64),
) -> Result<(), NoMemory>
    ensures ok { OnOk result (text.new.items ≡ text.old.items ++ then_words (spec.kcall_words (Kcall.Merge child parent pages.now link guard))) }
    ensures kept { take (length text.old.items) text.new.items ≡ text.old.items }
{
    append_numbers(text, b" merge", &[u64::from(child), u64::from(parent)])?;
    append_list(text, pages.as_slice())?;
    append_link_and_guard(text, link, guard)
}

fn append_shrink(
    text: &mut Vec<u8>,
    id: u16,
    pages: &Pages,
    guard: (u64, u64),
) -> Result<(), NoMemory>
    ensures ok { OnOk result (text.new.items ≡ text.old.items ++ then_words (spec.kcall_words (Kcall.Shrink id pages.now guard))) }
    ensures kept { take (length text.old.items) text.new.items ≡ text.old.items }
{
    append_numbers(text, b" shrink", &[u64::from(id)])?;
    append_list(text, pages.as_slice())?;
    append_numbers(text, b"", &[guard.0, guard.1])
}

fn append_mode_call(text: &mut Vec<u8>, id: u16, mode: u16) -> Result<(), NoMemory>
    ensures ok { OnOk result (text.new.items ≡ text.old.items ++ then_words (spec.kcall_words (Kcall.Mode id mode))) }
    ensures kept { take (length text.old.items) text.new.items ≡ text.old.items }
{
    append_numbers(text, b" mode", &[u64::from(id)])?;
    append_mode(text, mode)
}

fn append_recover(text: &mut Vec<u8>, id: u16, ready: bool) -> Result<(), NoMemory>
    ensures ok { OnOk result (text.new.items ≡ text.old.items ++ then_words (spec.kcall_words (Kcall.Recover id ready))) }
    ensures kept { take (length text.old.items) text.new.items ≡ text.old.items }
{
    append_numbers(text, b" recover", &[u64::from(id)])?;
    text.extend_from_slice(bit_word(ready))
}

/// Appends a link, an address with the word before and the word after, and a guard, an address with its word.
fn append_link_and_guard(
    text: &mut Vec<u8>,
    link: (u64, u64, u64),
    guard: (u64, u64),
) -> Result<(), NoMemory>
    ensures ok { OnOk result (text.new.items ≡ text.old.items ++ flat_map then_number (link.0 ∷ link.1 ∷ link.2 ∷ guard.0 ∷ guard.1 ∷ [])) }
    ensures kept { take (length text.old.items) text.new.items ≡ text.old.items }
{
    append_numbers(text, b"", &[link.0, link.1, link.2, guard.0, guard.1])
}

/// Appends how an action was answered, each word after a space.
pub(crate) fn append_answer(text: &mut Vec<u8>, answer: &Answer) -> Result<(), NoMemory>
    ensures ok { OnOk result (text.new.items ≡ text.old.items ++ then_words (spec.answer_words answer.now)) }
    ensures kept { take (length text.old.items) text.new.items ≡ text.old.items }
{
    match *answer {
        Answer::Word(word) => append_numbers(text, b" word", &[word]),
        Answer::Done => text.extend_from_slice(b" done"),
        Answer::Fault(kind) => text.extend_from_slice(fault_words(kind)),
        Answer::Kern(ref answer) => append_kern(text, answer.get()),
    }
}

/// Appends what the kernel answers, each word after a space. A refusal tells no more of a coffer than its thread.
fn append_kern(text: &mut Vec<u8>, answer: &KernAnswer) -> Result<(), NoMemory>
    ensures ok { OnOk result (text.new.items ≡ text.old.items ++ then_words (spec.kern_words answer.now)) }
    ensures kept { take (length text.old.items) text.new.items ≡ text.old.items }
{
    match *answer {
        KernAnswer::Done => text.extend_from_slice(b" done"),
        KernAnswer::Same => text.extend_from_slice(b" same"),
        KernAnswer::Found {
            ref first,
            ref second,
        } => append_founds(text, first, second),
        KernAnswer::Mapped(ref mapped) => append_mapped(text, mapped),
        KernAnswer::Made(id) => append_numbers(text, b" made", &[u64::from(id)]),
        KernAnswer::Pages(ref pages) => append_pages(text, pages),
        KernAnswer::NotHeld => text.extend_from_slice(b" refused notheld"),
        KernAnswer::BadPath => text.extend_from_slice(b" refused badpath"),
        KernAnswer::Denied { right, .. } => append_denied(text, right),
        KernAnswer::Quarantined { .. } => text.extend_from_slice(b" refused quarantined"),
        KernAnswer::InUse { thread, .. } => append_in_use_refusal(text, thread),
        KernAnswer::NoKey { .. } => text.extend_from_slice(b" refused nokey"),
        KernAnswer::NotYours(page) => append_numbers(text, b" refused notyours", &[page]),
        KernAnswer::GuardFailed { addr, word } => {
            append_numbers(text, b" refused guard", &[addr, word])
        }
        KernAnswer::LinkDiffers { addr, word } => {
            append_numbers(text, b" refused link", &[addr, word])
        }
        KernAnswer::Taken => text.extend_from_slice(b" refused taken"),
        KernAnswer::TooMany => text.extend_from_slice(b" refused toomany"),
        KernAnswer::NoPages { asked, free } => {
            append_numbers(
                text,
                b" refused nopages",
                &[u64::from(asked), u64::from(free)],
            )
        }
        KernAnswer::NoCoffer => text.extend_from_slice(b" refused nocoffer"),
        KernAnswer::NotEmptyList => text.extend_from_slice(b" refused notempty"),
        KernAnswer::BadCount => text.extend_from_slice(b" refused badcount"),
        KernAnswer::NoMemory => text.extend_from_slice(b" refused nomemory"),
    }
}

fn append_founds(
    text: &mut Vec<u8>,
    first: &FoundAt,
    second: &Option<FoundAt>,
) -> Result<(), NoMemory>
    ensures ok { OnOk result (text.new.items ≡ text.old.items ++ then_words (spec.kern_words (KernAnswer.Found first.now second.now))) }
    ensures kept { take (length text.old.items) text.new.items ≡ text.old.items }
{
    append_found(text, first)?;
    match second {
        Some(second) => append_found(text, second),
        None => Ok(()),
    }
}

fn append_found(text: &mut Vec<u8>, found: &FoundAt) -> Result<(), NoMemory>
    ensures ok { OnOk result (text.new.items ≡ text.old.items ++ then_words (spec.found_words found.now)) }
    ensures kept { take (length text.old.items) text.new.items ≡ text.old.items }
{
    append_numbers(text, b" found", &[u64::from(found.id)])?;
    text.extend_from_slice(bit_word(found.exact))?;
    append_number(text, u64::from(found.path_len))
}

fn append_mapped(text: &mut Vec<u8>, mapped: &Mapped) -> Result<(), NoMemory>
    ensures ok { OnOk result (text.new.items ≡ text.old.items ++ then_words (spec.kern_words (KernAnswer.Mapped mapped.now))) }
    ensures kept { take (length text.old.items) text.new.items ≡ text.old.items }
{
    append_numbers(
        text,
        b" mapped",
        &[
            u64::from(mapped.id),
            u64::from(mapped.key),
            u64::from(mapped.control),
            u64::from(mapped.root),
            u64::from(mapped.pages),
            u64::from(mapped.path_len),
        ],
    )
}

fn append_pages(text: &mut Vec<u8>, pages: &Pages) -> Result<(), NoMemory>
    ensures ok { OnOk result (text.new.items ≡ text.old.items ++ then_words (spec.kern_words (KernAnswer.Pages pages.now))) }
    ensures kept { take (length text.old.items) text.new.items ≡ text.old.items }
{
    text.extend_from_slice(b" pages")?;
    append_list(text, pages.as_slice())
}

fn append_denied(text: &mut Vec<u8>, right: Right) -> Result<(), NoMemory>
    ensures ok { OnOk result (text.new.items ≡ text.old.items ++ then_words (codes "refused" ∷ codes "denied" ∷ right_text right ∷ [])) }
    ensures kept { take (length text.old.items) text.new.items ≡ text.old.items }
{
    text.extend_from_slice(b" refused denied")?;
    text.extend_from_slice(right_word(right))
}

fn append_in_use_refusal(text: &mut Vec<u8>, thread: u16) -> Result<(), NoMemory>
    ensures ok { OnOk result (text.new.items ≡ text.old.items ++ then_words (codes "refused" ∷ codes "inuse" ∷ thread_name thread ∷ [])) }
    ensures kept { take (length text.old.items) text.new.items ≡ text.old.items }
{
    text.extend_from_slice(b" refused")?;
    append_in_use(text, thread)
}

#[cfg(test)]
mod tests {
    use super::*;
    use std::alloc::{AllocError, Global};
    use std::test::Fail;
    use tr_types::{FaultKind, Perm};

    const PERM: Perm = Perm {
        uid: 5,
        gid: 5,
        mode: 0o600,
    };

    fn path(alloc: Global, bytes: &[u8]) -> Result<Path, AllocError> {
        Ok(Path::new(Vec::from_slice(alloc, bytes)?))
    }

    fn is_action(alloc: Global, action: Action, words: &str) -> Result<bool, AllocError> {
        let mut text = Vec::new(alloc);
        append_action(&mut text, &action)?;
        Ok(text.as_slice() == words.as_bytes())
    }

    fn is_call(alloc: Global, kcall: Kcall, words: &str) -> Result<bool, AllocError> {
        let mut text = Vec::new(alloc);
        append_kernel(&mut text, &kcall)?;
        Ok(text.as_slice() == words.as_bytes())
    }

    fn is_answer(alloc: Global, answer: Answer, words: &str) -> Result<bool, AllocError> {
        let mut text = Vec::new(alloc);
        append_answer(&mut text, &answer)?;
        Ok(text.as_slice() == words.as_bytes())
    }

    fn is_kern(alloc: Global, answer: KernAnswer, words: &str) -> Result<bool, AllocError> {
        let mut text = Vec::new(alloc);
        append_kern(&mut text, &answer)?;
        Ok(text.as_slice() == words.as_bytes())
    }

    #[test]
    fn actions(rt: HostRuntime) -> Result<(), Fail> {
        for (action, words) in [
            (Action::Load(155720), " load 155720"),
            (
                Action::Store(159744, 18446744073709551615),
                " store 159744 18446744073709551615",
            ),
            (
                Action::Cas {
                    addr: 159752,
                    old: 0,
                    new: 4294967296001,
                },
                " cas 159752 0 4294967296001",
            ),
            (Action::Flush(162912), " flush 162912"),
            (Action::Fence, " fence"),
            (Action::Pkru(1431655760), " pkru 1431655760"),
        ] {
            assert!(rt; is_action(rt.alloc(), action, words)?, "{words}");
        }
        Ok(())
    }

    #[test]
    fn answers(rt: HostRuntime) -> Result<(), Fail> {
        for (answer, words) in [
            (Answer::Word(163840), " word 163840"),
            (Answer::Done, " done"),
            (Answer::Fault(FaultKind::NotMapped), " fault unmapped"),
            (Answer::Fault(FaultKind::NotWritable), " fault readonly"),
            (Answer::Fault(FaultKind::KeyDenied), " fault key"),
        ] {
            assert!(rt; is_answer(rt.alloc(), answer, words)?, "{words}");
        }
        Ok(())
    }

    #[test]
    fn calls_without_paths(rt: HostRuntime) -> Result<(), Fail> {
        for (kcall, words) in [
            (Kcall::Unmap { id: 1 }, " kernel unmap 1"),
            (
                Kcall::Delete {
                    id: 2,
                    parent: 1,
                    link: (159792, 1, 0),
                    guard: (155648, 4294967296001),
                },
                " kernel delete 2 1 159792 1 0 155648 4294967296001",
            ),
            (Kcall::Enlarge { id: 1, count: 2 }, " kernel enlarge 1 2"),
            (
                Kcall::Mode {
                    id: 256,
                    mode: 0o640,
                },
                " kernel mode 256 640",
            ),
            (Kcall::Recover { id: 2, ready: true }, " kernel recover 2 1"),
            (
                Kcall::Recover {
                    id: 3,
                    ready: false,
                },
                " kernel recover 3 0",
            ),
        ] {
            assert!(rt; is_call(rt.alloc(), kcall, words)?, "{words}");
        }
        Ok(())
    }

    #[test]
    fn finds_and_maps(rt: HostRuntime) -> Result<(), Fail> {
        let path_found = path(rt.alloc(), b"/a")?;
        let find = Kcall::Find {
            path: path_found,
            also: None,
        };
        assert!(rt; is_call(rt.alloc(), find, " kernel find /a")?);
        let path_mapped = path(rt.alloc(), b"/b")?;
        let map = Kcall::Map {
            path: path_mapped,
            right: Right::OWN,
            exclusive: true,
        };
        assert!(rt; is_call(rt.alloc(), map, " kernel map /b own exclusive")?);
        Ok(())
    }

    #[test]
    fn a_find_of_two_paths(rt: HostRuntime) -> Result<(), Fail> {
        let path_found = path(rt.alloc(), b"/a")?;
        let also = Some(path(rt.alloc(), b"/b/c")?);
        let find = Kcall::Find {
            path: path_found,
            also,
        };
        assert!(rt; is_call(rt.alloc(), find, " kernel find /a /b/c")?);
        Ok(())
    }

    #[test]
    fn a_coffer_comes(rt: HostRuntime) -> Result<(), Fail> {
        let path_made = path(rt.alloc(), b"/a")?;
        let new = Kcall::New {
            parent: 1,
            path: path_made,
            kind: 1,
            mode: 0o600,
            link: (162912, 0, 1),
            guard: (155648, 0),
        };
        assert!(rt;
            is_call(
                rt.alloc(),
                new,
                " kernel new 1 /a 1 600 162912 0 1 155648 0"
            )?
        );
        Ok(())
    }

    #[test]
    fn a_coffer_is_split_off(rt: HostRuntime) -> Result<(), Fail> {
        let path_split = path(rt.alloc(), b"/d/f")?;
        let pages = Pages::from_slice(rt.alloc(), &[41, 43, 42])?;
        let split = Kcall::Split {
            id: 1,
            path: path_split,
            pages,
            mode: 0o640,
            link: (164104, 167936, 1),
            guard: (159752, 7),
        };
        let words = " kernel split 1 /d/f 41,43,42 640 164104 167936 1 159752 7";
        assert!(rt; is_call(rt.alloc(), split, words)?);
        Ok(())
    }

    #[test]
    fn pages_go(rt: HostRuntime) -> Result<(), Fail> {
        let pages = Pages::from_slice(rt.alloc(), &[40])?;
        let shrink = Kcall::Shrink {
            id: 1,
            pages,
            guard: (159752, 7),
        };
        assert!(rt; is_call(rt.alloc(), shrink, " kernel shrink 1 40 159752 7")?);
        let pages = Pages::from_slice(rt.alloc(), &[44, 45])?;
        let merge = Kcall::Merge {
            child: 2,
            parent: 1,
            pages,
            link: (162912, 1, 180224),
            guard: (159752, 7),
        };
        assert!(rt;
            is_call(
                rt.alloc(),
                merge,
                " kernel merge 2 1 44,45 162912 1 180224 159752 7"
            )?
        );
        Ok(())
    }

    #[test]
    fn refusals(rt: HostRuntime) -> Result<(), Fail> {
        for (answer, words) in [
            (KernAnswer::NotHeld, " refused notheld"),
            (KernAnswer::BadPath, " refused badpath"),
            (
                KernAnswer::Denied {
                    right: Right::READ,
                    id: 2,
                    path_len: 2,
                },
                " refused denied read",
            ),
            (
                KernAnswer::Quarantined { id: 1, path_len: 1 },
                " refused quarantined",
            ),
            (
                KernAnswer::InUse {
                    thread: 255,
                    id: 2,
                    path_len: 2,
                },
                " refused inuse t256",
            ),
            (KernAnswer::NoKey { id: 1, path_len: 1 }, " refused nokey"),
            (KernAnswer::NotYours(40), " refused notyours 40"),
            (KernAnswer::Taken, " refused taken"),
            (KernAnswer::TooMany, " refused toomany"),
            (KernAnswer::NoCoffer, " refused nocoffer"),
            (KernAnswer::NotEmptyList, " refused notempty"),
            (KernAnswer::BadCount, " refused badcount"),
            (KernAnswer::NoMemory, " refused nomemory"),
        ] {
            assert!(rt; is_kern(rt.alloc(), answer, words)?, "{words}");
        }
        Ok(())
    }

    #[test]
    fn answers_of_the_kernel(rt: HostRuntime) -> Result<(), Fail> {
        let first = FoundAt {
            id: 1,
            exact: false,
            path_len: 1,
            perm: PERM,
        };
        let mapped = Mapped {
            id: 3,
            key: 2,
            control: 43,
            root: 44,
            pages: 12,
            path_len: 2,
            perm: PERM,
        };
        for (answer, words) in [
            (KernAnswer::Done, " done"),
            (KernAnswer::Same, " same"),
            (
                KernAnswer::Found {
                    first,
                    second: None,
                },
                " found 1 0 1",
            ),
            (KernAnswer::Mapped(mapped), " mapped 3 2 43 44 12 2"),
            (KernAnswer::Made(2), " made 2"),
            (
                KernAnswer::GuardFailed { addr: 8, word: 9 },
                " refused guard 8 9",
            ),
            (
                KernAnswer::LinkDiffers { addr: 8, word: 9 },
                " refused link 8 9",
            ),
            (
                KernAnswer::NoPages {
                    asked: 25,
                    free: 24,
                },
                " refused nopages 25 24",
            ),
        ] {
            assert!(rt; is_kern(rt.alloc(), answer, words)?, "{words}");
        }
        Ok(())
    }

    #[test]
    fn two_coffers_found_and_pages_given(rt: HostRuntime) -> Result<(), Fail> {
        let first = FoundAt {
            id: 2,
            exact: true,
            path_len: 4,
            perm: PERM,
        };
        let second = Some(FoundAt {
            id: 1,
            exact: false,
            path_len: 1,
            perm: PERM,
        });
        let found = KernAnswer::Found { first, second };
        assert!(rt; is_kern(rt.alloc(), found, " found 2 1 4 found 1 0 1")?);
        let pages = KernAnswer::Pages(Pages::from_slice(rt.alloc(), &[40, 41])?);
        assert!(rt; is_kern(rt.alloc(), pages, " pages 40,41")?);
        Ok(())
    }
}
