// What the entries of a trace print.
ghost use Rattle.std.specs.Prelude.{◌≡◌, ◌++◌, [], ◌∷◌, OnOk, OnErr, flat_map, codes, length, take};
ghost use Rattle.tr_text.specs.Spelling.{process_name, thread_name};
ghost use Rattle.tr_text.specs.Text as spec;
ghost use Rattle.tr_text.specs.Text.{line_text, then_words};
ghost use Rattle.tr_text.specs.Words as words;

use crate::actions::{append_action, append_answer, append_kcall};
use crate::calls::{append_command, append_path, append_reply};
use crate::words::{
    append_list, append_mode, append_number, append_numbers, append_process, append_thread,
    append_word, mark_word, state_word, why_word,
};
use pm_words::NoMemory;
use tr_types::{
    Action, Answer, CofferRow, Command, Cred, Entry, Kcall, Mark, Path, Pick, Reply, Why,
};

/// Appends what an entry prints in full: a line, and behind that of a list of coffers one for each of them. Where the
/// text finds no room, it is left as it was.
pub fn append_full_text(text: &mut Vec<u8>, entry: &Entry) -> Result<(), NoMemory>
    ensures ok { OnOk result (text.new.items ≡ text.old.items ++ spec.full_text entry.now) }
    ensures err { OnErr result (text.new.items ≡ text.old.items) }
{
    let start = text.len();
    let done = append_in_full(text, entry);
    if done.is_err() {
        text.truncate(start);
    }
    done
}

/// Appends what an entry prints in brief: a line of a reply, of the answer to a stray store or a wild action, of an end
/// or a note, and nothing of all else. Where the text finds no room, it is left as it was.
pub fn append_brief_text(text: &mut Vec<u8>, entry: &Entry) -> Result<(), NoMemory>
    ensures ok { OnOk result (text.new.items ≡ text.old.items ++ spec.brief_text entry.now) }
    ensures err { OnErr result (text.new.items ≡ text.old.items) }
{
    let before = text.len();
    let done = append_in_brief(text, entry);
    if done.is_err() {
        text.truncate(before);
    }
    done
}

fn append_in_brief(text: &mut Vec<u8>, entry: &Entry) -> Result<(), NoMemory>
    ensures ok { OnOk result (text.new.items ≡ text.old.items ++ spec.brief_text entry.now) }
    ensures kept { take (length text.old.items) text.new.items ≡ text.old.items }
{
    match entry {
        Entry::Reply { thread, reply } => append_brief_reply(text, *thread, reply),
        Entry::Stray { thread, answer, .. } => append_brief_answer(
            text, *thread, b" stray", answer,
        ),
        Entry::Wild { thread, answer, .. } => append_brief_answer(text, *thread, b" wild", answer),
        Entry::Corrupt(process) => append_process_line(text, *process, b" corrupt\n"),
        Entry::Kill(process) => append_process_line(text, *process, b" killed\n"),
        Entry::Crash { pick } | Entry::CrashIn { pick, .. } => append_crash(text, *pick),
        Entry::Recovered { ready, quarantined } => append_recovered(text, *ready, *quarantined),
        Entry::Lost { path } => append_path_line(text, b"lost", path),
        Entry::Skip { line, why } => append_skip(text, *line, *why),
        Entry::Quarantine { path } => append_path_line(text, b"quarantined", path),
        Entry::Coffers(rows) => append_rows(text, rows.as_slice()),
        _ => Ok(()),
    }
}

/// Appends the lines of an entry.
fn append_in_full(text: &mut Vec<u8>, entry: &Entry) -> Result<(), NoMemory>
    ensures ok { OnOk result (text.new.items ≡ text.old.items ++ spec.full_text entry.now) }
    ensures kept { take (length text.old.items) text.new.items ≡ text.old.items }
{
    match entry {
        Entry::Mkfs(pages) => append_line(text, b"mkfs", &[u64::from(*pages)]),
        Entry::Process { process, cred } => append_new_process(text, *process, cred.get()),
        Entry::Thread { thread, process } => append_new_thread(text, *thread, *process),
        Entry::Tick(ticks) => append_line(text, b"tick", &[u64::from(*ticks)]),
        Entry::Call { thread, command } => append_call(text, *thread, command),
        Entry::Act { .. } | Entry::Stray { .. } | Entry::Wild { .. } => append_answered(
            text, entry,
        ),
        Entry::Reply { thread, reply } => append_full_reply(text, *thread, reply),
        Entry::Corrupt(process) => append_process_line(text, *process, b" corrupt\n"),
        Entry::Kill(process) => append_process_line(text, *process, b" killed\n"),
        Entry::Crash { pick } => append_crash(text, *pick),
        Entry::CrashIn {
            thread,
            now,
            call,
            k,
            pick,
        } => append_crash_in(text, *thread, *now, call.get(), *k, *pick),
        Entry::Recovery { action } => append_recovery(text, action),
        Entry::Recovered { ready, quarantined } => append_recovered(text, *ready, *quarantined),
        Entry::Lost { path } => append_path_line(text, b"lost", path),
        Entry::Skip { line, why } => append_skip(text, *line, *why),
        Entry::Quarantine { path } => append_path_line(text, b"quarantined", path),
        Entry::Coffers(rows) => append_coffers(text, rows.as_slice()),
    }
}

/// Appends the line of what a thread did and how it was answered.
fn append_answered(text: &mut Vec<u8>, entry: &Entry) -> Result<(), NoMemory>
    requires { spec.IsAnswered entry.now }
    ensures ok { OnOk result (text.new.items ≡ text.old.items ++ spec.full_text entry.now) }
    ensures kept { take (length text.old.items) text.new.items ≡ text.old.items }
{
    match entry {
        Entry::Act {
            thread,
            now,
            mark,
            action,
            answer,
        } => append_act(text, *thread, *now, *mark, action, answer),
        Entry::Stray {
            thread,
            addr,
            word,
            answer,
        } => append_stray(text, *thread, *addr, *word, answer),
        Entry::Wild {
            thread,
            now,
            action,
            answer,
        } => append_wild(text, *thread, *now, action, answer),
        _ => unreachable!(),
    }
}

/// Appends a line of a word and numbers.
fn append_line(text: &mut Vec<u8>, word: &[u8], numbers: &[u64]) -> Result<(), NoMemory>
    ensures ok { OnOk result (text.new.items ≡ text.old.items ++ word.now ++ flat_map spec.then_number numbers.now ++ 10 ∷ []) }
    ensures kept { take (length text.old.items) text.new.items ≡ text.old.items }
{
    append_numbers(text, word, numbers)?;
    text.push(b'\n')?;
    Ok(())
}

fn append_new_process(text: &mut Vec<u8>, process: u8, cred: &Cred) -> Result<(), NoMemory>
    ensures ok { OnOk result (text.new.items ≡ text.old.items ++ spec.full_text (Entry.Process process cred.now)) }
    ensures kept { take (length text.old.items) text.new.items ≡ text.old.items }
{
    text.extend_from_slice(b"new ")?;
    append_process(text, process)?;
    append_numbers(text, b"", &[u64::from(cred.uid), u64::from(cred.gid)])?;
    append_groups(text, cred.groups.as_slice())?;
    text.push(b'\n')?;
    Ok(())
}

/// Appends further groups, where there are any.
fn append_groups(text: &mut Vec<u8>, ids: &[u32]) -> Result<(), NoMemory>
    ensures ok { OnOk result (text.new.items ≡ text.old.items ++ then_words (words.groups_words ids.now)) }
    ensures kept { take (length text.old.items) text.new.items ≡ text.old.items }
{
    if ids.is_empty() {
        return Ok(());
    }
    append_list(text, ids)
}

fn append_new_thread(text: &mut Vec<u8>, thread: u16, process: u8) -> Result<(), NoMemory>
    ensures ok { OnOk result (text.new.items ≡ text.old.items ++ spec.full_text (Entry.Thread thread process)) }
    ensures kept { take (length text.old.items) text.new.items ≡ text.old.items }
{
    text.extend_from_slice(b"new ")?;
    append_thread(text, thread)?;
    text.push(b' ')?;
    append_process(text, process)?;
    text.push(b'\n')?;
    Ok(())
}

fn append_call(text: &mut Vec<u8>, thread: u16, command: &Command) -> Result<(), NoMemory>
    ensures ok { OnOk result (text.new.items ≡ text.old.items ++ spec.full_text (Entry.Call thread command.now)) }
    ensures kept { take (length text.old.items) text.new.items ≡ text.old.items }
{
    append_thread(text, thread)?;
    text.extend_from_slice(b" call")?;
    append_command(text, command)?;
    text.push(b'\n')?;
    Ok(())
}

fn append_act(
    text: &mut Vec<u8>,
    thread: u16,
    now: u32,
    mark: Mark,
    action: &Action,
    answer: &Answer,
) -> Result<(), NoMemory>
    ensures ok { OnOk result (text.new.items ≡ text.old.items ++ spec.full_text (Entry.Act thread now mark action.now answer.now)) }
    ensures kept { take (length text.old.items) text.new.items ≡ text.old.items }
{
    append_thread(text, thread)?;
    append_number(text, u64::from(now))?;
    text.extend_from_slice(mark_word(mark))?;
    append_with_answer(text, action, answer)
}

fn append_wild(
    text: &mut Vec<u8>,
    thread: u16,
    now: u32,
    action: &Action,
    answer: &Answer,
) -> Result<(), NoMemory>
    ensures ok { OnOk result (text.new.items ≡ text.old.items ++ spec.full_text (Entry.Wild thread now action.now answer.now)) }
    ensures kept { take (length text.old.items) text.new.items ≡ text.old.items }
{
    append_thread(text, thread)?;
    append_numbers(text, b" wild", &[u64::from(now)])?;
    append_with_answer(text, action, answer)
}

/// Appends an action and its answer, to the line's end.
fn append_with_answer(text: &mut Vec<u8>, action: &Action, answer: &Answer) -> Result<(), NoMemory>
    ensures ok { OnOk result (text.new.items ≡ text.old.items ++ then_words (words.answered_words action.now answer.now) ++ 10 ∷ []) }
    ensures kept { take (length text.old.items) text.new.items ≡ text.old.items }
{
    append_action(text, action)?;
    // What most actions are answered goes in one piece.
    if let Answer::Done = answer {
        return text.extend_from_slice(b" = done\n");
    }
    text.extend_from_slice(b" =")?;
    append_answer(text, answer)?;
    text.push(b'\n')?;
    Ok(())
}

fn append_stray(
    text: &mut Vec<u8>,
    thread: u16,
    addr: u64,
    word: u64,
    answer: &Answer,
) -> Result<(), NoMemory>
    ensures ok { OnOk result (text.new.items ≡ text.old.items ++ spec.full_text (Entry.Stray thread addr word answer.now)) }
    ensures kept { take (length text.old.items) text.new.items ≡ text.old.items }
{
    append_thread(text, thread)?;
    append_numbers(text, b" stray", &[addr, word])?;
    text.extend_from_slice(b" =")?;
    append_answer(text, answer)?;
    text.push(b'\n')?;
    Ok(())
}

/// Appends in brief how a stray store or a wild action was answered.
fn append_brief_answer(
    text: &mut Vec<u8>,
    thread: u16,
    word: &[u8],
    answer: &Answer,
) -> Result<(), NoMemory>
    ensures ok { OnOk result (text.new.items ≡ text.old.items ++ thread_name thread ++ word.now ++ then_words (words.answer_words answer.now) ++ 10 ∷ []) }
    ensures kept { take (length text.old.items) text.new.items ≡ text.old.items }
{
    append_thread(text, thread)?;
    text.extend_from_slice(word)?;
    append_answer(text, answer)?;
    text.push(b'\n')?;
    Ok(())
}

fn append_full_reply(text: &mut Vec<u8>, thread: u16, reply: &Reply) -> Result<(), NoMemory>
    ensures ok { OnOk result (text.new.items ≡ text.old.items ++ spec.full_text (Entry.Reply thread reply.now)) }
    ensures kept { take (length text.old.items) text.new.items ≡ text.old.items }
{
    append_thread(text, thread)?;
    text.extend_from_slice(b" reply")?;
    append_reply(text, reply)?;
    text.push(b'\n')?;
    Ok(())
}

fn append_brief_reply(text: &mut Vec<u8>, thread: u16, reply: &Reply) -> Result<(), NoMemory>
    ensures ok { OnOk result (text.new.items ≡ text.old.items ++ spec.brief_text (Entry.Reply thread reply.now)) }
    ensures kept { take (length text.old.items) text.new.items ≡ text.old.items }
{
    append_thread(text, thread)?;
    append_reply(text, reply)?;
    text.push(b'\n')?;
    Ok(())
}

/// Appends the name of a process and the rest of the line.
fn append_process_line(text: &mut Vec<u8>, process: u8, rest: &[u8]) -> Result<(), NoMemory>
    ensures ok { OnOk result (text.new.items ≡ text.old.items ++ process_name process ++ rest.now) }
    ensures kept { take (length text.old.items) text.new.items ≡ text.old.items }
{
    append_process(text, process)?;
    text.extend_from_slice(rest)
}

fn append_crash(text: &mut Vec<u8>, pick: Pick) -> Result<(), NoMemory>
    ensures ok { OnOk result (text.new.items ≡ text.old.items ++ spec.full_text (Entry.Crash pick)) }
    ensures kept { take (length text.old.items) text.new.items ≡ text.old.items }
{
    text.extend_from_slice(b"crash")?;
    append_pick(text, pick)?;
    text.push(b'\n')?;
    Ok(())
}

/// Appends which values a crash leaves, each word after a space.
fn append_pick(text: &mut Vec<u8>, pick: Pick) -> Result<(), NoMemory>
    ensures ok { OnOk result (text.new.items ≡ text.old.items ++ then_words (words.pick_words pick)) }
    ensures kept { take (length text.old.items) text.new.items ≡ text.old.items }
{
    match pick {
        Pick::All => text.extend_from_slice(b" all"),
        Pick::None => text.extend_from_slice(b" none"),
        Pick::Seed(seed) => append_numbers(text, b" seed", &[seed]),
    }
}

fn append_crash_in(
    text: &mut Vec<u8>,
    thread: u16,
    now: u32,
    call: &Kcall,
    k: u32,
    pick: Pick,
) -> Result<(), NoMemory>
    ensures ok { OnOk result (text.new.items ≡ text.old.items ++ spec.full_text (Entry.CrashIn thread now call.now k pick)) }
    ensures kept { take (length text.old.items) text.new.items ≡ text.old.items }
{
    text.extend_from_slice(b"crashin ")?;
    append_thread(text, thread)?;
    append_numbers(text, b"", &[u64::from(now), u64::from(k)])?;
    append_pick(text, pick)?;
    append_kcall(text, call)?;
    text.push(b'\n')?;
    Ok(())
}

fn append_recovery(text: &mut Vec<u8>, action: &Action) -> Result<(), NoMemory>
    ensures ok { OnOk result (text.new.items ≡ text.old.items ++ spec.full_text (Entry.Recovery action.now)) }
    ensures kept { take (length text.old.items) text.new.items ≡ text.old.items }
{
    text.push(b'r')?;
    append_action(text, action)?;
    text.push(b'\n')?;
    Ok(())
}

fn append_recovered(text: &mut Vec<u8>, ready: u32, quarantined: u32) -> Result<(), NoMemory>
    ensures ok { OnOk result (text.new.items ≡ text.old.items ++ spec.full_text (Entry.Recovered ready quarantined)) }
    ensures kept { take (length text.old.items) text.new.items ≡ text.old.items }
{
    append_line(
        text,
        b"recovered",
        &[u64::from(ready), u64::from(quarantined)],
    )
}

/// Appends a line of a word and a path.
fn append_path_line(text: &mut Vec<u8>, word: &[u8], path: &Path) -> Result<(), NoMemory>
    ensures ok { OnOk result (text.new.items ≡ text.old.items ++ line_text (word.now ∷ path.now ∷ [])) }
    ensures kept { take (length text.old.items) text.new.items ≡ text.old.items }
{
    text.extend_from_slice(word)?;
    append_word(text, path.as_bytes())?;
    text.push(b'\n')?;
    Ok(())
}

fn append_skip(text: &mut Vec<u8>, line: u32, why: Why) -> Result<(), NoMemory>
    ensures ok { OnOk result (text.new.items ≡ text.old.items ++ spec.full_text (Entry.Skip line why)) }
    ensures kept { take (length text.old.items) text.new.items ≡ text.old.items }
{
    append_numbers(text, b"skip", &[u64::from(line)])?;
    text.extend_from_slice(why_word(why))?;
    text.push(b'\n')?;
    Ok(())
}

fn append_coffers(text: &mut Vec<u8>, rows: &[CofferRow]) -> Result<(), NoMemory>
    ensures ok { OnOk result (text.new.items ≡ text.old.items ++ spec.full_text (Entry.Coffers rows.now)) }
    ensures kept { take (length text.old.items) text.new.items ≡ text.old.items }
{
    append_line(text, b"coffers", &[rows.len() as u64])?;
    append_rows(text, rows)
}

/// Appends a line for each coffer.
fn append_rows(text: &mut Vec<u8>, rows: &[CofferRow]) -> Result<(), NoMemory>
    ensures ok { OnOk result (text.new.items ≡ text.old.items ++ spec.rows_text rows.now) }
    ensures kept { take (length text.old.items) text.new.items ≡ text.old.items }
{
    for row in rows {
        append_row(text, row)?;
    }
    Ok(())
}

fn append_row(text: &mut Vec<u8>, row: &CofferRow) -> Result<(), NoMemory>
    ensures ok { OnOk result (text.new.items ≡ text.old.items ++ line_text (words.row_words row.now)) }
    ensures kept { take (length text.old.items) text.new.items ≡ text.old.items }
{
    append_path(text, b"coffer ", &row.path)?;
    append_numbers(
        text,
        b"",
        &[u64::from(row.perm.uid), u64::from(row.perm.gid)],
    )?;
    append_mode(text, row.perm.mode)?;
    text.extend_from_slice(state_word(row.state))?;
    text.push(b'\n')?;
    Ok(())
}

#[cfg(test)]
mod tests {
    use super::*;
    use sqlite_items::Boxed;
    use std::alloc::{AllocError, Global};
    use std::test::Fail;
    use tr_types::{CofferList, CofferState, FaultKind, Groups, KernAnswer, Perm};

    fn path(alloc: Global, bytes: &[u8]) -> Result<Path, AllocError> {
        Ok(Path::new(Vec::from_slice(alloc, bytes)?))
    }

    fn in_full(alloc: Global, entry: &Entry, text: &str) -> Result<bool, AllocError> {
        let mut printed = Vec::new(alloc);
        append_full_text(&mut printed, entry)?;
        Ok(printed.as_slice() == text.as_bytes())
    }

    fn in_brief(alloc: Global, entry: &Entry, text: &str) -> Result<bool, AllocError> {
        let mut printed = Vec::new(alloc);
        append_brief_text(&mut printed, entry)?;
        Ok(printed.as_slice() == text.as_bytes())
    }

    // Its text in full, and in brief.
    fn prints(alloc: Global, entry: Entry, full: &str, brief: &str) -> Result<bool, AllocError> {
        Ok(in_full(alloc, &entry, full)? && in_brief(alloc, &entry, brief)?)
    }

    #[test]
    fn what_starts_something(rt: HostRuntime) -> Result<(), Fail> {
        let root = Boxed::new(rt.alloc(), Cred::new(0, 0))?;
        let process = Entry::Process {
            process: 0,
            cred: root,
        };
        assert!(rt; prints(rt.alloc(), process, "new p1 0 0\n", "")?);
        for (entry, full) in [
            (Entry::Mkfs(64), "mkfs 64\n"),
            (
                Entry::Thread {
                    thread: 255,
                    process: 63,
                },
                "new t256 p64\n",
            ),
            (Entry::Tick(1001), "tick 1001\n"),
        ] {
            assert!(rt; prints(rt.alloc(), entry, full, "")?, "{full}");
        }
        Ok(())
    }

    #[test]
    fn a_process_with_further_groups(rt: HostRuntime) -> Result<(), Fail> {
        let cred = Cred {
            uid: 1001,
            gid: 4294967295,
            groups: Groups::new(&[7, 5]).unwrap_or(Groups::NONE),
        };
        let process = Entry::Process {
            process: 1,
            cred: Boxed::new(rt.alloc(), cred)?,
        };
        assert!(rt; prints(rt.alloc(), process, "new p2 1001 4294967295 7,5\n", "")?);
        Ok(())
    }

    #[test]
    fn a_call_and_its_reply(rt: HostRuntime) -> Result<(), Fail> {
        let created = path(rt.alloc(), b"/f")?;
        let call = Entry::Call {
            thread: 0,
            command: Command::Create {
                path: created,
                mode: 0o666,
            },
        };
        assert!(rt; prints(rt.alloc(), call, "t1 call create /f 666\n", "")?);
        let reply = Entry::Reply {
            thread: 11,
            reply: Reply::Made,
        };
        assert!(rt; prints(rt.alloc(), reply, "t12 reply made\n", "t12 made\n")?);
        Ok(())
    }

    fn act(mark: Mark, action: Action, answer: Answer) -> Entry {
        Entry::Act {
            thread: 11,
            now: 1000,
            mark,
            action,
            answer,
        }
    }

    #[test]
    fn actions_of_a_call(rt: HostRuntime) -> Result<(), Fail> {
        for (mark, full) in [
            (Mark::Plain, "t12 1000 plain load 8 = word 7\n"),
            (Mark::Open, "t12 1000 open load 8 = word 7\n"),
            (Mark::Close, "t12 1000 close load 8 = word 7\n"),
            (Mark::Take, "t12 1000 take load 8 = word 7\n"),
            (Mark::Note, "t12 1000 note load 8 = word 7\n"),
            (Mark::Check, "t12 1000 check load 8 = word 7\n"),
            (Mark::Point, "t12 1000 point load 8 = word 7\n"),
            (Mark::Commit, "t12 1000 commit load 8 = word 7\n"),
        ] {
            let entry = act(mark, Action::Load(8), Answer::Word(7));
            assert!(rt; prints(rt.alloc(), entry, full, "")?, "{full}");
        }
        Ok(())
    }

    #[test]
    fn a_store_that_faulted(rt: HostRuntime) -> Result<(), Fail> {
        let store = act(
            Mark::Commit,
            Action::Store(163528, 164096),
            Answer::Fault(FaultKind::KeyDenied),
        );
        let full = "t12 1000 commit store 163528 164096 = fault key\n";
        assert!(rt; prints(rt.alloc(), store, full, "")?);
        Ok(())
    }

    fn stray(answer: Answer) -> Entry {
        Entry::Stray {
            thread: 11,
            addr: 159744,
            word: 7,
            answer,
        }
    }

    #[test]
    fn stray_stores(rt: HostRuntime) -> Result<(), Fail> {
        for (answer, full, brief) in [
            (
                Answer::Done,
                "t12 stray 159744 7 = done\n",
                "t12 stray done\n",
            ),
            (
                Answer::Fault(FaultKind::NotMapped),
                "t12 stray 159744 7 = fault unmapped\n",
                "t12 stray fault unmapped\n",
            ),
            (
                Answer::Fault(FaultKind::NotWritable),
                "t12 stray 159744 7 = fault readonly\n",
                "t12 stray fault readonly\n",
            ),
            (
                Answer::Fault(FaultKind::KeyDenied),
                "t12 stray 159744 7 = fault key\n",
                "t12 stray fault key\n",
            ),
        ] {
            assert!(rt; prints(rt.alloc(), stray(answer), full, brief)?, "{full}");
        }
        Ok(())
    }

    #[test]
    fn a_wild_kernel_call(rt: HostRuntime) -> Result<(), Fail> {
        let kcall = Boxed::new(rt.alloc(), Kcall::Enlarge { id: 1, count: 25 })?;
        let refusal = KernAnswer::NoPages {
            asked: 25,
            free: 24,
        };
        let entry = Entry::Wild {
            thread: 1,
            now: 0,
            action: Action::Kernel(kcall),
            answer: Answer::Kern(Boxed::new(rt.alloc(), refusal)?),
        };
        let full = "t2 wild 0 kernel enlarge 1 25 = refused nopages 25 24\n";
        let brief = "t2 wild refused nopages 25 24\n";
        assert!(rt; prints(rt.alloc(), entry, full, brief)?);
        Ok(())
    }

    #[test]
    fn ends_and_recoveries(rt: HostRuntime) -> Result<(), Fail> {
        for (entry, line) in [
            (Entry::Corrupt(1), "p2 corrupt\n"),
            (Entry::Kill(0), "p1 killed\n"),
            (Entry::Crash { pick: Pick::None }, "crash none\n"),
            (Entry::Crash { pick: Pick::All }, "crash all\n"),
            (
                Entry::Crash {
                    pick: Pick::Seed(9),
                },
                "crash seed 9\n",
            ),
            (
                Entry::Recovered {
                    ready: 4,
                    quarantined: 1,
                },
                "recovered 4 1\n",
            ),
        ] {
            assert!(rt; prints(rt.alloc(), entry, line, line)?, "{line}");
        }
        let step = Entry::Recovery {
            action: Action::Flush(155648),
        };
        assert!(rt; prints(rt.alloc(), step, "r flush 155648\n", "")?);
        Ok(())
    }

    #[test]
    fn a_crash_inside_a_kernel_call(rt: HostRuntime) -> Result<(), Fail> {
        let call = Boxed::new(rt.alloc(), Kcall::Unmap { id: 1 })?;
        let entry = Entry::CrashIn {
            thread: 0,
            now: 3,
            call,
            k: 1000000,
            pick: Pick::Seed(9),
        };
        let full = "crashin t1 3 1000000 seed 9 unmap 1\n";
        assert!(rt; prints(rt.alloc(), entry, full, "crash seed 9\n")?);
        Ok(())
    }

    #[test]
    fn lines_passed_over(rt: HostRuntime) -> Result<(), Fail> {
        for (why, line) in [
            (Why::Dead, "skip 16 dead\n"),
            (Why::Running, "skip 16 running\n"),
            (Why::Sound, "skip 16 sound\n"),
            (Why::Down, "skip 16 down\n"),
            (Why::Up, "skip 16 up\n"),
            (Why::NotKernel, "skip 16 notkernel\n"),
            (Why::NoThread, "skip 16 nothread\n"),
        ] {
            let skip = Entry::Skip { line: 16, why };
            assert!(rt; prints(rt.alloc(), skip, line, line)?, "{line}");
        }
        Ok(())
    }

    #[test]
    fn notes_of_coffers(rt: HostRuntime) -> Result<(), Fail> {
        let lost = Entry::Lost {
            path: path(rt.alloc(), b"/")?,
        };
        assert!(rt; prints(rt.alloc(), lost, "lost /\n", "lost /\n")?);
        let quarantine = Entry::Quarantine {
            path: path(rt.alloc(), b"/d")?,
        };
        assert!(rt;
            prints(
                rt.alloc(),
                quarantine,
                "quarantined /d\n",
                "quarantined /d\n"
            )?
        );
        Ok(())
    }

    fn row(alloc: Global, bytes: &[u8], state: CofferState) -> Result<CofferRow, AllocError> {
        Ok(CofferRow {
            path: path(alloc, bytes)?,
            perm: Perm {
                uid: 5,
                gid: 6,
                mode: 0o640,
            },
            state,
        })
    }

    #[test]
    fn a_list_of_coffers(rt: HostRuntime) -> Result<(), Fail> {
        let mut rows = CofferList::new(rt.alloc());
        rows.push(row(rt.alloc(), b"/", CofferState::Ready)?)?;
        rows.push(row(rt.alloc(), b"/d", CofferState::Lost)?)?;
        let coffers = Entry::Coffers(rows);
        let brief = "coffer / 5 6 640 ready\ncoffer /d 5 6 640 lost\n";
        assert!(rt; in_brief(rt.alloc(), &coffers, brief)?);
        let full = "coffers 2\ncoffer / 5 6 640 ready\ncoffer /d 5 6 640 lost\n";
        assert!(rt; in_full(rt.alloc(), &coffers, full)?);
        Ok(())
    }
}
