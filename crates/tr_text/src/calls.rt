// What calls are asked and told: commands and replies.
ghost use Rattle.std.specs.Prelude.{◌≡◌, ◌++◌, ◌∷◌, OnOk, codes, length, take};
ghost use Rattle.tr_text.specs.Text.{then_words};
ghost use Rattle.tr_text.specs.Words as spec;

use crate::words::{
    append_data, append_list, append_mode, append_names, append_number, append_numbers,
    append_thread, append_word, kind_word, right_word,
};
use pm_words::NoMemory;
use tr_types::{Command, Kind, Name, Path, Reply, Right};

/// Appends a command, each of its words after a space.
pub(crate) fn append_command(text: &mut Vec<u8>, command: &Command) -> Result<(), NoMemory>
    ensures ok { OnOk result (text.new.items ≡ text.old.items ++ then_words (spec.command_words command.now)) }
    ensures kept { take (length text.old.items) text.new.items ≡ text.old.items }
{
    match command {
        Command::Create { path, mode } => append_create(text, path, *mode),
        Command::Stat { path } => append_path(text, b" stat ", path),
    }
}

fn append_create(text: &mut Vec<u8>, path: &Path, mode: u16) -> Result<(), NoMemory>
    ensures ok { OnOk result (text.new.items ≡ text.old.items ++ then_words (spec.command_words (Command.Create path.now mode))) }
    ensures kept { take (length text.old.items) text.new.items ≡ text.old.items }
{
    append_path(text, b" create ", path)?;
    append_mode(text, mode)
}

/// Appends what stands before a path, and the path.
pub(crate) fn append_path(text: &mut Vec<u8>, before: &[u8], path: &Path) -> Result<(), NoMemory>
    ensures ok { OnOk result (text.new.items ≡ text.old.items ++ before.now ++ path.now) }
    ensures kept { take (length text.old.items) text.new.items ≡ text.old.items }
{
    text.extend_from_slice(before)?;
    text.extend_from_slice(path.as_bytes())
}

/// Appends what a call is told, each word after a space.
pub(crate) fn append_reply(text: &mut Vec<u8>, reply: &Reply) -> Result<(), NoMemory>
    ensures ok { OnOk result (text.new.items ≡ text.old.items ++ then_words (spec.reply_words reply.now)) }
    ensures kept { take (length text.old.items) text.new.items ≡ text.old.items }
{
    match *reply {
        Reply::Made => text.extend_from_slice(b" made"),
        Reply::Gone => text.extend_from_slice(b" gone"),
        Reply::Wrote(count) => append_numbers(text, b" wrote", &[count]),
        Reply::Cut => text.extend_from_slice(b" cut"),
        Reply::Data(ref bytes) => append_data_reply(text, bytes.as_slice()),
        Reply::Info(kind, size, uid, gid, mode) => append_info(text, kind, size, uid, gid, mode),
        Reply::Names(ref names) => append_names_reply(text, names.as_slice()),
        Reply::Moded => text.extend_from_slice(b" moded"),
        Reply::Moved => text.extend_from_slice(b" moved"),
        Reply::Denied(right, ref path) => append_denied(text, right, path),
        Reply::NotFound => text.extend_from_slice(b" notfound"),
        Reply::NotDir => text.extend_from_slice(b" notdir"),
        Reply::Exists => text.extend_from_slice(b" exists"),
        Reply::IsDir => text.extend_from_slice(b" isdir"),
        Reply::NotEmpty => text.extend_from_slice(b" notempty"),
        Reply::TooBig(end) => append_numbers(text, b" toobig", &[end]),
        Reply::TooLong => text.extend_from_slice(b" toolong"),
        Reply::CrossCoffer => text.extend_from_slice(b" crosscoffer"),
        Reply::TooMany => text.extend_from_slice(b" toomany"),
        Reply::NoSpace { need, free } => {
            append_numbers(text, b" nospace", &[u64::from(need), u64::from(free)])
        }
        Reply::Quarantined => text.extend_from_slice(b" quarantined"),
        Reply::Busy { addr, word, now } => {
            append_numbers(text, b" busy", &[addr, word, u64::from(now)])
        }
        Reply::Expired { addr, word } => append_numbers(text, b" expired", &[addr, word]),
        Reply::NoKey => text.extend_from_slice(b" nokey"),
        Reply::InUse { thread } => append_in_use(text, thread),
        Reply::Again { times } => append_numbers(text, b" again", &[u64::from(times)]),
        Reply::Damaged { addr } => append_numbers(text, b" damaged", &[addr]),
    }
}

/// Appends which thread has a coffer.
pub(crate) fn append_in_use(text: &mut Vec<u8>, thread: u16) -> Result<(), NoMemory>
    ensures ok { OnOk result (text.new.items ≡ text.old.items ++ then_words (spec.reply_words (Reply.InUse thread))) }
    ensures kept { take (length text.old.items) text.new.items ≡ text.old.items }
{
    text.extend_from_slice(b" inuse ")?;
    append_thread(text, thread)
}

fn append_denied(text: &mut Vec<u8>, right: Right, path: &Path) -> Result<(), NoMemory>
    ensures ok { OnOk result (text.new.items ≡ text.old.items ++ then_words (spec.reply_words (Reply.Denied right path.now))) }
    ensures kept { take (length text.old.items) text.new.items ≡ text.old.items }
{
    text.extend_from_slice(b" denied")?;
    text.extend_from_slice(right_word(right))?;
    append_word(text, path.as_bytes())
}

fn append_info(
    text: &mut Vec<u8>,
    kind: Kind,
    size: u64,
    uid: u32,
    gid: u32,
    mode: u16,
) -> Result<(), NoMemory>
    ensures ok { OnOk result (text.new.items ≡ text.old.items ++ then_words (spec.reply_words (Reply.Info kind size uid gid mode))) }
    ensures kept { take (length text.old.items) text.new.items ≡ text.old.items }
{
    text.extend_from_slice(b" info")?;
    append_numbers(
        text,
        kind_word(kind),
        &[size, u64::from(uid), u64::from(gid)],
    )?;
    append_mode(text, mode)
}

fn append_data_reply(text: &mut Vec<u8>, bytes: &[u8]) -> Result<(), NoMemory>
    ensures ok { OnOk result (text.new.items ≡ text.old.items ++ then_words (spec.reply_words (Reply.Data bytes.now))) }
    ensures kept { take (length text.old.items) text.new.items ≡ text.old.items }
{
    text.extend_from_slice(b" data")?;
    append_data(text, bytes)
}

fn append_names_reply(text: &mut Vec<u8>, names: &[Name]) -> Result<(), NoMemory>
    ensures ok { OnOk result (text.new.items ≡ text.old.items ++ then_words (spec.reply_words (Reply.Names names.now))) }
    ensures kept { take (length text.old.items) text.new.items ≡ text.old.items }
{
    append_numbers(text, b" names", &[names.len() as u64])?;
    append_names(text, names)
}

#[cfg(test)]
mod tests {
    use super::*;
    use std::alloc::{AllocError, Global};
    use std::test::Fail;
    use tr_types::{Bytes, Names};

    fn path(alloc: Global, bytes: &[u8]) -> Result<Path, AllocError> {
        Ok(Path::new(Vec::from_slice(alloc, bytes)?))
    }

    fn names(alloc: Global, names: &[&[u8]]) -> Result<Names, AllocError> {
        let mut made = Names::new(alloc);
        for &name in names {
            made.push(Name::new(Vec::from_slice(alloc, name)?))?;
        }
        Ok(made)
    }

    fn is_reply(alloc: Global, reply: Reply, words: &str) -> Result<bool, AllocError> {
        let mut text = Vec::new(alloc);
        append_reply(&mut text, &reply)?;
        Ok(text.as_slice() == words.as_bytes())
    }

    fn is_command(alloc: Global, command: Command, words: &str) -> Result<bool, AllocError> {
        let mut text = Vec::new(alloc);
        append_command(&mut text, &command)?;
        Ok(text.as_slice() == words.as_bytes())
    }

    #[test]
    fn replies_of_one_word(rt: HostRuntime) -> Result<(), Fail> {
        for (reply, words) in [
            (Reply::Made, " made"),
            (Reply::Gone, " gone"),
            (Reply::Cut, " cut"),
            (Reply::Moded, " moded"),
            (Reply::Moved, " moved"),
            (Reply::NotFound, " notfound"),
            (Reply::NotDir, " notdir"),
            (Reply::Exists, " exists"),
            (Reply::IsDir, " isdir"),
            (Reply::NotEmpty, " notempty"),
            (Reply::TooLong, " toolong"),
            (Reply::CrossCoffer, " crosscoffer"),
            (Reply::TooMany, " toomany"),
            (Reply::Quarantined, " quarantined"),
            (Reply::NoKey, " nokey"),
        ] {
            assert!(rt; is_reply(rt.alloc(), reply, words)?, "{words}");
        }
        Ok(())
    }

    #[test]
    fn replies_with_numbers(rt: HostRuntime) -> Result<(), Fail> {
        for (reply, words) in [
            (Reply::Wrote(5), " wrote 5"),
            (
                Reply::Info(Kind::Dir, 0, 1, 4294967295, 0o604),
                " info dir 0 1 4294967295 604",
            ),
            (Reply::TooBig(2088961), " toobig 2088961"),
            (Reply::NoSpace { need: 31, free: 22 }, " nospace 31 22"),
            (
                Reply::Busy {
                    addr: 159752,
                    word: 4294967296001,
                    now: 1000,
                },
                " busy 159752 4294967296001 1000",
            ),
            (
                Reply::Expired {
                    addr: 159752,
                    word: 4294967296001,
                },
                " expired 159752 4294967296001",
            ),
            (Reply::InUse { thread: 0 }, " inuse t1"),
            (Reply::Again { times: 8 }, " again 8"),
            (Reply::Damaged { addr: 161792 }, " damaged 161792"),
        ] {
            assert!(rt; is_reply(rt.alloc(), reply, words)?, "{words}");
        }
        Ok(())
    }

    #[test]
    fn replies_with_bytes(rt: HostRuntime) -> Result<(), Fail> {
        let data = Bytes::from_slice(rt.alloc(), &[0, 9, 10, 255])?;
        assert!(rt; is_reply(rt.alloc(), Reply::Data(data), " data 00090aff")?);
        let none = Reply::Data(Bytes::new(rt.alloc()));
        assert!(rt; is_reply(rt.alloc(), none, " data -")?);
        let names = names(rt.alloc(), &[b"a", b"bH"])?;
        assert!(rt; is_reply(rt.alloc(), Reply::Names(names), " names 2 a bH")?);
        Ok(())
    }

    #[test]
    fn words_with_paths(rt: HostRuntime) -> Result<(), Fail> {
        let denied = Reply::Denied(Right::WRITE, path(rt.alloc(), b"/d/f")?);
        assert!(rt; is_reply(rt.alloc(), denied, " denied write /d/f")?);
        let path_of_create = path(rt.alloc(), b"/f")?;
        let create = Command::Create {
            path: path_of_create,
            mode: 0o666,
        };
        assert!(rt; is_command(rt.alloc(), create, " create /f 666")?);
        let stat = Command::Stat {
            path: path(rt.alloc(), b"/")?,
        };
        assert!(rt; is_command(rt.alloc(), stat, " stat /")?);
        Ok(())
    }
}
