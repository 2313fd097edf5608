// Runs beside the slow program of what the file system answers.
use super::run_text;
use pm_words::NoMemory;
use std::alloc::Global;
use tr_answer::Coffers;
use tr_top::Status;
use tr_types::{Command, Cred, Kind, Path, Reply};

/// A command, by its path.
#[derive(Clone, Copy, Debug)]
enum Ask<'a> {
    Create(&'a str),
    Stat(&'a str),
}

impl Ask<'_> {
    fn command(&self, alloc: Global) -> Result<Command, NoMemory> {
        match self {
            Ask::Create(path) => Ok(Command::Create {
                path: Path::new(Vec::from_slice(alloc, path.as_bytes())?),
                mode: 0o666,
            }),
            Ask::Stat(path) => Ok(Command::Stat {
                path: Path::new(Vec::from_slice(alloc, path.as_bytes())?),
            }),
        }
    }

    /// Writes the line of a script.
    fn write_line(&self, script: &mut String) -> Result<(), NoMemory> {
        match self {
            Ask::Create(path) => writeln!(script, "do t1 create {path} 666")?,
            Ask::Stat(path) => writeln!(script, "do t1 stat {path}")?,
        }
        Ok(())
    }
}

/// Writes what a run prints for the reply, where it is one that the slow program gives.
fn write_reply(text: &mut String, reply: &Option<Reply>) -> Result<(), NoMemory> {
    match reply {
        Some(Reply::Made) => writeln!(text, "t1 made")?,
        Some(Reply::Exists) => writeln!(text, "t1 exists")?,
        Some(Reply::NotFound) => writeln!(text, "t1 notfound")?,
        Some(Reply::Info(Kind::File, size, uid, gid, mode)) => {
            writeln!(text, "t1 info file {size} {uid} {gid} {mode:o}")?
        }
        Some(Reply::Info(Kind::Dir, size, uid, gid, mode)) => {
            writeln!(text, "t1 info dir {size} {uid} {gid} {mode:o}")?
        }
        _ => writeln!(text, "another reply")?,
    }
    Ok(())
}

/// What the slow program answers, as a run prints it.
fn slow_replies(alloc: Global, asks: &[Ask]) -> Result<String, NoMemory> {
    let mut coffers = Coffers::new(alloc)?;
    let cred = Cred::new(0, 0);
    let mut replies = String::new(alloc);
    for ask in asks {
        let command = ask.command(alloc)?;
        let reply = coffers.answer(alloc, &cred, &command)?;
        coffers.apply(alloc, &cred, &command)?;
        write_reply(&mut replies, &reply)?;
    }
    Ok(replies)
}

/// A script that asks these.
fn script_of(alloc: Global, asks: &[Ask]) -> Result<String, NoMemory> {
    let mut script = String::from_str(alloc, "mkfs 64\nprocess p1 0 0\nthread t1 p1\n")?;
    for ask in asks {
        ask.write_line(&mut script)?;
    }
    Ok(script)
}

/// Whether a run of these prints what the slow program answers.
fn is_answered_alike(alloc: Global, asks: &[Ask]) -> Result<bool, NoMemory> {
    let script = script_of(alloc, asks)?;
    let ran = run_text(alloc, script.as_bytes(), 4096)?;
    let replies = slow_replies(alloc, asks)?;
    Ok(ran.outcome.status == Status::Done && ran.out.bytes() == replies.as_bytes())
}

#[test]
fn runs_answer_as_the_slow_program_does(rt: HostRuntime) -> Result<(), NoMemory> {
    let asks = [Ask::Create("/f"), Ask::Stat("/f")];
    assert!(rt; is_answered_alike(rt.alloc(), &asks)?);
    let asks = [
        Ask::Create("/f"),
        Ask::Create("/f"),
        Ask::Stat("/g"),
        Ask::Stat("/"),
    ];
    assert!(rt; is_answered_alike(rt.alloc(), &asks)?);
    // the three names have one bucket
    let asks = [
        Ask::Create("/aa"),
        Ask::Stat("/bH"),
        Ask::Create("/bH"),
        Ask::Create("/e-"),
        Ask::Stat("/aa"),
        Ask::Stat("/bH"),
        Ask::Stat("/e-"),
        Ask::Create("/aa"),
        Ask::Stat("/"),
    ];
    assert!(rt; is_answered_alike(rt.alloc(), &asks)?);
    Ok(())
}

#[test]
fn long_names_are_answered_as_the_slow_program_does(rt: HostRuntime) -> Result<(), NoMemory> {
    let front = "x".repeat(rt.alloc(), 254)?;
    let name = format!(in rt.alloc(); "/{front}y")?;
    let other = format!(in rt.alloc(); "/{front}z")?;
    let asks = [
        Ask::Create(name.as_str()),
        Ask::Stat(name.as_str()),
        Ask::Stat(other.as_str()),
    ];
    assert!(rt; is_answered_alike(rt.alloc(), &asks)?);
    Ok(())
}
