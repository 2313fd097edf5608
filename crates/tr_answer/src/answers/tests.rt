// What is asked, line by line, and what is answered. A line has the uid, the gid and a further group if there
// is one, and then the command.
use super::Coffers;
use crate::coffer::Closed;
use std::alloc::{AllocError, Global};
use std::test::Fail;
use tr_types::{Command, Cred, Groups, Kind, Path, Perm, Reply, Right};

fn cred_of(text: &str) -> Result<Cred, Fail> {
    let mut ids = text.split(',');
    let uid = ids.next().ok_or("a uid")?.parse()?;
    let gid = ids.next().ok_or("a gid")?.parse()?;
    let groups = match ids.next() {
        Some(id) => Groups::new(&[id.parse()?]).ok_or("groups")?,
        None => Groups::NONE,
    };
    Ok(Cred { uid, gid, groups })
}

fn command_of(alloc: Global, name: &str, path: &str, mode: &str) -> Result<Command, Fail> {
    let path = Path::new(Vec::from_slice(alloc, path.as_bytes())?);
    match name {
        "create" => Ok(Command::Create {
            path,
            mode: u16::from_str_radix(mode, 8)?,
        }),
        _ => Ok(Command::Stat { path }),
    }
}

fn denied_text(alloc: Global, right: Right, path: &Path) -> Result<String, AllocError> {
    let name = if right == Right::READ {
        "read"
    } else {
        "write"
    };
    let mut text = format!(in alloc; "denied {name} ")?;
    for &byte in path.as_bytes() {
        text.push(char::from(byte))?;
    }
    Ok(text)
}

fn text_of(alloc: Global, reply: &Option<Reply>) -> Result<String, AllocError> {
    match reply {
        None => String::from_str(alloc, "nothing"),
        Some(Reply::Made) => String::from_str(alloc, "made"),
        Some(Reply::Exists) => String::from_str(alloc, "exists"),
        Some(Reply::NotFound) => String::from_str(alloc, "notfound"),
        Some(Reply::NotDir) => String::from_str(alloc, "notdir"),
        Some(Reply::TooLong) => String::from_str(alloc, "toolong"),
        Some(Reply::Quarantined) => String::from_str(alloc, "quarantined"),
        Some(Reply::Denied(right, path)) => denied_text(alloc, *right, path),
        Some(Reply::Info(Kind::File, size, uid, gid, mode)) => {
            format!(in alloc; "info file {size} {uid} {gid} {mode:o}")
        }
        Some(Reply::Info(Kind::Dir, size, uid, gid, mode)) => {
            format!(in alloc; "info dir {size} {uid} {gid} {mode:o}")
        }
        Some(_) => String::from_str(alloc, "another reply"),
    }
}

/// Asks what a line says, and says what is answered.
fn ask(coffers: &mut Coffers, alloc: Global, line: &str) -> Result<String, Fail> {
    let mut words = line.split_whitespace();
    let cred = cred_of(words.next().ok_or("a caller")?)?;
    let name = words.next().ok_or("a command")?;
    let path = words.next().ok_or("a path")?;
    let command = command_of(alloc, name, path, words.next().unwrap_or("0"))?;
    let reply = coffers.answer(alloc, &cred, &command)?;
    coffers.apply(alloc, &cred, &command)?;
    Ok(text_of(alloc, &reply)?)
}

#[test]
fn commands_on_a_new_file_system(rt: HostRuntime) -> Result<(), Fail> {
    let rows = [
        ("0,0 stat /", "info dir 0 0 0 666"),
        ("0,0 create / 666", "exists"),
        ("0,0 create /f 666", "made"),
        ("0,0 create /f 666", "exists"),
        ("0,0 stat /f", "info file 0 0 0 666"),
        ("9,9 stat /f", "info file 0 0 0 666"),
        ("0,0 stat /", "info dir 1 0 0 666"),
        ("0,0 stat /g", "notfound"),
        ("0,0 stat /fg", "notfound"),
        ("0,0 stat /g/h", "notfound"),
        ("0,0 stat /f/g", "notdir"),
        ("0,0 create /g/h 666", "notfound"),
        ("0,0 create /f/g 666", "notdir"),
        ("0,0 create /f/g/h 666", "notdir"),
        // a permission other than the parent's
        ("5,6 create /own 640", "made"),
        ("5,6 stat /own", "info file 0 5 6 640"),
        ("7,6 stat /own", "info file 0 5 6 640"),
        ("7,8,6 stat /own", "info file 0 5 6 640"),
        ("7,8 stat /own", "denied read /own"),
        ("7,6 create /own/g 640", "denied write /own"),
        ("5,6 create /own/g 640", "notdir"),
        ("0,0 create /own 666", "exists"),
        ("0,5 create /g 666", "made"),
        ("0,0 stat /g", "info file 0 0 5 666"),
        ("0,0 stat /", "info dir 3 0 0 666"),
    ];
    let mut coffers = Coffers::new(rt.alloc())?;
    for (line, reply) in rows {
        assert_eq!(rt;
            ask(&mut coffers, rt.alloc(), line)?.as_str(),
            reply,
            "{line}"
        );
    }
    Ok(())
}

/// The root coffer, two with directories, one lost and one quarantined.
fn several_coffers(alloc: Global) -> Result<Coffers, AllocError> {
    let mut coffers = Coffers::new(alloc)?;
    let of_five = Perm {
        uid: 5,
        gid: 6,
        mode: 0o640,
    };
    let of_root = Perm {
        uid: 0,
        gid: 0,
        mode: 0o604,
    };
    let shut = Perm {
        uid: 0,
        gid: 0,
        mode: 0o640,
    };
    coffers.push(alloc, b"/a", of_five)?;
    coffers.push(alloc, b"/a/b", of_root)?;
    coffers.push(alloc, b"/lost", shut)?;
    coffers.push(alloc, b"/shut", shut)?;
    coffers.close(alloc, b"/lost", Closed::Lost)?;
    coffers.close(alloc, b"/shut", Closed::Quarantined)?;
    Ok(coffers)
}

#[test]
fn commands_on_several_coffers(rt: HostRuntime) -> Result<(), Fail> {
    let rows = [
        ("9,9 stat /", "info dir 3 0 0 666"),
        ("5,9 stat /a", "info dir 1 5 6 640"),
        ("5,6 create /a/f 640", "made"),
        ("5,6 create /a/f 640", "exists"),
        ("9,6 stat /a", "info dir 2 5 6 640"),
        ("9,6 stat /a/f", "info file 0 5 6 640"),
        ("9,6 create /a/g 640", "denied write /a"),
        ("9,9 stat /a/f", "denied read /a"),
        // by whole names
        ("9,9 stat /a/b", "info dir 0 0 0 604"),
        ("9,9 stat /a/bb", "denied read /a"),
        ("9,9 stat /a/b/c", "notfound"),
        ("9,9 create /a/b/c 604", "denied write /a/b"),
        ("0,0 create /a/b/c 604", "made"),
        ("9,9 stat /a/b", "info dir 1 0 0 604"),
        ("5,6 create /a/b 640", "exists"),
        ("0,0 create /a/c 640", "made"),
        ("9,9 stat /a/c", "denied read /a/c"),
        ("0,0 stat /a", "info dir 3 5 6 640"),
        ("0,0 stat /lost", "nothing"),
        ("0,0 create /lost/f 640", "nothing"),
        ("9,9 stat /lost", "denied read /lost"),
        ("0,0 create /lost 640", "exists"),
        ("0,0 stat /shut/f", "quarantined"),
        ("0,0 create /shut/f 640", "quarantined"),
        ("9,9 create /shut/f 640", "denied write /shut"),
        ("9,9 stat /", "info dir 3 0 0 666"),
    ];
    let mut coffers = several_coffers(rt.alloc())?;
    for (line, reply) in rows {
        assert_eq!(rt;
            ask(&mut coffers, rt.alloc(), line)?.as_str(),
            reply,
            "{line}"
        );
    }
    Ok(())
}

/// A line in which each `N` stands for 183 bytes of a name, `L` for a name of 255, and `T` for 16 names.
fn written_out(alloc: Global, line: &str) -> Result<String, AllocError> {
    let mut text = String::new(alloc);
    for letter in line.chars() {
        match letter {
            'N' => text.push_str("n".repeat(alloc, 183)?.as_str())?,
            'L' => text.push_str("l".repeat(alloc, 255)?.as_str())?,
            'T' => text.push_str("/t".repeat(alloc, 16)?.as_str())?,
            _ => text.push(letter)?,
        }
    }
    Ok(text)
}

#[test]
fn long_paths(rt: HostRuntime) -> Result<(), Fail> {
    let rows = [
        ("9,9 stat /L", "info dir 0 5 6 646"),
        ("9,9 stat /Lx", "toolong"),
        ("9,9 stat /L/L/L/L", "notfound"),
        ("9,9 stat /L/L/L/L/", "toolong"),
        ("9,9 stat TT", "notfound"),
        ("9,9 stat TT/t", "toolong"),
        ("9,9 create /L/Nx 646", "toolong"),
        ("9,9 create /L/N 646", "made"),
        ("9,9 stat /L/N", "info file 0 9 9 646"),
        ("5,6 create /L/Nx 646", "made"),
        ("9,9 stat /L", "info dir 2 5 6 646"),
        ("9,9 create /L/Nx 646", "exists"),
        // of two refusals the first
        ("7,6 create /L/Lx 640", "toolong"),
        ("7,6 create /L/Nx 640", "denied write /L"),
    ];
    let mut coffers = Coffers::new(rt.alloc())?;
    let front = written_out(rt.alloc(), "/L")?;
    let perm = Perm {
        uid: 5,
        gid: 6,
        mode: 0o646,
    };
    coffers.push(rt.alloc(), front.as_bytes(), perm)?;
    for (line, reply) in rows {
        let line = written_out(rt.alloc(), line)?;
        let reply = written_out(rt.alloc(), reply)?;
        assert_eq!(rt;
            ask(&mut coffers, rt.alloc(), line.as_str())?.as_str(),
            reply.as_str()
        );
    }
    Ok(())
}
