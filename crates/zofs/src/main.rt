//! The program: standard input is the script, standard output takes the replies, and the file `zofs.new` the image
//! that a script has left which was run to its end. Where a run stops before, no such file is made.
//!
//! The image in the file `zofs.img` is that of runs over an image that stands. Each script makes a new one as yet, so
//! that the file is neither read nor needed.
#![tactic(auto)]

use std::process::ExitCode;
use std::{env, io};
use tr_outside::{FileSink, FileSource, StdSink, StdSource};
use tr_top::{Status, zofs_run};

/// The image of a run over one that stands.
const IMAGE: &str = "zofs.img";

/// The image that is saved.
const SAVED: &str = "zofs.new";

fn main(rt: HostRuntime) -> io::Result<ExitCode> {
    let status = run(&rt).unwrap_or(Status::NoMemory);
    if status != Status::Done {
        // Where the text can't be written, the exit code still tells the status.
        let _ = eprintln!(rt; "{status}");
    }
    Ok(ExitCode::from(status.exit_code()))
}

// Runs the program on its files and streams. Fails only where memory runs out before the run begins.
fn run(rt: &HostRuntime) -> io::Result<Status> {
    let alloc = rt.alloc();
    let words = match words(rt) {
        Err(fault) if fault.kind() != io::ErrorKind::OutOfMemory => return Ok(Status::Usage),
        words => words?,
    };
    let mut image = FileSource::at(rt, String::from_str(alloc, IMAGE)?);
    let mut script = StdSource::new(rt);
    let mut out = StdSink::new(rt);
    let mut saved = FileSink::at(rt, String::from_str(alloc, SAVED)?);
    Ok(zofs_run(alloc, &words, &mut image, &mut script, &mut out, &mut saved).status)
}

// The command line's words behind the program's name.
fn words(rt: &HostRuntime) -> io::Result<Vec<String>> {
    let mut words = Vec::new(rt.alloc());
    for word in env::args(rt)?.skip(1) {
        words.push(word)?;
    }
    Ok(words)
}
