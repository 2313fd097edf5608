// The greatest length of a script.
use super::run_text;
use pm_words::NoMemory;
use std::alloc::Global;
use tr_top::Status;

/// A script of `mkfs 64`, a note and an empty line 524,286 times each, and a last note of nine bytes: 4,194,305 bytes,
/// one more than a script may have.
fn text_past_the_limit(alloc: Global) -> Result<String, NoMemory> {
    let notes = "#23456\n\n".repeat(alloc, 524_286)?;
    Ok(format!(in alloc; "mkfs 64\n{notes}#23456789")?)
}

// The last byte is the ninth of line 1 + 2 * 524,286 + 1.
#[test]
fn a_text_past_the_limit_is_bad_at_its_last_byte(rt: HostRuntime) -> Result<(), NoMemory> {
    let text = text_past_the_limit(rt.alloc())?;
    assert_eq!(rt; text.len(), 4_194_305);
    let ran = run_text(rt.alloc(), text.as_bytes(), 4096)?;
    assert_eq!(rt;
        ran.outcome.status,
        Status::BadScript {
            line: 1_048_574,
            column: 9
        }
    );
    assert!(rt; ran.outcome.trace.entries().is_empty());
    assert!(rt; ran.saved.bytes().is_empty());
    Ok(())
}

#[test]
fn a_text_of_the_greatest_length_is_run(rt: HostRuntime) -> Result<(), NoMemory> {
    let mut text = text_past_the_limit(rt.alloc())?;
    text.pop();
    assert_eq!(rt; text.len(), 4_194_304);
    let ran = run_text(rt.alloc(), text.as_bytes(), 4096)?;
    assert_eq!(rt; ran.outcome.status, Status::Done);
    assert_eq!(rt; ran.outcome.trace.len(), 1);
    Ok(())
}
