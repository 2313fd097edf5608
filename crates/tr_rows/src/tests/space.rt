// What a full image answers.
use super::run_text;
use pm_words::NoMemory;
use tr_top::Status;

// Of 64 pages 24 are free. Twelve files take 13, with their entry page, and ten more take 11, with theirs.
#[test]
fn an_existing_name_exists_with_no_page_free(rt: HostRuntime) -> Result<(), NoMemory> {
    let mut script = String::from_str(rt.alloc(), "mkfs 64\nprocess p1 0 0\nthread t1 p1\n")?;
    for i in 0..22 {
        writeln!(script, "do t1 create /{i} 666")?;
    }
    script.push_str("do t1 create /7 666\ndo t1 create /22 666\n")?;
    let ran = run_text(rt.alloc(), script.as_bytes(), 4096)?;
    let made = "t1 made\n".repeat(rt.alloc(), 22)?;
    let replies = format!(in rt.alloc(); "{made}t1 exists\nt1 nospace 1 0\n")?;
    assert_eq!(rt; ran.outcome.status, Status::Done);
    assert_eq!(rt; ran.out.bytes(), replies.as_bytes());
    Ok(())
}
