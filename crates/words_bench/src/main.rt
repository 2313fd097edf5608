//! Stores, flushes and fences on one line of a memory of which many other words are pending, so that their cost can be
//! measured.
//!
//! Its words are `store`, `flush`, `round` or `page`, how many words are pending, at most 500,000, and how often it is
//! done. A round is a store, a flush and a fence. A page is 512 stores, one to each word of the first page, 64 flushes
//! and a fence.
#![tactic(auto)]

ghost use Rattle.std.specs.Prelude.{◌≡◌, ◌<◌, ◌≤◌, length, IfSome, IfOk};

use pm_words::{NoMemory, Words};
use std::process::ExitCode;
use std::{env, io};

/// How many pages the memory has.
const PAGES: u32 = 1024;

/// How many words may be pending, besides those of the line that is worked on.
const MOST: u32 = 500_000;

const LINE_WORDS: u32 = 8;

const PAGE_WORDS: u32 = 512;

const THREAD: u16 = 0;

/// What is measured.
#[derive(Clone, Copy)]
enum Work {
    Store,
    Flush,
    Round,
    Page,
}

fn main(rt: HostRuntime) -> io::Result<ExitCode> {
    let mut words = Vec::new(rt.alloc());
    for word in env::args(&rt)?.skip(1) {
        words.push(word)?;
    }
    let Some((work, pending, times)) = task_of(&words) else {
        eprintln!(rt; "usage: words_bench store|flush|round|page PENDING TIMES")?;
        return Ok(ExitCode::from(2));
    };
    let mut memory = Words::blank(rt.alloc(), PAGES)?;
    make_pending(&mut memory, pending)?;
    repeat(&mut memory, work, times)?;
    println!(rt; "{}", memory.load(0))?;
    Ok(ExitCode::from(0))
}

// What the words ask for.
fn task_of(words: &[String]) -> Option<(Work, u32, u32)>
    ensures most { IfSome result (λ (work, pending, times). pending ≤ 500000) }
{
    let work = match words.first()?.as_str() {
        "store" => Work::Store,
        "flush" => Work::Flush,
        "round" => Work::Round,
        "page" => Work::Page,
        _ => return None,
    };
    let pending = words.get(1)?.parse::<u32>().ok()?;
    let times = words.get(2)?.parse::<u32>().ok()?;
    if pending <= MOST {
        Some((work, pending, times))
    } else {
        None
    }
}

// Stores to the first line, and to so many words after it.
fn make_pending(memory: &mut Words, count: u32) -> Result<(), NoMemory>
    requires words { length memory.old ≡ 524288 }
    requires most { count ≤ 500000 }
    ensures len { length memory.new ≡ 524288 }
{
    for place in 0..LINE_WORDS + count {
        memory.store(8 * u64::from(place), 1)?;
    }
    Ok(())
}

// Does the work so often.
fn repeat(memory: &mut Words, work: Work, times: u32) -> Result<(), NoMemory>
    requires words { length memory.old ≡ 524288 }
    ensures len { length memory.new ≡ 524288 }
{
    for time in 0..times {
        step(memory, work, time)?;
    }
    Ok(())
}

// Does the work once, on the first line.
fn step(memory: &mut Words, work: Work, time: u32) -> Result<(), NoMemory>
    requires words { length memory.old ≡ 524288 }
    ensures len { length memory.new ≡ 524288 }
{
    match work {
        Work::Store => memory.store(0, u64::from(time))?,
        Work::Flush => memory.flush(THREAD, 0)?,
        Work::Round => {
            memory.store(0, u64::from(time))?;
            memory.flush(THREAD, 0)?;
            memory.fence(THREAD);
        }
        Work::Page => {
            store_page(memory, u64::from(time))?;
            flush_page(memory)?;
            memory.fence(THREAD);
        }
    }
    Ok(())
}

// Stores a value to each word of the first page.
fn store_page(memory: &mut Words, value: u64) -> Result<(), NoMemory>
    requires words { length memory.old ≡ 524288 }
    ensures len { length memory.new ≡ 524288 }
{
    for place in 0..PAGE_WORDS {
        memory.store(8 * u64::from(place), value)?;
    }
    Ok(())
}

// Flushes each line of the first page.
fn flush_page(memory: &mut Words) -> Result<(), NoMemory>
    requires words { length memory.old ≡ 524288 }
    ensures len { length memory.new ≡ 524288 }
{
    for line in 0..PAGE_WORDS / LINE_WORDS {
        memory.flush(THREAD, 64 * u64::from(line))?;
    }
    Ok(())
}
