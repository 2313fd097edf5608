// Look-ups over a few words.
use crate::{ListRun, ListStep, LookStep, Lookup, Name};
use std::alloc::{AllocError, Global};
use std::process::Abort;
use tr_types::{Answer, FaultKind};
use zo_plan::{Addr, Place};

/// The directory's page, and its word of bucket 183, where `aa`, `bH` and `e-` lie.
const DIR: u64 = 159744;

const HEAD: u64 = 163256;

/// Two places of an entry page.
const FIRST: u64 = 164096;

const SECOND: u64 = 164416;

/// `aa` and then `bH`, with their lengths, letters and targets, and word 5 of the directory.
const WORDS: [(u64, u64); 11] = [
    (HEAD, FIRST),
    (FIRST, SECOND),
    (FIRST + 8, 167936),
    (FIRST + 16, 2),
    (FIRST + 24, 0x6161),
    (SECOND, 0),
    (SECOND + 8, 1),
    (SECOND + 16, 2),
    (SECOND + 24, 0x4862),
    (DIR + 40, 164736),
    (164736, 165056),
];

fn word_at(words: &[(u64, u64)], addr: u64) -> Answer {
    for &(at, word) in words {
        if at == addr {
            return Answer::Word(word);
        }
    }
    Answer::Fault(FaultKind::NotMapped)
}

// The step that comes after these loads.
fn after(rt: &impl Abort, words: &[(u64, u64)], mut lookup: Lookup, loads: &[u64]) -> LookStep {
    let mut step = lookup.next(&Answer::Done);
    for &addr in loads {
        assert_eq!(rt; step, LookStep::Load(addr));
        step = lookup.next(&word_at(words, addr));
    }
    step
}

fn named(alloc: Global, name: &[u8]) -> Result<Name, AllocError> {
    Ok(Name::new(Vec::from_slice(alloc, name)?))
}

fn place(before: u64, entry: u64) -> Place {
    Place {
        bucket: HEAD,
        before,
        entry,
        head: FIRST,
        first: 0,
        free: 0,
        free_next: 0,
    }
}

#[test]
fn names_are_found_with_the_word_that_leads_to_them(rt: HostRuntime) -> Result<(), AllocError> {
    let dir = Addr { at: DIR };
    let lookup = Lookup::begin(dir, named(rt.alloc(), b"bH")?, 1);
    let loads = [
        HEAD,
        FIRST + 16,
        FIRST + 24,
        FIRST,
        SECOND + 16,
        SECOND + 24,
        SECOND + 8,
    ];
    let place = place(FIRST, SECOND);
    assert_eq!(rt;
        after(&rt, &WORDS, lookup, &loads),
        LookStep::Found { place, target: 1 }
    );
    Ok(())
}

#[test]
fn missing_names_tell_the_free_entry_where_one_is_made(rt: HostRuntime) -> Result<(), AllocError> {
    let dir = Addr { at: DIR };
    let loads = [
        HEAD,
        FIRST + 16,
        FIRST + 24,
        FIRST,
        SECOND + 16,
        SECOND + 24,
        SECOND,
    ];
    let read = Lookup::begin(dir, named(rt.alloc(), b"e-")?, 1);
    assert_eq!(rt;
        after(&rt, &WORDS, read, &loads),
        LookStep::Missing {
            place: place(SECOND, 0)
        }
    );
    let make = Lookup::to_make(dir, named(rt.alloc(), b"e-")?, 1);
    assert_eq!(rt; after(&rt, &WORDS, make, &loads), LookStep::Load(DIR + 40));
    Ok(())
}

#[test]
fn words_that_lead_astray_are_damage(rt: HostRuntime) -> Result<(), AllocError> {
    let dir = Addr { at: DIR };
    for (head, damaged) in [(FIRST + 8, HEAD), (FIRST, HEAD), (1 << 60, HEAD)] {
        let lookup = Lookup::begin(dir, named(rt.alloc(), b"e-")?, 1);
        let words = [(HEAD, head)];
        let mut loads = 1;
        if head == FIRST {
            loads = 2;
        }
        let step = after(&rt, &words, lookup, &[HEAD, FIRST + 16][..loads]);
        assert_eq!(rt; step, LookStep::Damaged(damaged));
    }
    Ok(())
}

#[test]
fn names_are_counted_bucket_by_bucket(rt: HostRuntime) {
    let mut list = ListRun::begin(Addr { at: DIR }, 1);
    let mut step = list.next(&Answer::Done);
    for _ in 0..300 {
        let ListStep::Load(addr) = step else {
            break;
        };
        step = list.next(&match word_at(&WORDS, addr) {
            Answer::Word(word) => Answer::Word(word),
            _ => Answer::Word(0),
        });
    }
    assert_eq!(rt; step, ListStep::Counted(2));
}
