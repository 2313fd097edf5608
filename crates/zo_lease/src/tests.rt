// The machines over tables of answers.
use crate::{Check, GiveBack, LAST_TICK, LeaseStep, LeaseWord, Pop, Push, Take, Watch};
use std::process::Abort;
use tr_types::{Action, Answer, FaultKind, Mark};

/// The lease of the directory at 159744; the noted address and the counter stand behind it.
const LEASE: u64 = 159752;

const NOTED: u64 = 159760;

const COUNTER: u64 = 159768;

/// A pool's lease and head.
const POOL: u64 = 155712;

const HEAD: u64 = 155720;

/// Words of thread 0 that expire at 1000 and at 2001, and one of thread 1 that expires at 1000.
const OWN: u64 = 4_294_967_296_001;

const LATER: u64 = 8_594_229_559_297;

const OTHER: u64 = 4_294_967_296_002;

/// An answer, and what a machine gave, in a form that can be compared.
#[derive(Clone, Copy)]
enum Told {
    Word(u64),
    Done,
    Fault,
}

#[derive(Clone, Copy, Debug, PartialEq, Eq)]
enum Gave {
    Load(u64),
    Check(u64),
    Store(u64, u64),
    Take(u64, u64, u64),
    Give(u64, u64, u64),
    Flush(u64),
    Fence,
    Won(u64, u64),
    Busy(u64, u64, u32),
    Expired(u64, u64),
    Damaged(u64),
    Other,
}

fn answer(told: Told) -> Answer {
    match told {
        Told::Word(word) => Answer::Word(word),
        Told::Done => Answer::Done,
        Told::Fault => Answer::Fault(FaultKind::NotMapped),
    }
}

fn shown(step: LeaseStep) -> Gave {
    match step {
        LeaseStep::Act(action, mark) => done(action, mark),
        LeaseStep::Won { value, found } => Gave::Won(value, found),
        LeaseStep::Busy { addr, word, now } => Gave::Busy(addr, word, now),
        LeaseStep::Expired { addr, word } => Gave::Expired(addr, word),
        LeaseStep::Damaged(addr) => Gave::Damaged(addr),
    }
}

fn done(action: Action, mark: Mark) -> Gave {
    match (action, mark) {
        (Action::Load(addr), Mark::Plain) => Gave::Load(addr),
        (Action::Load(addr), Mark::Check) => Gave::Check(addr),
        (Action::Store(addr, word), Mark::Plain) => Gave::Store(addr, word),
        (Action::Cas { addr, old, new }, Mark::Take) => Gave::Take(addr, old, new),
        (Action::Cas { addr, old, new }, Mark::Plain) => Gave::Give(addr, old, new),
        (Action::Flush(addr), Mark::Plain) => Gave::Flush(addr),
        (Action::Fence, Mark::Plain) => Gave::Fence,
        _ => Gave::Other,
    }
}

#[test]
fn words_of_leases(rt: HostRuntime) {
    let word = LeaseWord::of(0, 1000);
    assert_eq!(rt; word.0, OWN);
    assert_eq!(rt; (word.expired(1000), word.expired(1001)), (false, true));
    assert_eq!(rt; word.holder(), Some(0));
    assert_eq!(rt; LeaseWord::of(255, 0).holder(), Some(255));
    assert_eq!(rt; LeaseWord(0).holder(), None);
}

fn takes(rt: &impl Abort, turns: &[(Told, u16, Gave)]) {
    let mut take = Take::begin(LEASE, 0);
    for &(told, now, want) in turns {
        assert_eq!(rt; shown(take.next(&answer(told), u32::from(now))), want);
    }
}

#[test]
fn a_free_lease_is_taken(rt: HostRuntime) {
    let turns = [
        (Told::Done, 0, Gave::Load(LEASE)),
        (Told::Word(0), 0, Gave::Take(LEASE, 0, OWN)),
        (Told::Word(0), 7, Gave::Won(OWN, 0)),
    ];
    takes(&rt, &turns);
}

#[test]
fn an_expired_lease_is_mended(rt: HostRuntime) {
    let turns = [
        (Told::Done, 0, Gave::Load(LEASE)),
        (Told::Word(OTHER), 1001, Gave::Take(LEASE, OTHER, LATER)),
        (Told::Word(OTHER), 1001, Gave::Load(NOTED)),
        (Told::Word(162912), 1002, Gave::Flush(162912)),
        (Told::Fault, 1002, Gave::Fence),
        (Told::Done, 1002, Gave::Won(LATER, OTHER)),
    ];
    takes(&rt, &turns);
}

// The lease expires between the load and the exchange, which is no failed try.
#[test]
fn a_lease_that_expires_meanwhile_is_taken(rt: HostRuntime) {
    let turns = [
        (Told::Done, 0, Gave::Load(LEASE)),
        (
            Told::Word(OTHER),
            1000,
            Gave::Take(LEASE, 0, LATER - (1 << 32)),
        ),
        (Told::Word(OTHER), 1001, Gave::Take(LEASE, OTHER, LATER)),
        (Told::Word(OTHER), 1001, Gave::Load(NOTED)),
        (Told::Word(0), 1002, Gave::Fence),
        (Told::Done, 1002, Gave::Won(LATER, OTHER)),
    ];
    takes(&rt, &turns);
}

#[test]
fn sixteen_tries_fail(rt: HostRuntime) {
    let mut take = Take::begin(LEASE, 0);
    let mut step = shown(take.next(&Answer::Done, 0));
    for now in 0..16u32 {
        assert_eq!(rt; step, Gave::Load(LEASE));
        let _ = take.next(&Answer::Word(OTHER), now);
        step = shown(take.next(&Answer::Word(OTHER), now));
    }
    assert_eq!(rt; step, Gave::Busy(LEASE, OTHER, 15));
}

#[test]
fn checks_tell_what_the_lease_shows(rt: HostRuntime) {
    for (told, now, want) in [
        (Told::Word(OWN), 1000u16, Gave::Won(0, OWN)),
        (Told::Word(OWN), 1001, Gave::Expired(LEASE, OWN)),
        (Told::Word(OTHER), 5, Gave::Expired(LEASE, OTHER)),
        (Told::Fault, 5, Gave::Damaged(LEASE)),
    ] {
        let mut check = Check::begin(LEASE, OWN);
        assert_eq!(rt; shown(check.next(&Answer::Done, 0)), Gave::Check(LEASE));
        assert_eq!(rt; shown(check.next(&answer(told), u32::from(now))), want);
    }
}

#[test]
fn a_lease_is_given_back(rt: HostRuntime) {
    for (told, want) in [
        (Told::Word(OWN), Gave::Won(0, OWN)),
        (Told::Word(OTHER), Gave::Check(LEASE)),
        (Told::Fault, Gave::Damaged(LEASE)),
    ] {
        let mut give = GiveBack::begin(LEASE, OWN, 5);
        assert_eq!(rt;
            shown(give.next(&Answer::Done, 0)),
            Gave::Give(LEASE, OWN, 5)
        );
        assert_eq!(rt; shown(give.next(&answer(told), 1001)), want);
    }
}

#[test]
fn a_watch_sees_the_counter_first(rt: HostRuntime) {
    let mut watch = Watch::begin(LEASE);
    for (told, now, want) in [
        (Told::Done, 0u16, Gave::Load(COUNTER)),
        (Told::Word(3), 0, Gave::Load(LEASE)),
        (Told::Word(OTHER), 1000, Gave::Load(COUNTER)),
        (Told::Word(4), 1001, Gave::Load(LEASE)),
        (Told::Word(OTHER), 1001, Gave::Load(NOTED)),
        (Told::Word(64), 1001, Gave::Flush(64)),
        (Told::Done, 1001, Gave::Fence),
        (Told::Done, 1001, Gave::Won(4, OTHER)),
    ] {
        assert_eq!(rt; shown(watch.next(&answer(told), u32::from(now))), want);
    }
    assert_eq!(rt; watch.failed(), 1);
}

#[test]
fn a_page_is_popped(rt: HostRuntime) {
    let mut pop = Pop::begin(POOL, 0);
    for (told, want) in [
        (Told::Done, Gave::Load(POOL)),
        (Told::Word(0), Gave::Take(POOL, 0, OWN)),
        (Told::Word(0), Gave::Load(HEAD)),
        (Told::Word(167936), Gave::Load(167936)),
        (Told::Word(172032), Gave::Load(POOL)),
        (Told::Word(OWN), Gave::Store(HEAD, 172032)),
        (Told::Done, Gave::Give(POOL, OWN, 0)),
        (Told::Word(OWN), Gave::Won(167936, 0)),
    ] {
        assert_eq!(rt; shown(pop.next(&answer(told), 0)), want);
    }
    assert_eq!(rt; pop.held(), None);
}

#[test]
fn a_page_is_pushed(rt: HostRuntime) {
    let mut push = Push::begin(POOL, 0, 176128);
    for (told, want) in [
        (Told::Done, Gave::Load(POOL)),
        (Told::Word(0), Gave::Take(POOL, 0, OWN)),
        (Told::Word(0), Gave::Load(HEAD)),
        (Told::Word(167936), Gave::Load(POOL)),
        (Told::Word(OWN), Gave::Store(176128, 167936)),
        (Told::Done, Gave::Load(POOL)),
        (Told::Word(OWN), Gave::Store(HEAD, 176128)),
        (Told::Done, Gave::Give(POOL, OWN, 0)),
        (Told::Word(OTHER), Gave::Load(POOL)),
        (Told::Word(OTHER), Gave::Expired(POOL, OTHER)),
    ] {
        assert_eq!(rt; shown(push.next(&answer(told), 0)), want);
    }
    assert_eq!(rt; push.held(), Some(OWN));
}

#[test]
fn an_empty_pool_has_no_page(rt: HostRuntime) {
    let mut pop = Pop::begin(POOL, 0);
    for (told, want) in [
        (Told::Done, Gave::Load(POOL)),
        (Told::Word(0), Gave::Take(POOL, 0, OWN)),
        (Told::Word(0), Gave::Load(HEAD)),
        (Told::Word(0), Gave::Give(POOL, OWN, 0)),
        (Told::Word(OWN), Gave::Won(0, 0)),
    ] {
        assert_eq!(rt; shown(pop.next(&answer(told), 0)), want);
    }
}

#[test]
fn a_call_counts_its_tries(rt: HostRuntime) {
    let mut take = Take::again(LEASE, 0, 15);
    let _ = take.next(&Answer::Done, 0);
    let _ = take.next(&Answer::Word(OTHER), 3);
    assert_eq!(rt;
        shown(take.next(&Answer::Word(OTHER), 4)),
        Gave::Busy(LEASE, OTHER, 4)
    );
    assert_eq!(rt; (take.failed(), take.held()), (15, None));
}

#[test]
fn a_look_at_a_pool_is_no_check(rt: HostRuntime) {
    let mut check = Check::of_pool(POOL, OWN);
    assert_eq!(rt; shown(check.next(&Answer::Done, 0)), Gave::Load(POOL));
    let mut give = GiveBack::of_pool(POOL, OWN);
    assert_eq!(rt;
        shown(give.next(&Answer::Done, 0)),
        Gave::Give(POOL, OWN, 0)
    );
    assert_eq!(rt;
        shown(give.next(&Answer::Word(OTHER), 1001)),
        Gave::Load(POOL)
    );
    assert_eq!(rt;
        shown(give.next(&Answer::Word(OTHER), 1001)),
        Gave::Expired(POOL, OTHER)
    );
}

// The lease that is taken then holds up to the last tick that its word can name.
#[test]
fn a_lease_is_taken_at_the_last_tick(rt: HostRuntime) {
    let mut take = Take::begin(LEASE, 0);
    let _ = take.next(&Answer::Done, LAST_TICK);
    let step = shown(take.next(&Answer::Word(0), LAST_TICK));
    assert_eq!(rt; step, Gave::Take(LEASE, 0, 18_446_744_069_414_584_321));
}
