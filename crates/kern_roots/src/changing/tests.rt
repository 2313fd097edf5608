// Changes of a new image of 64 pages. Its coffer table begins at address 20,480 with the entry of the
// root coffer, and its path buckets at 151,552. Entry 2 begins at 20,992; `/x` is in bucket 178.
ghost use Rattle.std.specs.Prelude.{◌≡◌, IfOk};
ghost use Rattle.kern_model.specs.KernelRules.{IsSoundKernel};

use super::*;
use kern_journal::new_image;
use kern_model::ROOT_COFFER;
use pm_words::NoMemory;
use std::fmt::Write;
use std::test::Fail;

const PERM: Perm = Perm {
    uid: 5,
    gid: 6,
    mode: 0o600,
};

const STANDING: Root = Root {
    perm: PERM,
    state: RootState::Standing,
    kind: 0,
    control: 40,
    root: 41,
};

fn new_words(alloc: Global) -> Result<Words, NoMemory>
    ensures { IfOk result (λ w. IsSoundKernel w) }
{
    new_image(alloc, 64)
}

/// A change that is asked for.
#[derive(Clone, Copy, Debug)]
enum Change<'a> {
    Add(&'a str),
    Drop(u16),
    SetPerm(u16),
    Quarantine(u16),
    SetRoot(u16, u32),
}

impl Change<'_> {
    fn pairs(&self, alloc: Global, words: &Words) -> Result<Pairs, RootsFault>
        requires { IsSoundKernel words.now }
    {
        match *self {
            Change::Add(path) => Ok(added(alloc, words, path)?.1),
            Change::Drop(id) => drop_entry(alloc, words, id),
            Change::SetPerm(id) => set_perm(alloc, words, id, &PERM),
            Change::Quarantine(id) => set_state(alloc, words, id, RootState::Quarantined),
            Change::SetRoot(id, root) => set_root(alloc, words, id, root),
        }
    }
}

fn added(alloc: Global, words: &Words, path: &str) -> Result<(u16, Pairs), RootsFault>
    requires { IsSoundKernel words.now }
{
    let path = Path::new(Vec::from_slice(alloc, path.as_bytes())?);
    add(alloc, words, &path, &STANDING)
}

/// What a change comes to: how many words are stored, from which address to which, and each that isn't 0; or why
/// it can't be made.
fn shown(alloc: Global, words: &Words, change: Change) -> Result<String, Fail>
    requires { IsSoundKernel words.now }
{
    match change.pairs(alloc, words) {
        Ok(pairs) => text_of(alloc, pairs.as_slice()),
        Err(fault) => Ok(format!(in alloc; "{fault}")?),
    }
}

fn text_of(alloc: Global, pairs: &[(u64, u64)]) -> Result<String, Fail> {
    let (first, last) = match pairs {
        [] => (0, 0),
        [first, ..] => (first.0, pairs[pairs.len() - 1].0),
    };
    let mut text = format!(in alloc; "{} from {first} to {last}:", pairs.len())?;
    for (address, word) in pairs {
        if *word != 0 {
            write!(text, " {address}={word}")?;
        }
    }
    Ok(text)
}

fn is_in_order(alloc: Global, words: &Words, change: Change) -> bool
    requires { IsSoundKernel words.now }
{
    match change.pairs(alloc, words) {
        Ok(pairs) => pairs
            .as_slice()
            .windows(2)
            .all(|window| window[0].0 < window[1].0),
        Err(_) => false,
    }
}

// In its home word the bucket of `/` is empty, and a committed pair puts the root coffer there.
fn words_with_a_pair(alloc: Global) -> Result<Words, NoMemory>
    ensures { IfOk result (λ w. IsSoundKernel w) }
{
    let mut words = new_image(alloc, 64)?;
    words.store(153584, 0)?;
    words.store(4160, 153584)?;
    words.store(4168, 1)?;
    words.store(4096, 1)?;
    Ok(words)
}

/// What is asked of a new image, and what comes of it.
const CHANGES: [(Change, &str); 10] = [
    (Change::Add("/"), "a coffer has this path"),
    (
        Change::Add("/x"),
        "65 from 20992 to 152976: 20992=1 21000=5 21008=6 21016=384 21024=40 21032=41 21048=2 21064=30767 152976=2",
    ),
    (Change::Drop(1), "65 from 20480 to 153584:"),
    (
        Change::SetPerm(1),
        "3 from 20488 to 20504: 20488=5 20496=6 20504=384",
    ),
    (Change::Quarantine(1), "1 from 20480 to 20480: 20480=2"),
    (Change::SetRoot(1, 50), "1 from 20520 to 20520: 20520=50"),
    (Change::Drop(9), "there is no such coffer"),
    (Change::SetPerm(9), "there is no such coffer"),
    (Change::Quarantine(9), "there is no such coffer"),
    (Change::SetRoot(9, 40), "there is no such coffer"),
];

#[test]
fn changes_store_these_words_or_are_refused(rt: HostRuntime) -> Result<(), Fail> {
    let words = new_words(rt.alloc())?;
    for (change, text) in CHANGES {
        assert_eq!(rt; shown(rt.alloc(), &words, change)?.as_str(), text);
    }
    Ok(())
}

#[test]
fn a_new_coffer_has_the_number_2(rt: HostRuntime) -> Result<(), Fail> {
    let words = new_words(rt.alloc())?;
    let (id, _) = added(rt.alloc(), &words, "/x")?;
    assert_eq!(rt; id, 2);
    Ok(())
}

#[test]
fn pairs_stand_in_order_of_address(rt: HostRuntime) -> Result<(), Fail> {
    let words = new_words(rt.alloc())?;
    assert!(rt; is_in_order(rt.alloc(), &words, Change::Add("/x")));
    assert!(rt; is_in_order(rt.alloc(), &words, Change::Drop(ROOT_COFFER)));
    Ok(())
}

#[test]
fn a_path_that_stands_by_a_committed_pair_is_taken(rt: HostRuntime) -> Result<(), Fail> {
    let words = words_with_a_pair(rt.alloc())?;
    assert!(rt; matches!(added(rt.alloc(), &words, "/"), Err(RootsFault::Taken)));
    Ok(())
}
