// What a call waits for.
use crate::caller::Tries;
use tr_types::{Kind, Reply};
use zo_hash_dir::{ListRun, Lookup};
use zo_lease::{Check, GiveBack, LeaseAt, Pop, Push, Take, Watch};
use zo_plan::{Addr, Held, Place, PlanRun};

/// The mode of each file: octal 666.
const FILE_MODE: u16 = 0o666;

#[derive(Debug, Drop)]
pub(crate) enum Stage {
    Changing(Change),
    Watching(Reading),
    /// Nothing: the call is over, or its coffer has no root page.
    Over,
}

/// Where a call stands that changes the directory. From `Looking` on it holds the directory's lease.
#[derive(Debug, Drop)]
pub(crate) enum Change {
    Taking(Take),
    Looking(Looking),
    /// Its coffer is mapped once more, and told how many pages it has.
    Mapping(Held),
    Checking(Checking),
    Popping(Popping),
    /// A page is about to leave the pool: the directory's lease is looked at too.
    PopGuard(Popping, Guard),
    Enlarging(Drawing),
    Pushing(Pushing),
    /// A store that puts a page back: the same.
    PushGuard(Pushing, Guard),
    Running(Running),
    GivingBack(GivingBack),
    /// The pool's lease is given back, as the directory's was taken away before a store under both.
    GivingPool(GivingBack),
}

/// The name is looked for in the directory.
#[derive(Debug, Drop)]
pub(crate) struct Looking {
    pub(crate) look: Lookup,
    pub(crate) held: Held,
    /// Whether the coffer has been mapped once more for it.
    pub(crate) again: bool,
}

/// What a look-up came to: the name stands, or it would go there, or the word at an address is damaged.
#[derive(Clone, Copy, Debug)]
pub(crate) enum Found {
    Name,
    Place(Place),
    Damage(u64),
}

#[derive(Debug, Drop)]
pub(crate) struct Checking {
    pub(crate) check: Check,
    pub(crate) held: Held,
    pub(crate) found: Found,
}

/// Pages are drawn, by their numbers, for a new file with this place.
#[derive(Debug, Drop)]
pub(crate) struct Drawing {
    pub(crate) held: Held,
    pub(crate) place: Place,
    pub(crate) drawn: Vec<u32>,
}

#[derive(Debug, Drop)]
pub(crate) struct Popping {
    pub(crate) pop: Pop,
    pub(crate) drawing: Drawing,
}

/// The lease of the directory is looked at before a store.
#[derive(Debug, Drop)]
pub(crate) struct Guard {
    pub(crate) check: Check,
    pub(crate) addr: u64,
    pub(crate) word: u64,
}

/// How many pages the kernel was asked for, and how many it has.
#[derive(Clone, Copy, Debug)]
pub(crate) struct Short {
    pub(crate) need: u32,
    pub(crate) free: u32,
}

/// A drawn page is put back; `left` are those that come then, the last one first.
#[derive(Debug, Drop)]
pub(crate) struct Pushing {
    pub(crate) push: Push,
    pub(crate) held: Held,
    pub(crate) left: Vec<u32>,
    pub(crate) short: Short,
}

#[derive(Debug, Drop)]
pub(crate) struct Running {
    pub(crate) run: PlanRun,
    pub(crate) held: Held,
}

/// A lease is given back, and then the call ends.
#[derive(Debug, Drop)]
pub(crate) struct GivingBack {
    pub(crate) give: GiveBack,
    pub(crate) end: Ending,
}

/// How a call ends that has given its lease back.
#[derive(Clone, Copy, Debug)]
pub(crate) enum Ending {
    /// The name stands, unless the lease was taken away.
    Exists,
    // The others come whatever is heard.
    Made,
    Short(Short),
    Busy { addr: u64, word: u64, now: u32 },
    Expired { addr: u64, word: u64 },
}

/// Where a call stands that reads. From `Looking` on it watches the directory.
#[derive(Debug, Drop)]
pub(crate) enum Reading {
    Opening(Watch),
    Looking(NameLook),
    Counting(NameCount),
    /// Its coffer is mapped once more, and told how many pages it has.
    Mapping(Watched),
    /// The kind of the file's page.
    Kind { file: Addr, watched: Watched },
    /// The address of the file's map.
    Map { file: Addr, watched: Watched },
    /// The counter, once more.
    Counter(Closing),
    /// The lease, once more.
    Lease(Closing),
}

/// A directory that is watched: its lease, how many tries for it have failed, and what it and its counter showed.
#[derive(Clone, Copy, Debug)]
pub(crate) struct Watched {
    pub(crate) lease: LeaseAt,
    pub(crate) tries: Tries,
    pub(crate) counter: u64,
    pub(crate) found: u64,
}

#[derive(Debug, Drop)]
pub(crate) struct NameLook {
    pub(crate) look: Lookup,
    pub(crate) watched: Watched,
    /// Whether the coffer has been mapped once more in this try.
    pub(crate) again: bool,
}

#[derive(Clone, Copy, Debug)]
pub(crate) struct NameCount {
    pub(crate) count: ListRun,
    pub(crate) watched: Watched,
    pub(crate) again: bool,
}

/// What was read, while it is still to be seen that nothing moved.
#[derive(Clone, Copy, Debug)]
pub(crate) struct Closing {
    pub(crate) watched: Watched,
    pub(crate) read: Read,
}

#[derive(Clone, Copy, Debug)]
pub(crate) enum Read {
    /// A directory with so many names.
    Dir(u64),
    File,
    Nothing,
    Damage(u64),
}

impl Read {
    pub(crate) fn reply(self) -> Reply {
        match self {
            Read::Dir(names) => Reply::Info(Kind::Dir, names, 0, 0, FILE_MODE),
            Read::File => Reply::Info(Kind::File, 0, 0, 0, FILE_MODE),
            Read::Nothing => Reply::NotFound,
            Read::Damage(addr) => Reply::Damaged { addr },
        }
    }
}

impl Ending {
    ghost use Rattle.std.specs.Prelude.{◌≡◌};
    ghost use Rattle.zo_calls.specs.Stages.{ended_by};

    pub(crate) fn reply(self) -> Reply
        ensures { result ≡ ended_by self }
    {
        match self {
            Ending::Exists => Reply::Exists,
            Ending::Made => Reply::Made,
            Ending::Short(short) => Reply::NoSpace {
                need: short.need,
                free: short.free,
            },
            Ending::Busy { addr, word, now } => Reply::Busy { addr, word, now },
            Ending::Expired { addr, word } => Reply::Expired { addr, word },
        }
    }
}
