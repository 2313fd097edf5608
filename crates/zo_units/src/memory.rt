// The memory with the places of its values.
ghost use Rattle.zo_units.specs.MemoryLaws.{CrashLeaves, MemoryLaw, MendLaw, RiseLaw};

/// Places only rise, so that what a call knows of them stays whatever others do.
pub fn own_law()
    ensures { RiseLaw }
{}

/// A commit is durable once a thread has flushed its line and then made a fence.
pub fn mend_law()
    ensures { MendLaw }
{}

/// The memory's steps are those of its list of words.
pub fn memory_law()
    ensures { MemoryLaw }
{}

/// A crash takes each word from one of its places, which the choice tells.
pub fn crash_law()
    ensures { CrashLeaves }
{}
