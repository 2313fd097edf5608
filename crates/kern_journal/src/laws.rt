// Laws of the definitions alone: functions that do nothing, for what they ensure.
ghost use Rattle.kern_model.specs.JournalLaws.{ApplyLaw, CrashLaw, CutLaw, ViewLaw, IdleLaw};

/// After all events of `apply`, on pairs for different words outside the journal, with nothing
/// committed: each pair is durable, nothing is committed, and every other word outside the journal
/// has its value still.
pub fn apply_law()
    ensures { ApplyLaw }
{}

/// After a whole `redo` nothing is committed, the pairs that were are durable, and the kernel reads
/// what it read. Where nothing is committed, it reads the words themselves.
pub fn view_law()
    ensures finished { ViewLaw }
    ensures idle { IdleLaw }
{}

/// A crash after any number of events of `apply`, then any number of crashes inside of `redo`, and
/// then a whole `redo`, leave all pairs or none.
pub fn crash_law()
    ensures { CrashLaw }
{}

/// Crashes inside of `redo` change nothing of what a whole one does for the committed pairs.
pub fn cut_law()
    ensures { CutLaw }
{}
