// Laws of the definitions alone: functions that do nothing, for what they ensure.
ghost use Rattle.kern_model.specs.Commits.{CommitLaw};
ghost use Rattle.kern_commit.specs.Crashes.{CommitCrashLaw, OthersLaw};

/// What a commit leaves: the given pages are zeroed, each pair is stored, all that is durable, and every
/// other word outside the journal has the value that it had.
pub fn commit_law()
    ensures { CommitLaw }
{}

/// A crash at any moment inside of a commit, any crashes inside of the `redo` that follows, and then a
/// whole `redo`: all pairs are stored and the given pages zeroed, or each word that a pair names is as a
/// crash might have left it before. Given pages may be zeroed in part, and every other word outside the
/// journal is as a crash might have left it. Where the commit was at its end, all is there.
///
/// After a whole commit a crash leaves nothing in another word that it mightn't have left before.
pub fn crash_law()
    ensures inside { CommitCrashLaw }
    ensures others { OthersLaw }
{}
