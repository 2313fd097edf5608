// The units of a coffer.
ghost use Rattle.zo_units.specs.Commits.{CommitLaw};
ghost use Rattle.zo_units.specs.UnitLaws.{AsideLaw, CountLaw, DropsLaw, FlushLaw, GrowLaw, RecoverLaw, SpareLaw, StartLaw, StoreLaw, SurviveLaw, UseLaw};

/// Whatever a crash leaves denotes the tree without the last commits that it loses.
pub fn survive_law()
    ensures { SurviveLaw }
{}

/// Which commits a crash loses can be told by their positions.
pub fn drops_law()
    ensures { DropsLaw }
{}

/// All stays sound that spares the words that tell the tree, now or without an open commit.
pub fn spare_law()
    ensures { SpareLaw }
{}

/// No such word is where a call may store beside its commit.
pub fn aside_law()
    ensures { AsideLaw }
{}

/// Stores and exchanges aside of the words that tell the tree keep all sound.
pub fn store_law()
    ensures { StoreLaw }
{}

/// Any thread's flushes and fences keep all sound.
pub fn flush_law()
    ensures { FlushLaw }
{}

/// Pages that come to a coffer keep all sound.
pub fn grow_law()
    ensures { GrowLaw }
{}

/// A page of no use may be given any use.
pub fn use_law()
    ensures { UseLaw }
{}

/// The commit of a link leaves all sound, with the new member, and the commit as its directory's last one.
pub fn commit_law()
    ensures { CommitLaw }
{}

/// A coffer whose words are durable is sound, without a commit.
pub fn start_law()
    ensures { StartLaw }
{}

/// After a crash a coffer is sound again.
pub fn recover_law()
    ensures { RecoverLaw }
{}

/// How many names a directory has without the commits that a crash loses.
pub fn count_law()
    ensures { CountLaw }
{}
