// What a new member leaves of its coffer.
ghost use Rattle.zo_laws.specs.Growing.{GrowDenotes, GrowLaw};
ghost use Rattle.zo_laws.specs.Making.{MakeLaw};

/// However many of the stores are made that prepare a new file or directory, the coffer's words denote the tree as it
/// was; and after the commit they denote it with the new member, with the free entries and entry pages right again.
pub fn make_law()
    ensures { MakeLaw }
{}

/// Pages that come to a coffer change nothing of what its words denote, nor what rests.
pub fn grow_law()
    ensures denotes { GrowDenotes }
    ensures rests { GrowLaw }
{}
