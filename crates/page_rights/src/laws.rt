// Laws of the definitions alone: functions that do nothing, for what they ensure.
ghost use Rattle.page_rights.specs.Laws.{OnlyOneKey, ClosedToAll, OpensItsCofferAlone, ClosedOpensNothing, NoKeyMeansFifteenOthers, RowTellsAll, PutsThesePages};

/// `Pkru::only` opens one key of 1 to 15 and no other, and `Pkru::closed` opens none.
pub fn register_law()
    ensures one { OnlyOneKey }
    ensures none { ClosedToAll }
{}

/// Under a key open alone a thread reaches the pages of that key's coffer and no others, and with none
/// open no page. A coffer has no key exactly where its process has 15 others mapped.
pub fn keys_law()
    ensures alone { OpensItsCofferAlone }
    ensures nothing { ClosedOpensNothing }
    ensures fifteen { NoKeyMeansFifteenOthers }
{}

/// A thread's own row of a coffer tells whether the thread holds it, for writing, and as its owner.
pub fn row_law()
    ensures { RowTellsAll }
{}

/// Pages that are put under a coffer, or under none, stand there, and each other page where it stood.
pub fn pages_law()
    ensures { PutsThesePages }
{}
