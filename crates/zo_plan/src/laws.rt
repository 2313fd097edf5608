// Laws of runs under leases. Each function is empty, and its clause is a law of the definitions alone.
ghost use Rattle.zo_plan.specs.Laws.{LookLaw, ExpiredLaw, DamagedLaw, CountLaw, PlaceLaw};

/// Each store of a run outside the drawn pages comes directly after looks at all leases, each of which has shown the call's own
/// word, not expired.
pub fn look_law()
    ensures { LookLaw }
{}

/// A run answers that a lease has expired exactly where a look before the commit has shown it, or another word.
pub fn expired_law()
    ensures { ExpiredLaw }
{}

/// A run answers damage exactly where its last action, no later than the commit, was refused.
pub fn damaged_law()
    ensures { DamagedLaw }
{}

/// How many actions a run has at most.
pub fn count_law()
    ensures { CountLaw }
{}

/// The note and the counter lie beside the leases of directories and coffers.
pub fn place_law()
    ensures { PlaceLaw }
{}
