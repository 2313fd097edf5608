// What a link leaves.
ghost use Rattle.zo_laws.specs.Linking.{LinkLaw};

/// The stores that prepare a link leave the directory as it shows, however many of them are made, and after the commit
/// it shows the name with its target beside what it showed. Its free entries are right again once all is prepared: the
/// first one is taken, or eleven of the drawn page have come.
pub fn link_law()
    ensures { LinkLaw }
{}
