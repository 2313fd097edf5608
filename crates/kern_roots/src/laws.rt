// Laws of the definitions alone.
ghost use Rattle.kern_roots.specs.Laws.{AddLaw, BucketLaw, DropLaw, OrderLaw, PermLaw, RootLaw, StateLaw};

/// After a coffer has come, it is as it was given, the others are as they were, and the table is sound
/// where the new coffer's entry is.
pub fn add_law()
    ensures { AddLaw }
{}

/// After a coffer other than the root coffer has gone, its number is free, the others are as they were,
/// and the table is sound.
pub fn drop_law()
    ensures { DropLaw }
{}

/// After a coffer's permission has changed, the others are as they were, and the table is sound where
/// the coffer's own entry is.
pub fn perm_law()
    ensures { PermLaw }
{}

/// After a coffer's state has changed to one in which it is there, the others are as they were, and the
/// table is sound where the coffer's own entry is.
pub fn state_law()
    ensures { StateLaw }
{}

/// After a coffer's root page has changed, the others are as they were, and the table is sound where the
/// coffer's own entry is.
pub fn root_law()
    ensures { RootLaw }
{}

/// Each change keeps the rule of the path buckets, whatever text stands as a path: one that is none too.
pub fn bucket_law()
    ensures { BucketLaw }
{}

/// The pairs of each change stand in order of address.
pub fn order_law()
    ensures { OrderLaw }
{}
