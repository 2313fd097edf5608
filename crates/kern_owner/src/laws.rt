// Laws of the definitions alone: functions that do nothing, for what they ensure.
ghost use Rattle.std.specs.Prelude.{ℕ};
ghost use Rattle.kern_owner.specs.Laws.{IsOwnTable, PairsPass, PassKeepsRules, GrantGives, GrantKeepsRules, ReturnFrees, ReturnKeepsOwners, ReturnKeepsEntries, ReturnKeepsBuckets};

/// Each page has its own word in the owner table, in order of the pages, and none of these is a word of
/// another table.
pub fn owner_word_law()
    ensures { (pages : ℕ) → IsOwnTable pages }
{}

/// Pairs that make pages an owner's, stored, make these pages the owner's and change nothing else. Where
/// it is a coffer that is there, and the pages are no other coffer's own two and not the kernel's, the
/// tables break no rule after.
pub fn pass_law()
    ensures gives { PairsPass }
    ensures rules { PassKeepsRules }
{}

/// The pairs of a grant, stored, make the granted pages the coffer's and change nothing else, so that
/// the other free pages are left. Where the coffer is there, the tables break no rule after.
pub fn grant_law()
    ensures gives { GrantGives }
    ensures rules { GrantKeepsRules }
{}

/// The pairs of pages that are taken back, stored, make these pages nobody's and change nothing else. No
/// owner word and no path bucket breaks a rule after, and no coffer whose own two pages stay.
pub fn take_back_law()
    ensures frees { ReturnFrees }
    ensures owners { ReturnKeepsOwners }
    ensures entries { ReturnKeepsEntries }
    ensures buckets { ReturnKeepsBuckets }
{}
