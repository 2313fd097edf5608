//! Laws of replays: what a crash may drop, and that a trace is legal without it. Each function is empty, and its clause is a law of the
//! definitions alone.
#![tactic(auto)]

ghost use Rattle.tr_passing.specs.Laws.{AllowedBefore, CrashBefore, CrashLaw, DiffersMore, DroppedAllowed, FloorRises, LiveMore, OrderedMore, ReplyLaw, StartLaw, SureCommit, SurePoint, TidyMore};

/// What a crash may leave of a word only grows less, until it crashes.
pub fn floor_law()
    ensures { FloorRises }
{}

/// What holds in every world that entries lead to.
pub fn tidy_law()
    ensures { TidyMore }
{}

/// What a crash may drop after an entry, it might have dropped before.
pub fn allowed_law()
    ensures { AllowedBefore }
{}

/// What may be dropped behind a crash, might be before it, with what the crash drops or without.
pub fn crash_law()
    ensures { CrashBefore }
{}

/// The units stand to the world as before, after an entry that does what it owes.
pub fn ordered_law()
    ensures { OrderedMore }
{}

/// What a crash drops is allowed.
pub fn dropped_law()
    ensures { DroppedAllowed }
{}

/// The trace is legal without what a crash drops, and only changes without a reply are dropped, on which no later one rests.
pub fn legal_law()
    ensures { CrashLaw }
{}

/// What users see without dropped changes differs from what they see by the last changes of units alone.
pub fn differs_law()
    ensures { DiffersMore }
{}

/// One more entry that does what it owes keeps all of it.
pub fn live_law()
    ensures { LiveMore }
{}

/// All of it holds before any entry.
pub fn start_law()
    ensures { StartLaw }
{}

/// Under a still root directory a command is answered alike, whatever a crash drops.
pub fn reply_law()
    ensures { ReplyLaw }
{}

/// A change there is right whatever a crash drops.
pub fn sure_commit()
    ensures { SureCommit }
{}

/// A point there settles one reply, whatever a crash drops.
pub fn sure_point()
    ensures { SurePoint }
{}
