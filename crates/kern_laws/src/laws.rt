// Laws of the definitions alone: functions that do nothing, for what they ensure.
ghost use Rattle.kern_model.specs.Commits.{RowLaw, StoreLaw};
ghost use Rattle.kern_laws.specs.Rows.{TablesLaw};
ghost use Rattle.kern_laws.specs.Crashes.{CallCrashLaw, KernelCrashLaw, SteadyLaw};

use kern_commit::{commit_law, crash_law as commit_crash_law};
use kern_roots::{add_law, drop_law, perm_law, state_law};

/// Where no refusal of a call's row is due, what it commits can be committed, and the kernel works over
/// what is left, with the row's holders.
pub fn row_law()
    ensures { RowLaw }
{
    tables_law();
}

// What each row leaves of the kernel's tables.
fn tables_law()
    ensures { TablesLaw }
{
    add_law();
    drop_law();
    perm_law();
    state_law();
}

/// A store to a page that isn't the kernel's leaves the kernel working, and its pages as they were; where a
/// crash could change nothing of these, it still can't.
pub fn store_law()
    ensures { StoreLaw }
{}

/// A crash at any moment inside of a call that isn't refused, and then a whole `redo`, by which a mount
/// finishes what is committed, leave all of the call's words or none. All, where that crash leaves word 0
/// of the journal other than 0, or where the call had come past the steps that store its words; none,
/// where it leaves 0 there before. Any number of crashes may come inside of that `redo`. None is: each word that the call would store
/// is as a crash might have left it before the call, and so is every other word outside the journal, but
/// that pages which the call would give may be zeroed in part. All is: what the call stores is durable,
/// and the pages that it gives are zeroed.
///
/// Where a crash could change nothing of the kernel's pages before the call, the kernel then reads all of
/// them as before the call, or all as after it, by the same value, and works over what is left. A crash could change nothing
/// of these pages then, nor after a whole call.
pub fn crash_law()
    ensures call { CallCrashLaw }
    ensures kernel { KernelCrashLaw }
    ensures steady { SteadyLaw }
{
    tables_law();
    commit_law();
    commit_crash_law();
}
