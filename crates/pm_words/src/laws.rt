//! Laws of the memory, which say what its words keep and what a crash may leave.

ghost use Rattle.pm_words.specs.Crash.{CrashLaw};
ghost use Rattle.pm_words.specs.History.{KeepsAll};

/// What is kept of a word, its crash list and the marks past the floor, shows all that any later
/// stores, flushes, fences and crashes show of its whole history.
pub fn history_law()
    ensures kept { KeepsAll }
{}

/// A crash leaves in each word a value of its crash list, and makes it durable, whatever was chosen.
pub fn crash_law()
    ensures left { CrashLaw }
{}
