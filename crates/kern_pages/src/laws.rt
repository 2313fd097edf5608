// Laws of the definitions alone: functions that do nothing, for what they ensure.
ghost use Rattle.std.specs.Prelude.{List};
ghost use Rattle.pm_words.specs.Word.{Word};
ghost use Rattle.kern_pages.specs.Owners.{TellsOwners};

/// The list of owners says what the owner table says.
pub fn owners_law()
    ensures { (words : List Word) → TellsOwners words }
{}
