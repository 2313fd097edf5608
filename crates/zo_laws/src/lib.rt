//! Laws of what the words of a directory and of a coffer denote, and of what a run of a plan leaves in the memory. Each
//! function is empty, and its clause is a law of the definitions alone.
#![tactic(auto)]

mod links;
mod makes;
mod run_words;

ghost use Rattle.zo_laws.specs.Laws.{OneChain, OneTree, NamesStay, TreeStays, RestStays};
ghost use Rattle.zo_laws.specs.NameCounts.{NamesCounted};
ghost use Rattle.zo_laws.specs.Scenes.{DirectoriesShow, DirectoriesGrow};

pub use links::link_law;
pub use makes::{grow_law, make_law};
pub use run_words::{counter_law, durable_law, note_law, others_law, stores_law};

/// A word leads to one list of entries.
pub fn one_chain()
    ensures { OneChain }
{}

/// Two trees that the same words denote have the same node at each path.
pub fn one_tree()
    ensures { OneTree }
{}

/// A directory shows the same names where its bucket heads and the words of its reached entries stay.
pub fn names_stay()
    ensures { NamesStay }
{}

/// The words denote the same tree where those stay that tell it.
pub fn tree_stays()
    ensures { TreeStays }
{}

/// What else holds between calls stays too where moreover the free entries and the pools do.
pub fn rest_stays()
    ensures { RestStays }
{}

/// The names counted in a directory's words are those of its members and of the coffers directly under it.
pub fn names_counted()
    ensures { NamesCounted }
{}

/// A directory of a coffer shows what the tree wants, so that a look-up finds no damage in it.
pub fn directories_show()
    ensures { DirectoriesShow }
{}

/// At rest an entry can be made in each directory.
pub fn directories_grow()
    ensures { DirectoriesGrow }
{}
