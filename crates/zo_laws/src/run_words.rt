// What a run of a plan under leases leaves in the memory.
ghost use Rattle.zo_laws.specs.RunWords.{OthersLaw, DurableLaw, NoteLaw, CounterLaw, StoresLaw};

/// What other threads leave of a word by flushes, by fences, and by stores elsewhere.
pub fn others_law()
    ensures { OthersLaw }
{}

/// Whatever other threads do but for stores to the word: each word that a run has prepared is durable when the commit is
/// given, and the commit word is durable once the flush and the fence behind the commit are made.
pub fn durable_law()
    ensures { DurableLaw }
{}

/// Before the commit is given, each lease's note has the address of the commit word.
pub fn note_law()
    ensures { NoteLaw }
{}

/// Before the commit is given, each lease's counter is raised by 1, where nothing else of the run goes there.
pub fn counter_law()
    ensures { CounterLaw }
{}

/// The stores of a run are those of its plan and the notes, and its words are as these leave them.
pub fn stores_law()
    ensures { StoresLaw }
{}
