// A change as data.
ghost use Rattle.std.specs.Prelude.{◌≡◌, ◌+◌, ◌*◌, ◌<◌, ◌^◌, ◌∷◌, IfOk};
ghost use Rattle.zo_plan.specs.Operands as spec;

use std::alloc::AllocError;
use zo_layout::{page_at, word_of};

/// A word or an address of a plan. What lies in a page that is still to be drawn gets its address once it is drawn.
#[derive(Clone, Copy, Debug, PartialEq, Eq)]
pub enum Operand {
    Known(u64),
    /// Byte `byte` of the drawn page `page`, counted from 0.
    Drawn { page: u32, byte: u32 },
}

impl Operand {
    /// What it stands for where these pages are drawn, by their numbers.
    pub fn real(self, drawn: &[u32]) -> u64
        ensures { result ≡ spec.real drawn.now self }
    {
        match self {
            Operand::Known(word) => word,
            Operand::Drawn { page, byte } => match drawn.get(page as usize) {
                Some(page) => page_at(*page) + u64::from(byte),
                None => u64::from(byte),
            },
        }
    }

    /// Word `i` of what begins here.
    pub fn word_behind(self, i: u32) -> Operand
        requires near { spec.IsNear self }
        requires low { i < 2 ^ 20 }
        ensures { result ≡ spec.word_behind self i }
    {
        match self {
            Operand::Known(start) => Operand::Known(word_of(start, u64::from(i))),
            Operand::Drawn { page, byte } => Operand::Drawn {
                page,
                byte: byte + 8 * i,
            },
        }
    }
}

/// A store: an address and the word that goes there.
#[derive(Clone, Copy, Debug, PartialEq, Eq)]
pub struct Put {
    pub at: Operand,
    pub word: Operand,
}

/// A change: pages to be drawn, the stores that prepare it, the one store by which it comes about, and those after it.
#[derive(Debug, Drop)]
pub struct Plan {
    /// How many pages are to be drawn.
    pub fresh: u32,
    /// The stores that prepare the change, in order.
    pub prepares: Vec<Put>,
    /// The address of the commit word, which the holder of a lease notes.
    pub at: Operand,
    /// The store by which the change comes about.
    pub commit: Put,
    /// The stores that are made once the change is durable, in order.
    pub after: Vec<Put>,
    /// The pages that are given back after the change, by their numbers.
    pub freed: Vec<u32>,
}

impl Plan {
    /// The same plan with a store in front of those that prepare it, and with further pages to be drawn.
    pub fn prepared_by(mut self, put: Put, fresh: u32) -> Result<Plan, AllocError>
        requires few { self.fresh + fresh < 2 ^ 32 }
        ensures fresh { IfOk result (λ plan. plan.fresh ≡ self.fresh + fresh) }
        ensures prepares { IfOk result (λ plan. plan.prepares.items ≡ put ∷ self.prepares.items) }
        ensures at { IfOk result (λ plan. plan.at ≡ self.at) }
        ensures commit { IfOk result (λ plan. plan.commit ≡ self.commit) }
        ensures after { IfOk result (λ plan. plan.after.items ≡ self.after.items) }
        ensures freed { IfOk result (λ plan. plan.freed.items ≡ self.freed.items) }
    {
        self.prepares.insert(0, put)?;
        self.fresh += fresh;
        Ok(self)
    }
}
