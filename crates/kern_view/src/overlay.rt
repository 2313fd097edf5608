// Values laid over the words of an image.
ghost use Rattle.std.specs.Prelude.{◌≡◌, ℕ, IfOk};
ghost use Rattle.std.specs.Map.{lookup};
ghost use Rattle.kern_model.specs.Journal.{laid_over};

use indexmap::IndexMap;
use pm_words::NoMemory;
use std::alloc::Global;
use std::marker::Model;

/// Pairs of a byte address and the value that is read there in place of the word's own.
#[derive(Drop)]
pub struct Overlay {
    values: IndexMap<u64, u64>,
}

impl Model for Overlay {
    ghost use Rattle.std.specs.Prelude.{List, ℕ, reverse};

    // pairs, of which the last for an address counts
    ghost Value = { List (ℕ × ℕ) };

    ghost view = { λ m. reverse m.values.entries };
}

impl Overlay {
    /// What these pairs say, of which the last for an address counts.
    pub fn of(alloc: Global, pairs: &[(u64, u64)]) -> Result<Overlay, NoMemory>
        ensures { IfOk result (λ overlay. (addr default : ℕ) → laid_over overlay addr default ≡ laid_over pairs.now addr default) }
    {
        let mut values = IndexMap::new(alloc);
        for &(addr, value) in pairs {
            values.insert(addr, value)?;
        }
        Ok(Overlay { values })
    }

    /// The value at an address, and the default where none is laid there.
    pub fn get(&self, addr: u64, default: u64) -> u64
        ensures { result ≡ laid_over self.now addr default }
    {
        match self.values.get(&addr) {
            Some(&value) => value,
            None => default,
        }
    }
}
