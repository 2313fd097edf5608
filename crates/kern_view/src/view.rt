// The words of an image as the kernel reads them.
ghost use Rattle.std.specs.Prelude.{◌≡◌, length, IfOk};
ghost use Rattle.pm_words.specs.Memory.{IsAddress, HasPages};
ghost use Rattle.kern_model.specs.KernelView.{pages_of};
ghost use Rattle.kern_model.specs.Journal.{kernel_word, IsReadable};

use crate::overlay::Overlay;
use kern_journal::committed;
use pm_words::{NoMemory, Words};
use std::alloc::Global;
use std::marker::Model;

/// The words of an image with the committed pairs laid over them.
#[derive(Drop)]
pub struct View<'a> {
    words: &'a Words,
    committed: Overlay,
}

impl<'a> Model for View<'a> {
    ghost use Rattle.std.specs.Prelude.{List};
    ghost use Rattle.std.specs.Coded.{coded_list};
    ghost use Rattle.pm_words.specs.Word.{Word};

    ghost Value = { List Word };

    ghost use Rattle.kern_view.specs.Reads.{AreLaid};

    ghost view = { λ m. m.words.now };

    ghost invariant = { λ m. AreLaid m.words.now m.committed };
}

impl<'a> View<'a> {
    /// What the kernel reads in these words.
    pub fn new(alloc: Global, words: &'a Words) -> Result<View<'a>, NoMemory>
        requires { IsReadable words.now }
        ensures { IfOk result (λ view. view ≡ words.now) }
    {
        let committed = Overlay::of(alloc, &committed(alloc, words)?)?;
        Ok(View { words, committed })
    }

    /// The number of pages.
    pub fn pages(&self) -> u32
        ensures pages { result ≡ pages_of self.now }
        ensures size { HasPages (length self.now) }
    {
        self.words.pages()
    }

    /// What the kernel reads at a byte address.
    pub fn word(&self, addr: u64) -> u64
        requires { IsAddress (length self.now) addr }
        ensures { result ≡ kernel_word self.now addr }
    {
        self.committed.get(addr, self.words.load(addr))
    }
}
