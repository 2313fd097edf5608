// How a coffer is linked in its parent. A call gives a link as the byte address of a word of the parent's,
// the word that must stand there and the word that comes there, and a guard as the byte address of another
// one and the word that must stand there.
ghost use Rattle.std.specs.Prelude.{◌≡◌};
ghost use Rattle.kern_model.specs.KernelCalls.{link_pair};
ghost use Rattle.kern_plans.specs.Links.{given_guard, link_of, linking_of};

/// A word of the parent's by which a coffer is linked: its byte address, the word that must stand there,
/// and the word that comes there.
#[derive(Clone, Copy)]
pub struct Link {
    pub addr: u64,
    pub old: u64,
    pub new: u64,
}

impl Link {
    /// The address, with the word that comes there.
    pub fn pair(self) -> (u64, u64)
        ensures { result ≡ link_pair (link_of self) }
    {
        (self.addr, self.new)
    }
}

/// A word of the parent's by its byte address, and the word that must stand there.
#[derive(Clone, Copy)]
pub struct Guard {
    pub addr: u64,
    pub word: u64,
}

impl Guard {
    /// The guard as a call gives it.
    pub fn new(guard: (u64, u64)) -> Guard
        ensures { result ≡ given_guard guard }
    {
        let (addr, word) = guard;
        Guard { addr, word }
    }
}

/// A link, and the guard under which it is made.
#[derive(Clone, Copy)]
pub struct Linking {
    pub link: Link,
    pub guard: Guard,
}

impl Linking {
    /// The link and the guard as a call gives them.
    pub fn new(link: (u64, u64, u64), guard: (u64, u64)) -> Linking
        ensures { result ≡ linking_of link guard }
    {
        let (addr, old, new) = link;
        Linking {
            link: Link { addr, old, new },
            guard: Guard::new(guard),
        }
    }
}
