// The calls that are under way, a place for each thread.
ghost use Rattle.std.specs.Prelude.{◌≡◌, ℕ, ◌<◌, None, IfOk};
ghost use Rattle.std.specs.Option.{option_copied};
ghost use Rattle.tr_types.specs.declared.limits.TheConstants.{THREADS as MOST};
ghost use Rattle.tr_model.specs.Worlds.{put};
ghost use Rattle.tr_core.specs.Places.{place_in};

use std::alloc::{AllocError, Global};
use std::marker::Model;
use tr_dispatch::{Session, SessionStep};
use tr_types::THREADS;

/// A call's session, and its next step, which hasn't been made.
#[derive(Debug, Drop)]
pub struct Ready {
    pub session: Session,
    pub next: SessionStep,
}

/// A call that is under way.
#[derive(Debug, Drop)]
pub struct Waiting {
    // On the heap, so that a turn moves neither session nor step.
    pub call: Box<Ready>,
}

/// The call of each thread that has one.
#[derive(Drop)]
pub struct Calls {
    // One for each thread that can be.
    places: Vec<Option<Waiting>>,
}

impl Model for Calls {
    ghost use Rattle.std.specs.Prelude.{◌≡◌, List, Option, length};
    ghost use Rattle.tr_types.specs.declared.limits.TheConstants.{THREADS as MOST};
    ghost use Rattle.tr_core.specs.declared.calls.Waiting.{Waiting};

    ghost Value = { List (Option Waiting) };

    ghost view = { λ c. c.places.items };

    ghost invariant = { λ c. length c.places.items ≡ MOST };
}

impl Calls {
    /// No thread has a call.
    pub fn new(alloc: Global) -> Result<Calls, AllocError>
        ensures { IfOk result (λ calls. (thread : ℕ) → place_in calls thread ≡ None) }
    {
        let mut places = Vec::with_capacity(alloc, usize::from(THREADS))?;
        for _ in 0..THREADS {
            places.push(None)?;
        }
        Ok(Calls { places })
    }

    /// The call of a thread.
    pub fn of(&self, thread: u16) -> Option<&Waiting>
        ensures { option_copied result ≡ place_in self.now thread }
    {
        self.places.get(usize::from(thread))?.as_ref()
    }

    /// Takes a thread's call out, if it has one.
    pub fn take(&mut self, thread: u16) -> Option<Waiting>
        requires { thread < MOST }
        ensures taken { result ≡ place_in self.old thread }
        ensures left { (t : ℕ) → place_in self.new t ≡ put (place_in self.old) thread None t }
    {
        self.places[usize::from(thread)].take()
    }

    /// Gives a thread a call, or none, in place of what it has.
    pub fn set(&mut self, thread: u16, waiting: Option<Waiting>)
        requires { thread < MOST }
        ensures { (t : ℕ) → place_in self.new t ≡ put (place_in self.old) thread waiting t }
    {
        self.places[usize::from(thread)] = waiting;
    }
}
