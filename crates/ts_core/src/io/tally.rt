//! A ghost counter: it has size 0, and its methods do nothing at run time.
ghost use Rattle.std.specs.Prelude.{◌≡◌, ℕ, ◌+◌};
ghost use Rattle.std.specs.Borrow.{ftrue};

use std::marker::{Model, PhantomData};
use std::mem::size_of;

/// Ghost counter of an event. Nothing but the bodies that call `tick` relates it to the event.
#[derive(Drop)]
pub(crate) struct Tally {
    marker: PhantomData<u8>,
    pub ghost count: { ℕ },
}

impl Model for Tally {
    ghost also_owns = { λ _. ftrue };
}

impl Tally {
    /// Creates a counter at 0.
    pub fn new() -> Tally
        ensures { result.count ≡ 0 }
    {
        Tally {
            marker: PhantomData,
        }
    }

    /// Adds one.
    pub fn tick(&mut self)
        ensures { self.new.count ≡ self.old.count + 1 }
    {}
}

const _: () = prove!(size_of::<Tally>() == 0);
