//! The calls of a fake.
ghost use Rattle.std.specs.Prelude.{◌≡◌, ◌↔◌, IsTrue, OnOk, OnErr};
ghost use Rattle.cb_io.specs.Memory.{next_call, with_failing, no_calls, IsNextFailing};

use std::alloc::{AllocError, Global};
use std::marker::Model;

// How many calls there were, and the numbers of those that are to fail. The first call has the number 1.
#[derive(Drop)]
pub(crate) struct Calls {
    made: u64,
    failing: Vec<u64>,
}

impl Model for Calls {
    ghost use Rattle.cb_io.specs.Memory.{CallsState};

    ghost Value = { CallsState };

    ghost view = { λ c. record { made = c.made; failing = c.failing.items } };
}

impl Calls {
    pub(crate) fn new(alloc: Global) -> Self
        ensures { result ≡ no_calls }
    {
        Calls {
            made: 0,
            failing: Vec::new(alloc),
        }
    }

    pub(crate) fn fail_at(&mut self, call: u64) -> Result<(), AllocError>
        ensures ok { OnOk result (self.new ≡ with_failing self.old call) }
        ensures err { OnErr result (self.new ≡ self.old) }
    {
        self.failing.push(call)?;
        Ok(())
    }

    // Counts a call, and says whether it is to fail.
    pub(crate) fn count(&mut self) -> bool
        ensures counted { self.new ≡ next_call self.old }
        ensures due { IsTrue result ↔ IsNextFailing self.old }
    {
        self.made = self.made.saturating_add(1);
        self.failing.contains(&self.made)
    }
}
