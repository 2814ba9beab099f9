//! A count of steps that contracts see, and tests too.
#![tactic(auto)]

ghost use Rattle.std.specs.Prelude.{◌≡◌, ◌+◌, ◌<◌, ◌^◌, ℕ};

mod seal;

use std::marker::Model;
use std::sync::ledger::{Blank, Book, Ledger, Share};

/// What a count is started with: the runtime, which only `main` and the tests are handed. No other crate can make another type one.
pub trait MayCount: seal::Sealed {}

impl MayCount for HostRuntime {}

/// How many steps were counted. Contracts see the number itself. The ledger `L` only names the count, so that the
/// tokens of two counts cannot be mixed: code that counts takes any `L`, and who starts a count picks one.
#[derive(Drop)]
pub struct Steps<L: Ledger> {
    book: Book<L>,
    share: Share<L>,
    count: u64,
}

impl<L: Ledger> Model for Steps<L> {
    ghost use Rattle.std.specs.Prelude.{◌<◌, ℕ};
    ghost use Rattle.cb_steps.specs.Counted.{IsCounted};

    ghost Value = { ℕ };

    ghost view = { λ s. s.book.total };

    ghost invariant = { λ s. (0 < s.share.parts) × IsCounted s.book.total s.count };
}

impl<L: Ledger> Steps<L> {
    /// A count from 0 on, in the ledger that the blank is for: `Steps::new(&rt, Blank::new(1))` where `L` is picked. Only what is
    /// handed the runtime can start a count, so code that is handed none counts on the count that it is given, or on none.
    pub fn new<R: MayCount>(_rt: &R, blank: Blank) -> Self
        requires name { blank.name ≡ L.name }
        requires parts { blank.parts ≡ L.parts }
        requires some { 0 < L.parts }
        ensures { result ≡ 0 }
    {
        let (book, share) = blank.open();
        Steps {
            book,
            share,
            count: 0,
        }
    }

    /// Counts one step.
    pub fn tick(&mut self)
        ensures { self.new ≡ self.old + 1 }
    {
        self.book.add(&mut self.share, 1);
        self.count = self.count.saturating_add(1);
    }

    /// How many steps were counted, as long as that fits into a `u64`.
    pub fn count(&self) -> u64
        ensures { self.now < 2 ^ 64 → result ≡ self.now }
    {
        self.count
    }
}
