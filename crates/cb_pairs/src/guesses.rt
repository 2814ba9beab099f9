//! All guesses, in order.
ghost use Rattle.std.specs.Prelude.{◌≡◌, ◌<◌, ◌++◌, IfOk, OnOk};
ghost use Rattle.cb_pairs.specs.Guesses.{guesses_of as all_guesses, with_later};

use crate::guess::Guess;
use cb_model::List;
use std::alloc::{AllocError, Global};

/// The guesses of `count` groups.
pub(crate) fn guesses_of(alloc: Global, count: u32) -> Result<List<Guess>, AllocError>
    ensures { IfOk result (λ guesses. guesses ≡ all_guesses count) }
{
    let mut guesses = Vec::new(alloc);
    for group in 0..count {
        guesses.push(Guess {
            first: group,
            second: None,
        })?;
    }
    for first in 1..count.max(1) {
        add_later(&mut guesses, first, count)?;
    }
    Ok(List::of(guesses))
}

// Adds a group with each later one.
fn add_later(guesses: &mut Vec<Guess>, first: u32, count: u32) -> Result<(), AllocError>
    requires { first < count }
    ensures { OnOk result (guesses.new.items ≡ guesses.old.items ++ with_later count first) }
{
    for second in first + 1..count {
        guesses.push(Guess {
            first,
            second: Some(second),
        })?;
    }
    Ok(())
}
