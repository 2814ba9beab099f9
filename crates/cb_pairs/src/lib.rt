//! One group of problems or two at once: which of these guesses are nearest to what is raised.
#![tactic(auto)]

mod codes;
mod guess;
mod guesses;
mod landmarks;
pub mod laws;
mod nearest;
mod pairs;
mod separation;

pub use guess::{Fits, Guess, PairFault};
pub use pairs::{Pairs, radius};
