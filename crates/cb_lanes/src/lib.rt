//! Kernels over rows of words: united, compared, counted, searched.
#![tactic(auto)]

mod compare;
mod count;
mod four;
mod join;
mod seek;

pub use compare::{and_any, equal};
pub use count::{distance, distance_under};
pub use join::or_into;
pub use seek::next_in_a_not_b;
