//! The commands on a log: `correlate` and `decode`, which follow one line by line, and `grow`, which generates one and sums it up.
#![tactic(auto)]

pub mod correlate;
pub mod decode;
mod follow;
pub mod grow;
mod stop;
mod sum_up;
mod telling;
