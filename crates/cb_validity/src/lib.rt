//! What a certificate claims of a topology: when it is valid, what is reported where it isn't, and which one is canonical.
#![tactic(auto)]

pub mod laws;
mod verdict;

pub use verdict::{Accepted, Rejected};
