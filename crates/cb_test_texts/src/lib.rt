//! The tests of texts that are generated or printed.
//!
//! They stand in a crate of their own, since a crate's tests are proved together with the whole crate once more.
#![tactic(auto)]

#[cfg(test)]
mod cert;
#[cfg(test)]
mod levels;
#[cfg(test)]
mod made_up;
#[cfg(test)]
mod report;
