//! The tests of records, of windows, and of a session that takes a log line by line.
//!
//! They stand in a crate of their own, since a crate's tests are proved together with the whole crate once more.
#![tactic(auto)]

#[cfg(test)]
mod alarm;
#[cfg(test)]
mod session;
#[cfg(test)]
mod window;
