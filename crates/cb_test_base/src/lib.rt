//! The tests of the crates that stand lowest: steps, words and rows of bits, compact rows, pools of rows, text, reads and writes.
//!
//! They stand in a crate of their own, since a crate's tests are proved together with the whole crate once more.
#![tactic(auto)]

#[cfg(test)]
mod bits;
#[cfg(test)]
mod compact;
#[cfg(test)]
mod io;
#[cfg(test)]
mod lanes;
#[cfg(test)]
mod pool;
#[cfg(test)]
mod steps;
#[cfg(test)]
mod text;
