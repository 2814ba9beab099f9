//! The tests of codes, groups, the reduction of a codebook, and what is nearest to a word.
//!
//! They stand in a crate of their own, since a crate's tests are proved together with the whole crate once more.
#![tactic(auto)]

#[cfg(test)]
mod cap;
#[cfg(test)]
mod codes;
#[cfg(test)]
mod decode;
#[cfg(test)]
mod distance;
#[cfg(test)]
mod pairs;
#[cfg(test)]
mod reduce;
