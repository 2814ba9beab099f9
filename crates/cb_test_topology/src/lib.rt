//! The tests of the live network: its instances and links, its edits, and its text.
//!
//! They stand in a crate of their own, since a crate's tests are proved together with the whole crate once more.
#![tactic(auto)]

#[cfg(test)]
mod accept;
#[cfg(test)]
mod edits;
#[cfg(test)]
mod inputs;
#[cfg(test)]
mod instances;
#[cfg(test)]
mod topo;
