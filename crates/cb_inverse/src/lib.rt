//! The edits that undo an accepted edit, made from the topology before it.
//!
//! `inverse_of(alloc, topology, &accepted)?` is called before the edit is made. Its edits undo the edit afterwards
//! (`inverse_takes_back` of cb_history).
#![tactic(auto)]

mod copy;
mod inverse;
mod links;
mod mutes;
mod rebuild;
mod reverse;

pub use inverse::{Inverse, inverse_of};
pub use rebuild::Rebuild;
