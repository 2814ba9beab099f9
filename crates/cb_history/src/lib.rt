//! Histories of a topology under edits that can be undone: definitions and laws.
//!
//! A history is a topology and those before its last accepted edits (`specs/Histories.antt`). An accepted edit is undone by a list of
//! edits (`specs/Inverse.antt`): a Delete by a Create, and a Link and a Mute for each link and mute that it removed. Each of them is
//! accepted in turn, and after the last one the topology is the earlier one (`inverse_takes_back`). So lists of edits represent
//! earlier topologies (`specs/Records.antt`).
#![tactic(auto)]

pub mod laws;
mod moves;
mod script;

pub use moves::Move;
pub use script::{LineReport, ScriptLine};
