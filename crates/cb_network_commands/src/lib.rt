//! The commands on a model or a network as it stands, a file each.
#![tactic(auto)]

pub mod burst;
pub mod codebook;
mod fitting;
mod judge;
pub mod matrix;
pub mod model;
pub mod pairs;
pub mod rewind;
mod rewinding;
pub mod verify;
