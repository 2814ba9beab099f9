//! What a node of a graph leads to, as a tree in breadth.
#![tactic(auto)]

mod levels;
mod search;
mod successors;
mod visit;

pub use search::{Searches, level_tree, tree};
pub use visit::{LevelVisit, Order, Visit};
