//! Chains from one node that share their beginnings, and the names of the nodes on them.
#![tactic(auto)]

mod kept;
mod names;
mod tree;

pub use names::NodeNames;
pub use tree::ChainTree;
