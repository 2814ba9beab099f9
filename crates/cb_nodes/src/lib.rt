//! Numbers for the events of instances, which stay as long as the instance is there.
#![tactic(auto)]

mod id;
mod listed;
mod lists;
mod node;
mod numbers;
mod table;

pub use id::NodeId;
pub use node::Node;
pub use table::NodeTable;

#[cfg(test)]
mod tests;
