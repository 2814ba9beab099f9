//! Numbers of nodes.

/// A node, by its number.
#[derive(Clone, Copy, Debug, PartialEq, Eq)]
pub struct NodeId(pub u32);
