//! Kinds of nodes.

/// Which nodes are listed.
#[derive(Clone, Copy, PartialEq, Eq)]
pub enum NodeKind {
    /// The symptoms that are not muted.
    Column,
    Problem,
    /// All nodes.
    Any,
}
