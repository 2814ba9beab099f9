//! Levels of what a problem causes.

use cb_model::{List, NodeName};

/// A node that is listed. `node` is its number among the nodes, `level` its distance from the problem in edges, and `parent` the
/// position of the entry from which an edge leads to it. Numbers and positions count from 1, and the first entry's parent is 0.
#[derive(Clone, Copy, Debug, PartialEq, Eq)]
pub struct LevelEntry {
    pub node: u32,
    pub level: u32,
    pub parent: u32,
}

/// Nodes in order, and an entry for each of them, that of the problem first.
#[derive(Drop)]
pub struct Levels {
    pub nodes: List<NodeName>,
    pub entries: List<LevelEntry>,
}
