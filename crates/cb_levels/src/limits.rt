//! How much levels may have.

/// The text of levels has at most this many nodes, and as many entries; no level or parent is above it.
pub const MOST_NODES: u32 = 65_536;
