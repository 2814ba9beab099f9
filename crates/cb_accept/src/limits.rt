//! How much a topology may have.

/// The most live instances.
pub const MOST_INSTANCES: usize = 16_384;

/// The most nodes.
pub const MOST_NODES: usize = 65_536;

/// The most problems.
pub const MOST_PROBLEMS: usize = 8_192;

/// The most symptom nodes, muted or not.
pub const MOST_SYMPTOMS: usize = 8_192;
