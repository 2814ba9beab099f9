//! How much a certificate may have.

/// A certificate has at most this many nodes, and so has a span.
pub const MOST_NODES: u32 = 65_536;

/// A certificate has at most this many columns, and at most this many spans.
pub const MOST_COLUMNS: u32 = 8_192;

/// A certificate has at most this many radii, one for each group.
pub const MOST_RADII: u32 = 8_193;

/// A radius is at most this.
pub const GREATEST_RADIUS: u32 = 4_999;

/// The spans of a certificate have together at most this many entries.
pub const MOST_ENTRIES: u32 = 1_048_576;

/// A distance that is wanted is at most this, and so is a cap.
pub const LONGEST_WANTED: u32 = 9_999;
