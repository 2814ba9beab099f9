//! Capacity for one search after the other.
use cb_bits::Row;

/// What a search has met and done. No search begins with what an earlier one left here.
#[derive(Drop)]
pub struct Scratch {
    /// The nodes that were met along edges.
    pub found: Row,
    /// Those of them that were visited.
    pub done: Row,
    /// The words of the finished rows that were taken over.
    pub joined: Vec<u64>,
}
