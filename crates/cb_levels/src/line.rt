//! The lines of the text of levels.

use crate::levels::LevelEntry;
use cb_model::NodeName;

/// A line of the text of levels.
#[derive(Drop)]
pub enum LevelLine {
    /// The first line.
    Header,
    /// How many nodes follow.
    Nodes(u32),
    Node(NodeName),
    /// How many entries follow.
    Entries(u32),
    Entry(LevelEntry),
    /// The last line.
    End,
}
