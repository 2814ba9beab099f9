//! What is wrong with levels: with their text, or with what they claim.
ghost use Rattle.std.specs.Prelude.{◌≡◌};
ghost use Rattle.cb_report.specs.FaultSources.{fault_of_level_text, fault_of_levels};

use crate::fault::Fault;
use cb_levels::{LevelFault, LevelText};
use cb_model::NodeName;

/// The first error of a text that isn't one of levels: what `LevelText` names, but for out of memory. Lines count from 1.
#[derive(Clone, Copy, Debug, PartialEq, Eq)]
pub enum LevelTextError {
    /// The first line isn't the header.
    BadHeader,
    /// No levels have this line after those before it.
    BadLine { line: u64 },
    /// The text ends before the last line of levels.
    Truncated,
    /// Another line follows the last one of levels.
    Extra { line: u64 },
}

impl<'w> From<LevelText> for Fault<'w> {
    ghost from_gives = { λ fault result. result ≡ fault_of_level_text fault };

    fn from(fault: LevelText) -> Fault<'w> {
        match fault {
            LevelText::BadHeader => Fault::LevelText(LevelTextError::BadHeader),
            LevelText::BadLine { line } => Fault::LevelText(LevelTextError::BadLine { line }),
            LevelText::Truncated => Fault::LevelText(LevelTextError::Truncated),
            LevelText::Extra { line } => Fault::LevelText(LevelTextError::Extra { line }),
            LevelText::NoMemory => Fault::Memory,
        }
    }
}

/// The first check that levels fail: what `LevelFault` names, but for out of memory. `place` is the position of a node, and `entry` that
/// of an entry. Both count from 1.
#[derive(Debug, Drop)]
pub enum FailedLevelCheck {
    /// No node of the topology has this name, or it isn't above the one before.
    BadNode { place: u32 },
    /// The first entry lists no problem, or has a level or a parent other than 0. Or there is no entry.
    BadRoot { entry: u32 },
    /// The parent is no position of an earlier entry.
    BadParent { entry: u32 },
    /// No edge leads from the parent's node to this one.
    NoEdge { entry: u32 },
    /// An earlier entry lists the node.
    Repeated { entry: u32 },
    /// The level isn't one above that of the parent.
    BadLevel { entry: u32 },
    /// No entry lists this successor of the node.
    NotClosed { entry: u32, successor: NodeName },
    /// This successor of the node is listed more than one level above it.
    NotShort { entry: u32, successor: NodeName },
}

impl<'w> From<LevelFault> for Fault<'w> {
    ghost from_gives = { λ why result. result ≡ fault_of_levels why };

    fn from(why: LevelFault) -> Fault<'w> {
        match why {
            LevelFault::BadNode { place } => {
                Fault::FailedLevel(FailedLevelCheck::BadNode { place })
            }
            LevelFault::BadRoot { entry } => {
                Fault::FailedLevel(FailedLevelCheck::BadRoot { entry })
            }
            LevelFault::BadParent { entry } => {
                Fault::FailedLevel(FailedLevelCheck::BadParent { entry })
            }
            LevelFault::NoEdge { entry } => Fault::FailedLevel(FailedLevelCheck::NoEdge { entry }),
            LevelFault::Repeated { entry } => {
                Fault::FailedLevel(FailedLevelCheck::Repeated { entry })
            }
            LevelFault::BadLevel { entry } => {
                Fault::FailedLevel(FailedLevelCheck::BadLevel { entry })
            }
            LevelFault::NotClosed { entry, successor } => {
                Fault::FailedLevel(FailedLevelCheck::NotClosed { entry, successor })
            }
            LevelFault::NotShort { entry, successor } => {
                Fault::FailedLevel(FailedLevelCheck::NotShort { entry, successor })
            }
            LevelFault::NoMemory => Fault::Memory,
        }
    }
}
