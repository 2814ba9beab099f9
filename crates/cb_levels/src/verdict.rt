//! The result of checking levels.

ghost use Rattle.std.specs.Prelude.{◌≡◌};
ghost use Rattle.cb_levels.specs.declared.verdict.LevelFault.TheVariants.{NoMemory};

use cb_model::NodeName;
use std::alloc::AllocError;

/// What accepted levels show: the problem, how many nodes it causes, and the greatest of their levels.
#[derive(Debug, Drop)]
pub struct Proved {
    pub root: NodeName,
    pub reached: u32,
    pub deepest: u32,
}

/// The first check that fails. `place` is the position of a node, and `entry` that of an entry. Both count from 1.
#[derive(Debug, Drop)]
pub enum LevelFault {
    /// No node of the topology has this name, or it isn't above the one before.
    BadNode { place: u32 },
    /// The first entry lists no problem, or has a level or a parent other than 0. Or there is no entry.
    BadRoot { entry: u32 },
    /// The parent is no position of an earlier entry.
    BadParent { entry: u32 },
    /// No edge leads from the parent's node to this one.
    NoEdge { entry: u32 },
    /// An earlier entry lists the node.
    Repeated { entry: u32 },
    /// The level isn't one above that of the parent.
    BadLevel { entry: u32 },
    /// No entry lists this successor of the node.
    NotClosed { entry: u32, successor: NodeName },
    /// This successor of the node is listed more than one level above it.
    NotShort { entry: u32, successor: NodeName },
    /// Memory ran out.
    NoMemory,
}

impl From<AllocError> for LevelFault {
    ghost from_gives = { λ _ fault. fault ≡ NoMemory };

    fn from(_error: AllocError) -> LevelFault {
        LevelFault::NoMemory
    }
}
