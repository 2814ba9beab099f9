//! Why nothing is undone.
ghost use Rattle.std.specs.Prelude.{◌≡◌};
ghost use Rattle.cb_undo.specs.declared.fault.UndoFault.TheVariants.{NoMemory};

use std::alloc::AllocError;

/// Why nothing is undone. The history is as before then.
#[derive(Clone, Copy, Debug, PartialEq, Eq)]
pub enum UndoFault {
    /// There is no earlier topology.
    Nothing,
    /// There is not memory enough for what comes back.
    NoMemory,
}

impl From<AllocError> for UndoFault {
    ghost from_gives = { λ _ fault. fault ≡ NoMemory };

    fn from(_error: AllocError) -> UndoFault {
        UndoFault::NoMemory
    }
}
