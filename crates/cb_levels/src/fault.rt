//! Why a text isn't one of levels.

ghost use Rattle.std.specs.Prelude.{◌≡◌};
ghost use Rattle.cb_levels.specs.declared.fault.LevelText.TheVariants.{NoMemory};

use std::alloc::AllocError;

/// The first fault of a text. Lines count from 1.
#[derive(Clone, Copy, Debug, PartialEq, Eq)]
pub enum LevelText {
    /// The first line isn't the header.
    BadHeader,
    /// No levels have this line after those before it.
    BadLine { line: u64 },
    /// The text ends before the last line of levels.
    Truncated,
    /// Another line follows the last one of levels.
    Extra { line: u64 },
    /// Memory ran out.
    NoMemory,
}

impl From<AllocError> for LevelText {
    ghost from_gives = { λ _ fault. fault ≡ NoMemory };

    fn from(_error: AllocError) -> LevelText {
        LevelText::NoMemory
    }
}
