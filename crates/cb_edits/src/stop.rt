//! Why a line gives no edit.
ghost use Rattle.std.specs.Prelude.{◌≡◌};
ghost use Rattle.cb_edits.specs.declared.stop.EditText.TheVariants.{NoMemory};

use std::alloc::AllocError;

/// Why a line gives no edit.
#[derive(Debug, Drop)]
pub enum EditText {
    /// Its words are no edit.
    BadWords,
    /// There is not memory enough for the edit.
    NoMemory,
}

impl From<AllocError> for EditText {
    ghost from_gives = { λ _ stop. stop ≡ NoMemory };

    fn from(_error: AllocError) -> EditText {
        EditText::NoMemory
    }
}
