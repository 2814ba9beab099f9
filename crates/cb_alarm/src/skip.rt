//! Why a line gives no record.
ghost use Rattle.std.specs.Prelude.{◌≡◌};
ghost use Rattle.cb_alarm.specs.declared.skip.Skip.TheVariants.{NoMemory};
ghost use Rattle.cb_alarm.specs.Faults.{skip_of};

use cb_edits::EditText;
use cb_log::SkipKind;
use std::alloc::AllocError;

/// Why a line gives no record.
#[derive(Debug, Drop)]
pub enum Skip {
    /// The line spells none.
    Bad(SkipKind),
    /// There is not memory enough to read it.
    NoMemory,
}

impl From<AllocError> for Skip {
    ghost from_gives = { λ _ skip. skip ≡ NoMemory };

    fn from(_error: AllocError) -> Skip {
        Skip::NoMemory
    }
}

impl From<EditText> for Skip {
    ghost from_gives = { λ stop skip. skip ≡ skip_of stop };

    fn from(stop: EditText) -> Skip {
        match stop {
            EditText::BadWords => Skip::Bad(SkipKind::BadEdit),
            EditText::NoMemory => Skip::NoMemory,
        }
    }
}
