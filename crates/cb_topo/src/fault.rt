//! Why an edit isn't made.
ghost use Rattle.std.specs.Prelude.{◌≡◌};
ghost use Rattle.cb_topo.specs.declared.fault.EditFault.TheVariants.{Refused, NoMemory};

use cb_network::EditRefusal;
use std::alloc::AllocError;

/// Why an edit isn't made. The topology is as before then.
#[derive(Clone, Copy, Debug, PartialEq, Eq)]
pub enum EditFault {
    /// The rules refuse it.
    Refused(EditRefusal),
    /// There is not memory enough for what it adds.
    NoMemory,
}

impl From<AllocError> for EditFault {
    ghost from_gives = { λ _ fault. fault ≡ NoMemory };

    fn from(_error: AllocError) -> EditFault {
        EditFault::NoMemory
    }
}

impl From<EditRefusal> for EditFault {
    ghost from_gives = { λ why fault. fault ≡ Refused why };

    fn from(why: EditRefusal) -> EditFault {
        EditFault::Refused(why)
    }
}
