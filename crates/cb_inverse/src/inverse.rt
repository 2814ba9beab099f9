//! The edits that undo an edit.
ghost use Rattle.std.specs.Prelude.{◌≡◌, IfOk};
ghost use Rattle.cb_history.specs.Inverse.{Inverts};
ghost use Rattle.cb_topo.specs.Accepted.{IsDecided};
ghost use Rattle.cb_topo.specs.Numbered.{topology_of};
ghost use Rattle.cb_inverse.specs.Inverses.{inverse_edits, HasAgain, IsReverse};

use crate::rebuild::{Rebuild, rebuild_of};
use crate::reverse::reverse_of;
use cb_network::Edit;
use cb_topo::{AcceptedEdit, NumberedEdit, Topology};
use std::alloc::{AllocError, Global};

/// The edits that undo an edit.
#[derive(Drop)]
pub enum Inverse {
    /// One edit, of any edit but a Delete. Where memory runs out for it, nothing is made, so nothing has to be made again.
    Reverse(Edit),
    /// Those that make a deleted instance again.
    Rebuild(Rebuild),
}

/// The inverse of an edit that the topology accepts. It is made before the edit is.
pub fn inverse_of(
    alloc: Global,
    topology: &Topology,
    accepted: &AcceptedEdit<'_>,
) -> Result<Inverse, AllocError>
    requires { IsDecided topology.now accepted.now }
    ensures inverts { IfOk result (λ inverse. Inverts (topology_of topology.now) accepted.now.edit.now (inverse_edits inverse)) }
    ensures again { IfOk result (HasAgain accepted.now.edit.now) }
{
    match accepted.numbered {
        NumberedEdit::Delete { id } => {
            let edits = rebuild_of(alloc, topology, id, accepted.edit)?;
            Ok(Inverse::Rebuild(edits))
        }
        _ => {
            let back = reverse_of(alloc, accepted.edit)?;
            Ok(Inverse::Reverse(back))
        }
    }
}
