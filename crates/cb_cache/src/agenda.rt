//! What is to be done about an edit.
ghost use Rattle.std.specs.Prelude.{◌≡◌, [], IfOk};
ghost use Rattle.cb_cache.specs.Capacity.{HasAgendaFor};

use cb_bits::Row;
use cb_nodes::NodeId;
use std::alloc::{AllocError, Global};

/// What is to be done about an edit. It is kept for its capacity: no edit begins with what an earlier one left here.
#[derive(Drop)]
pub struct Agenda {
    /// The nodes that the edit touches.
    pub touched: Row,
    /// The problems that are to be searched from.
    pub problems: Vec<NodeId>,
}

/// An agenda for `capacity` nodes.
pub(crate) fn agenda_for(alloc: Global, capacity: usize) -> Result<Agenda, AllocError>
    ensures capacity { IfOk result (HasAgendaFor capacity) }
    ensures none { IfOk result (λ agenda. agenda.problems.items ≡ []) }
{
    Ok(Agenda {
        touched: Row::zeroed(alloc, capacity)?,
        problems: Vec::with_capacity(alloc, capacity)?,
    })
}
