//! Events with their numbers.
use crate::id::NodeId;
use cb_model::EventId;

/// An event of an instance, and its number.
#[derive(Clone, Copy)]
pub struct Listed {
    pub event: EventId,
    pub id: NodeId,
}
