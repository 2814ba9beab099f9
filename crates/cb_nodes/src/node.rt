//! Nodes by numbers.
use cb_instances::InstanceId;
use cb_model::EventId;

/// An event of a live instance.
#[derive(Clone, Copy, PartialEq, Eq)]
pub struct Node {
    pub instance: InstanceId,
    pub event: EventId,
}
