//! A live instance.
use crate::links::Links;
use cb_model::{ClassId, EventId, Name};

/// A live instance, with its links and the events that are muted at it.
#[derive(Drop)]
pub struct Instance {
    pub name: Name,
    pub class: ClassId,
    pub links: Links,
    pub muted: Vec<EventId>,
}
