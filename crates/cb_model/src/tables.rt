//! The declarations of a model: one table for each kind, each in the order of the text.
use crate::id::{ClassId, EventId, RelId};
use crate::list::List;
use crate::name::Name;

/// All declarations of a model. A number in a row is the position of a row of another table.
#[derive(Drop)]
pub struct Tables {
    pub classes: List<ClassRow>,
    pub events: List<EventRow>,
    pub relations: List<RelRow>,
    pub rules: List<RuleRow>,
    pub blocks: List<BlockRow>,
    pub hides: List<HideRow>,
}

/// A class, with the class that it extends.
#[derive(Drop)]
pub struct ClassRow {
    pub name: Name,
    pub parent: Option<ClassId>,
}

/// An event, with its marks.
#[derive(Drop)]
pub struct EventRow {
    pub class: ClassId,
    pub name: Name,
    pub problem: bool,
    pub symptom: bool,
}

/// A relation to instances of the target, with its inverse, which the target declares.
#[derive(Drop)]
pub struct RelRow {
    pub class: ClassId,
    pub name: Name,
    pub target: ClassId,
    pub many: bool,
    pub inverse: RelId,
}

/// A place of a path: one link by the relation, or with the plus one or more.
#[derive(Clone, Copy, PartialEq, Eq)]
pub struct Place {
    pub rel: RelId,
    pub plus: bool,
}

/// A rule: the cause at an instance brings about the effect at each instance that the path leads to.
#[derive(Drop)]
pub struct RuleRow {
    pub class: ClassId,
    pub name: Name,
    pub cause: EventId,
    pub path: List<Place>,
    pub effect: EventId,
}

/// A class that does without a rule of its ancestors; the rule is its position among the rules.
#[derive(Drop)]
pub struct BlockRow {
    pub class: ClassId,
    pub rule: u32,
}

/// A class at which an event is no symptom.
#[derive(Drop)]
pub struct HideRow {
    pub class: ClassId,
    pub event: EventId,
}
