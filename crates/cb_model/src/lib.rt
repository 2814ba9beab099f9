//! The base types of the product: lists, names, nodes, numbers, and the tables of a model.
#![tactic(auto)]

mod class_view;
mod heirs;
mod id;
mod limits;
mod list;
mod model;
mod name;
mod name_map;
mod node;
mod reserved_list;
mod rule;
mod tables;
mod wish;

pub use id::{ClassId, EventId, RelId};
pub use limits::{MOST_ANCESTORS, MOST_CLASSES, MOST_EVENTS, MOST_RELATIONS, MOST_RULES};
pub use list::List;
pub use model::Model;
pub use name::Name;
pub use name_map::NameMap;
pub use node::{GroupName, NamedGroup, NodeName};
pub use reserved_list::ReservedList;
pub use rule::{Marks, Rule};
pub use tables::{BlockRow, ClassRow, EventRow, HideRow, Place, RelRow, RuleRow, Tables};
pub use wish::Wish;
