//! The fifteen type rules of models, over the tree of a text.
#![tactic(auto)]

mod blame;
mod class_rules;
mod directory;
mod entry;
mod fault;
mod finds;
mod laws;
mod least;
mod loops;
mod member_rules;
mod places;
mod rule;

pub use directory::{Directory, MemberPosition};
pub use fault::first_fault;
pub use laws::one_fault;
pub use rule::{BrokenRule, TypeRule};
