//! Canonical levels of a problem, by a search level by level; chains to what it causes; and levels, checked.
#![tactic(auto)]

mod checking;
mod entries;
mod explainer;
pub mod laws;
mod listed;
mod search;
mod survey;
mod written;

pub use checking::check_levels;
pub use explainer::Explainer;
pub use search::levels_of;
