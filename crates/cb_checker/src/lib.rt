//! Certificates, checked against a topology.
#![tactic(auto)]

mod book;
mod checked;
mod claim;
mod closed;
mod codes;
mod columns;
mod entries;
mod known;
mod marks;
mod names;
mod nodes;
mod pair;
mod places;
mod reasons;
mod root;
mod sides;
mod span;
mod spans;
mod stated;
mod thin;

pub use cb_validity::{Accepted, Rejected};
pub use checked::check;
