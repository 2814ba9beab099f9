//! A topology that is searched for its matrix, and what is found in it for raised nodes.
#![tactic(auto)]

mod named;
mod searched;

pub use named::NamedMatrix;
pub use searched::SearchedNetwork;
