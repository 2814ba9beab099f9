//! The certificate of a topology's codebook, for a distance or for a cap, or of two groups that are too close for one.
#![tactic(auto)]

mod codebook;
mod columns;
mod groups;
mod shortfall;

pub use codebook::{Codebook, codebook_of};
