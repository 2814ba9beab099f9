//! Which edits of a topology are accepted, and why others are refused.
#![tactic(auto)]

mod counts;
mod create;
mod limits;
mod link;
mod lookup;
mod mute;
mod numbered;
mod refusal;

pub use counts::NodeCounts;
pub use numbered::NumberedEdit;
pub use refusal::decide;

#[cfg(test)]
mod tests;
