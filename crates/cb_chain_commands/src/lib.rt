//! The commands on causal chains, a file each: why problems explain what is raised, how far each of them reaches, and what proves it.
#![tactic(auto)]

pub mod explain;
mod explaining;
mod explanation;
pub mod levels;
pub mod prove;
