//! A graph with a row for each problem: all the nodes that the problem causes.
#![tactic(auto)]

mod agenda;
mod cache;
mod create;
mod cut;
mod edits;
mod fill;
mod laws;
mod link;
mod order;
mod problems;
mod rows;
mod scratch;
mod search;

pub use cache::Cache;
pub use rows::Rows;
