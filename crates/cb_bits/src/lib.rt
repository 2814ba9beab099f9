//! Rows of truth values, packed into words.
#![tactic(auto)]

mod row;
mod words;

pub use row::Row;
