//! The matrix of a topology: its columns, its problems, and their groups with their codes, by searches or from the rows of a cache.
#![tactic(auto)]

mod coded;
mod coder;
mod codes;
mod listed;
mod matrix;
mod names;
mod problems;
mod searched;
mod visited;

pub use matrix::Matrix;
pub use names::names_of;
pub use visited::code_of_visits;
