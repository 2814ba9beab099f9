//! Rows of truth values of which few are true.
#![tactic(auto)]

mod apart;
mod beside;
mod compact;
mod counted;
mod cursor;
mod differing;
mod merged;
mod places;

pub use compact::CompactRow;
