//! Codes of one width, each kept once, and groups of problems by their codes.
#![tactic(auto)]

mod codes;
mod each_once;
mod grouping;
mod groups;
mod holders;
mod marks;

pub use codes::Codes;
pub use each_once::EachOnce;
pub use grouping::Grouping;
pub use groups::Groups;
