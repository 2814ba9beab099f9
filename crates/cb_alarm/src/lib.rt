//! Lines of a log as records.
#![tactic(auto)]

mod body;
mod fields;
pub mod laws;
mod parts;
mod plain;
mod read;
mod skip;

pub use cb_log::{Body, Record, SkipKind};
pub use json::Scratch;
pub use plain::plain_record;
pub use read::read_record;
pub use skip::Skip;
