//! What a log says: its records, the windows in which alarms are gathered, and the events that result.
#![tactic(auto)]

mod closed;
mod event;
pub mod laws;
mod record;

pub use closed::Closed;
pub use event::{Event, RefusedWhy, SkipKind, SkipWhy};
pub use record::{Body, Record};
