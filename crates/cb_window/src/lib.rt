//! The windows in which the alarms of sources are gathered, as a log goes on.
#![tactic(auto)]

mod closing;
mod nodes;
mod opening;
mod queue;
mod turn;
mod windows;

pub use cb_log::Closed;
pub use windows::Windows;
