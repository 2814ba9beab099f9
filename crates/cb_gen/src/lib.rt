//! A network and a log to try correlation on, as texts.
#![tactic(auto)]

mod alarm;
mod draws;
mod edit;
mod log;
mod model;
mod piece;
mod topology;

pub use log::log_text;
pub use model::model_text;
pub use topology::topology_text;
