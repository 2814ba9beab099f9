//! Topology files, symptom files and scripts, line by line.
#![tactic(auto)]

mod nodes;
mod script;
mod symptoms;
mod topology;

pub use script::{ScriptStop, read_script};
pub use symptoms::{SymptomStop, read_symptoms};
pub use topology::{LineFault, TopologyStop, read_topology};
