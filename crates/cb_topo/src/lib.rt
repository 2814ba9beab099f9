//! A topology whose instances and nodes have numbers that stay, changed by edits.
#![tactic(auto)]

mod accepted;
mod columns;
mod edits;
mod fault;
mod instances;
mod kind;
mod laws;
mod order;
mod readers;
mod settled;
mod sorted;
mod topology;

pub use accepted::AcceptedEdit;
pub use cb_accept::NumberedEdit;
pub use cb_edits::{EditText, read_edit};
pub use cb_instances::InstanceId;
pub use cb_network::{Edit, EditRefusal};
pub use cb_nodes::NodeId;
pub use columns::ColumnIndex;
pub use fault::EditFault;
pub use laws::node_capacity_is_one;
pub use topology::Topology;
