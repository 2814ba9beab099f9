//! A matrix as it is written.

use cb_codes::Groups;
use cb_model::{List, NodeName};

/// What is written of a matrix: the names of the columns, in order, and the groups with their codes over them.
#[derive(Drop)]
pub struct NamedMatrix {
    pub columns: List<NodeName>,
    pub groups: Groups,
}
