//! What holds of the bounds on numbers after an edit. Each law is the contract of a function that does nothing.
ghost use Rattle.cb_topo.specs.Laws.{NodeCapacityIsOne};

/// The bound on numbers of nodes after an edit is one number.
pub fn node_capacity_is_one()
    ensures { NodeCapacityIsOne }
{}
