//! The problems and the columns of a topology.
ghost use Rattle.std.specs.Prelude.{IfOk};
ghost use Rattle.cb_checker.specs.Verdicts.{AreSidesOf};

use cb_model::List;
use cb_nodes::NodeId;
use cb_topo::{ColumnIndex, Topology};
use std::alloc::{AllocError, Global};

/// The problems and the columns of a topology, each in order.
#[derive(Drop)]
pub struct Sides {
    pub problems: List<NodeId>,
    pub columns: ColumnIndex,
}

/// Those of this topology.
pub(crate) fn sides_of(alloc: Global, topology: &Topology) -> Result<Sides, AllocError>
    ensures { IfOk result (AreSidesOf topology.now) }
{
    // A name has one number.
    let _model = topology.model();
    let problems = topology.problems(alloc)?;
    let columns = topology.column_index(alloc)?;
    Ok(Sides { problems, columns })
}
