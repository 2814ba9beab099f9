//! Names of nodes.
ghost use Rattle.std.specs.Prelude.{IfOk};
ghost use Rattle.std.specs.List.{All};
ghost use Rattle.cb_topo.specs.Numbered.{IsLiveNode, AreNamed};

use cb_model::{List, NodeName};
use cb_nodes::NodeId;
use cb_topo::Topology;
use std::alloc::{AllocError, Global};

/// A copy of each node's name.
pub fn names_of(
    alloc: Global,
    topology: &Topology,
    nodes: &List<NodeId>,
) -> Result<List<NodeName>, AllocError>
    requires { All (IsLiveNode topology.now) nodes.now }
    ensures { IfOk result (AreNamed topology.now nodes.now) }
{
    let mut names = List::new(alloc);
    for node in nodes.as_slice() {
        names.push(topology.copy_name(alloc, *node)?)?;
    }
    Ok(names)
}
