//! The numbers of a certificate's nodes.
ghost use Rattle.std.specs.Prelude.{IfOk, IfSome, IfNone};
ghost use Rattle.cb_nodes.specs.declared.id.NodeId.{NodeId as Id};
ghost use Rattle.cb_network.specs.Nodes.{IsNodeOf};
ghost use Rattle.cb_validity.specs.Checks.{IsGoodNode};
ghost use Rattle.cb_topo.specs.Numbered.{topology_of, IsNodeNamed, AreNamed};
ghost use Rattle.cb_checker.specs.Firsts.{AreAll};
ghost use Rattle.cb_checker.specs.Known.{IsIdAt};
ghost use Rattle.std.specs.Prelude.{length};

use cb_model::NodeName;
use cb_nodes::NodeId;
use cb_topo::Topology;
use std::alloc::{AllocError, Global};

/// The numbers of nodes that are all there.
pub(crate) fn ids_of(
    alloc: Global,
    topology: &Topology,
    nodes: &[NodeName],
) -> Result<Vec<NodeId>, AllocError>
    requires { AreAll (IsGoodNode (topology_of topology.now) nodes.now) (length nodes.now) }
    ensures { IfOk result (λ ids. AreNamed topology.now ids.items nodes.now) }
{
    let mut ids = Vec::new(alloc);
    for place in 0..nodes.len() {
        ids.push(id_of(topology, &nodes[place]))?;
    }
    Ok(ids)
}

fn id_of(topology: &Topology, node: &NodeName) -> NodeId
    requires { IsNodeOf (topology_of topology.now) node.now }
    ensures { IsNodeNamed topology.now result node.now }
{
    topology
        .node_named(node.event.bytes(), node.instance.bytes())
        .unwrap()
}

/// The node that a number of the certificate stands for.
pub(crate) fn id_at(ids: &[NodeId], number: u32) -> Option<NodeId>
    ensures found { IfSome result (IsIdAt ids.now number) }
    ensures none { IfNone result ((id : Id) → ¬ IsIdAt ids.now number id) }
{
    if number == 0 || ids.len() < number as usize {
        None
    } else {
        Some(ids[number as usize - 1])
    }
}
