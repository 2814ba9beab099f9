//! The nodes of a certificate.
ghost use Rattle.std.specs.Prelude.{◌<◌, ◌+◌, ◌↔◌, length, IfSome, IfNone, OnOk, IsTrue};
ghost use Rattle.cb_topo.specs.Numbered.{topology_of};
ghost use Rattle.cb_network.specs.Nodes.{IsNodeOf};
ghost use Rattle.cb_validity.specs.Checks.{IsGoodNode};
ghost use Rattle.cb_checker.specs.Firsts.{AreAll, IsFirstNot, JudgesNodes};

use cb_model::NodeName;
use cb_topo::Topology;
use cb_validity::Rejected;

/// Checks the nodes of a certificate, in order.
pub(crate) fn check_nodes(topology: &Topology, nodes: &[NodeName]) -> Result<(), Rejected>
    requires { length nodes.now + 1 < 4294967296 }
    ensures judges { JudgesNodes (topology_of topology.now) nodes.now result }
    ensures good { OnOk result (AreAll (IsGoodNode (topology_of topology.now) nodes.now) (length nodes.now)) }
{
    match first_bad_node(topology, nodes) {
        Some(place) => Err(Rejected::BadNode {
            place: place as u32 + 1,
        }),
        None => Ok(()),
    }
}

// The position of the first node that is none of the topology or doesn't stand above the one before.
fn first_bad_node(topology: &Topology, nodes: &[NodeName]) -> Option<usize>
    ensures bad { IfSome result (IsFirstNot (IsGoodNode (topology_of topology.now) nodes.now) (length nodes.now)) }
    ensures good { IfNone result (AreAll (IsGoodNode (topology_of topology.now) nodes.now) (length nodes.now)) }
{
    for place in 0..nodes.len() {
        if !is_good(topology, nodes, place) {
            return Some(place);
        }
    }
    None
}

fn is_good(topology: &Topology, nodes: &[NodeName], place: usize) -> bool
    requires { place < length nodes.now }
    ensures { IsTrue result ↔ IsGoodNode (topology_of topology.now) nodes.now place }
{
    is_node(topology, &nodes[place]) && (place == 0 || nodes[place - 1] < nodes[place])
}

fn is_node(topology: &Topology, node: &NodeName) -> bool
    ensures { IsTrue result ↔ IsNodeOf (topology_of topology.now) node.now }
{
    // Nodes with numbers are nodes of the topology.
    let _capacity = topology.node_capacity();
    topology
        .node_named(node.event.bytes(), node.instance.bytes())
        .is_some()
}
