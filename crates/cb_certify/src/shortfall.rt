//! Two groups that are too close for a codebook.
ghost use Rattle.std.specs.Prelude.{◌<◌, ◌≤◌, IfOk};
ghost use Rattle.cb_cert.specs.Format.{IsWanted, column_limit};
ghost use Rattle.cb_model.specs.declared.wish.Wish.TheVariants.{Plain};
ghost use Rattle.cb_validity.specs.Codebooks.{least_of};
ghost use Rattle.cb_network.specs.Nodes.{IsNodeOf};
ghost use Rattle.cb_topo.specs.Numbered.{topology_of, IsNodeNamed};
ghost use Rattle.cb_span.specs.Made.{IsSideNamed};
ghost use Rattle.cb_certify.specs.Made.{IsFirstPair, IsMadeOf};
ghost use Rattle.cb_certify.specs.Members.{HasLeastMember, HasLeastNode, IsLeastMember, IsMemberAt, IsPairOf, IsSideLive};

use crate::codebook::Codebook;
use cb_coding::Pair;
use cb_graph::Graph;
use cb_model::{GroupName, List, NamedGroup, NodeName};
use cb_nodes::NodeId;
use cb_span::thin;
use cb_steps::Steps;
use cb_topo::Topology;
use std::alloc::{AllocError, Global};
use std::sync::ledger::Ledger;

/// Two groups that are closer than wanted, each by the number of its least member; the quiet one has none.
#[derive(Clone, Copy)]
pub struct ClosePair {
    pub first: Option<NodeId>,
    pub second: NodeId,
    pub distance: u32,
}

/// The certificate that these two groups of the graph's topology are too close.
pub(crate) fn shortfall<L: Ledger>(
    alloc: Global,
    graph: &mut Graph,
    close: ClosePair,
    wanted: u32,
    steps: &mut Steps<L>,
) -> Result<Codebook, AllocError>
    requires pair { IsFirstPair graph.old wanted close }
    requires wanted { IsWanted wanted }
    requires far { close.distance ≤ column_limit }
    ensures { IfOk result (IsMadeOf (topology_of graph.old) (Plain wanted)) }
{
    let ClosePair {
        first: one,
        second: other,
        distance,
    } = close;
    let first = side_name(alloc, graph.topology(), one)?;
    let second = graph.topology().copy_name(alloc, other)?;
    let certificate = thin(alloc, graph, one, other, wanted, distance, steps)?;
    Ok(Codebook::TooClose {
        wanted,
        first,
        second,
        distance,
        certificate,
    })
}

// What the group of that least member is called.
fn side_name(
    alloc: Global,
    topology: &Topology,
    least: Option<NodeId>,
) -> Result<GroupName, AllocError>
    requires { IsSideLive topology.now least }
    ensures { IfOk result (λ name. IsSideNamed topology.now least (least_of name)) }
{
    match least {
        Some(node) => Ok(GroupName::Least(topology.copy_name(alloc, node)?)),
        None => Ok(GroupName::Quiet),
    }
}

/// The two groups at the positions of a pair.
pub(crate) fn close_named(topology: &Topology, groups: &List<NamedGroup>, pair: Pair) -> ClosePair
    requires first { 0 < pair.first → HasLeastNode topology.now groups.now pair.first }
    requires second { HasLeastNode topology.now groups.now pair.second }
    requires later { 0 < pair.second }
    ensures { IsPairOf (IsMemberAt topology.now groups.now) pair result }
{
    ClosePair {
        first: number_at(topology, groups, pair.first),
        second: number_of(topology, least_member(groups, pair.second)),
        distance: pair.distance,
    }
}

// The number of the least member of the group at a position; the quiet one has none.
fn number_at(topology: &Topology, groups: &List<NamedGroup>, place: u32) -> Option<NodeId>
    requires { 0 < place → HasLeastNode topology.now groups.now place }
    ensures { IsMemberAt topology.now groups.now place result }
{
    if place == 0 {
        return None;
    }
    Some(number_of(topology, least_member(groups, place)))
}

// The least member of the group at a position.
fn least_member(groups: &List<NamedGroup>, place: u32) -> &NodeName
    requires { HasLeastMember groups.now place }
    ensures { IsLeastMember groups.now place result.now }
{
    groups.at(place as usize).members.at(0)
}

// The number of a node.
fn number_of(topology: &Topology, node: &NodeName) -> NodeId
    requires { IsNodeOf (topology_of topology.now) node.now }
    ensures { IsNodeNamed topology.now result node.now }
{
    match topology.node_named(node.event.bytes(), node.instance.bytes()) {
        Some(id) => id,
        None => unreachable!(),
    }
}
