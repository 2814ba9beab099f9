//! The nodes that levels list.
ghost use Rattle.std.specs.Prelude.{◌≡◌, ◌<◌, ◌≤◌, ◌↔◌, ◌++◌, [], ◌∷◌, ℕ, length, replicate, IfOk, IfSome, IfNone, IfErr, OnOk, IsTrue, None, Some, slice_get, slice_set};
ghost use Rattle.cb_model.specs.declared.node.NodeName.{NodeName as Name};
ghost use Rattle.cb_network.specs.Nodes.{IsNodeOf};
ghost use Rattle.cb_validity.specs.Checks.{IsGoodNode};
ghost use Rattle.cb_validity.specs.Spans.{StandsFor};
ghost use Rattle.cb_levels.specs.Valid.{BeginsAtProblem};
ghost use Rattle.cb_topo.specs.Numbered.{topology_of, IsNodeNamed};
ghost use Rattle.cb_explain.specs.Checking.{AreGoodNodes, IsFirstBadNode, IsRootNumber};

use cb_levels::Levels;
use cb_model::NodeName;
use cb_nodes::NodeId;
use cb_topo::Topology;
use std::alloc::{AllocError, Global};

/// The nodes of the first entries, by their numbers in the topology, each once.
#[derive(Drop)]
pub(crate) struct ListedNodes {
    pub nodes: Vec<NodeId>,
    /// For the number of each node of the topology the position of the entry that lists it, if one does.
    pub positions: Vec<Option<usize>>,
}

impl ListedNodes {
    /// No node is listed yet. All numbers of nodes are below `capacity`.
    pub fn new(alloc: Global, capacity: usize) -> Result<ListedNodes, AllocError>
        ensures nodes { IfOk result (λ listed. listed.nodes.items ≡ []) }
        ensures positions { IfOk result (λ listed. listed.positions.items ≡ replicate capacity None) }
    {
        Ok(ListedNodes {
            nodes: Vec::new(alloc),
            positions: vec![in alloc; None; capacity]?,
        })
    }

    /// The next entry lists this node.
    pub fn add(&mut self, node: NodeId) -> Result<(), AllocError>
        requires { node.0 < length self.old.positions.items }
        ensures nodes { OnOk result (self.new.nodes.items ≡ self.old.nodes.items ++ node ∷ []) }
        ensures positions { OnOk result (self.new.positions.items ≡ slice_set self.old.positions.items node.0 (Some (length self.old.nodes.items))) }
    {
        let position = self.nodes.len();
        self.nodes.push(node)?;
        self.positions[node.0 as usize] = Some(position);
        Ok(())
    }
}

/// The position of the first node that is none of the topology or isn't above the one before.
pub(crate) fn first_bad_node(topology: &Topology, nodes: &[NodeName]) -> Option<usize>
    ensures bad { IfSome result (IsFirstBadNode (topology_of topology.now) nodes.now) }
    ensures good { IfNone result (AreGoodNodes (topology_of topology.now) nodes.now (length nodes.now)) }
{
    for position in 0..nodes.len() {
        if !is_good(topology, nodes, position) {
            return Some(position);
        }
    }
    None
}

fn is_good(topology: &Topology, nodes: &[NodeName], position: usize) -> bool
    requires { position < length nodes.now }
    ensures { IsTrue result ↔ IsGoodNode (topology_of topology.now) nodes.now position }
{
    is_node(topology, &nodes[position]) && (position == 0 || nodes[position - 1] < nodes[position])
}

fn is_node(topology: &Topology, node: &NodeName) -> bool
    ensures { IsTrue result ↔ IsNodeOf (topology_of topology.now) node.now }
{
    // Nodes with numbers are nodes of the topology.
    let _capacity = topology.node_capacity();
    topology
        .node_named(node.event.bytes(), node.instance.bytes())
        .is_some()
}

/// The node of the topology that a number stands for, which counts from 1.
pub(crate) fn node_at(topology: &Topology, nodes: &[NodeName], number: u32) -> Option<NodeId>
    ensures found { IfSome result (λ id. (name : Name) × StandsFor nodes.now number name × IsNodeNamed topology.now id name) }
    ensures none { IfNone result ((name : Name) → StandsFor nodes.now number name → ¬ IsNodeOf (topology_of topology.now) name) }
{
    if number == 0 || nodes.len() < number as usize {
        return None;
    }
    let node = &nodes[number as usize - 1];
    topology.node_named(node.event.bytes(), node.instance.bytes())
}

/// The problem that the levels begin with, if the first entry is right.
pub(crate) fn root_of(topology: &Topology, levels: &Levels) -> Option<NodeId>
    ensures found { IfSome result (IsRootNumber topology.now levels.now) }
    ensures none { IfNone result ((root : Name) → ¬ BeginsAtProblem (topology_of topology.now) levels.now root) }
{
    if levels.entries.len() == 0 {
        return None;
    }
    let first = *levels.entries.at(0);
    if first.level != 0 || first.parent != 0 {
        return None;
    }
    match node_at(topology, levels.nodes.as_slice(), first.node) {
        Some(node) if topology.is_problem(node) => Some(node),
        _ => None,
    }
}
