//! The entries of levels after the first one.
ghost use Rattle.std.specs.Prelude.{◌≡◌, ◌<◌, ◌≤◌, ◌+◌, ◌↔◌, length, IfOk, IfErr, IsTrue};
ghost use Rattle.cb_topo.specs.Numbered.{topology_of};
ghost use Rattle.cb_explain.specs.Checking.{AreGoodNodes, AreListedNodes, HaveParents, HasEntryFault, ListsNumber, IsRightNode, ListsAll};

use crate::listed::{ListedNodes, node_at};
use cb_levels::Levels;
use cb_nodes::NodeId;
use cb_topo::Topology;
use std::alloc::AllocError;

/// What is wrong with an entry, whether or not an edge leads to it.
#[derive(Clone, Copy)]
pub(crate) enum EntryFault {
    /// Its parent is no earlier entry.
    Parent,
    /// Its number stands for no node.
    Node,
    /// This node of it is listed before.
    Repeated(NodeId),
    /// It lists this node, not one level above its parent.
    Level(NodeId),
}

/// Lists the entries after the first one, which is listed, up to the first one with a fault.
pub(crate) fn list_entries(
    topology: &Topology,
    levels: &Levels,
    listed: &mut ListedNodes,
) -> Result<Option<EntryFault>, AllocError>
    requires nodes { AreGoodNodes (topology_of topology.now) levels.now.nodes (length levels.now.nodes) }
    requires some { 0 < length listed.old.nodes.items }
    requires listed { AreListedNodes topology.now levels.now listed.old }
    requires parents { HaveParents levels.now (length listed.old.nodes.items) }
    ensures listed { IfOk result (λ fault. AreListedNodes topology.now levels.now listed.new) }
    ensures parents { IfOk result (λ fault. HaveParents levels.now (length listed.new.nodes.items)) }
    ensures some { IfOk result (λ fault. 0 < length listed.new.nodes.items) }
    ensures fault { IfOk result (ListsAll topology.now levels.now (length listed.new.nodes.items)) }
{
    while listed.nodes.len() < levels.entries.len() {
        match next_node(topology, levels, listed) {
            Ok(node) => listed.add(node)?,
            Err(fault) => return Ok(Some(fault)),
        }
    }
    Ok(None)
}

// The node of the first entry that isn't listed, or what is wrong with that entry.
fn next_node(
    topology: &Topology,
    levels: &Levels,
    listed: &ListedNodes,
) -> Result<NodeId, EntryFault>
    requires nodes { AreGoodNodes (topology_of topology.now) levels.now.nodes (length levels.now.nodes) }
    requires some { 0 < length listed.now.nodes.items }
    requires more { length listed.now.nodes.items < length levels.now.entries }
    requires listed { AreListedNodes topology.now levels.now listed.now }
    ensures node { IfOk result (IsRightNode topology.now levels.now listed.now) }
    ensures fault { IfErr result (HasEntryFault topology.now levels.now (length listed.now.nodes.items)) }
{
    let position = listed.nodes.len();
    let entry = *levels.entries.at(position);
    if !is_earlier(entry.parent, position) {
        return Err(EntryFault::Parent);
    }
    let Some(node) = node_at(topology, levels.nodes.as_slice(), entry.node) else {
        return Err(EntryFault::Node);
    };
    if let Some(_) = listed.positions[node.0 as usize] {
        return Err(EntryFault::Repeated(node));
    }
    let parent = levels.entries.at(entry.parent as usize - 1);
    if !is_next(parent.level, entry.level) {
        return Err(EntryFault::Level(node));
    }
    Ok(node)
}

// Whether a parent, which counts from 1, is the position of an entry before this position, which counts from 0.
fn is_earlier(parent: u32, position: usize) -> bool
    ensures { IsTrue result ↔ (0 < parent) × (parent ≤ position) }
{
    0 < parent && parent as usize <= position
}

// Whether a level is one above another.
fn is_next(below: u32, level: u32) -> bool
    ensures { IsTrue result ↔ (level ≡ below + 1) }
{
    0 < level && level - 1 == below
}
