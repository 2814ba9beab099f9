//! The columns of a topology, and the position of each.
ghost use Rattle.std.specs.Prelude.{◌≡◌, ◌<◌, ◌≤◌, ◌^◌, length, IfOk};
ghost use Rattle.cb_network.specs.Sound.{symptom_limit};
ghost use Rattle.cb_topo.specs.Columns.{AreAllColumns, AreDistinctIds, AreIdsBelow, IsPositionOf, IsPositionTable};

use crate::topology::Topology;
use cb_model::List;
use cb_nodes::NodeId;
use std::alloc::{AllocError, Global};
use std::marker::Model;

/// The numbers of columns in order. Contracts see the list of them, and nothing of how a position is found.
#[derive(Drop)]
pub struct ColumnIndex {
    nodes: List<NodeId>,
    // For the number of each node, its position among the columns.
    positions: Vec<Option<u32>>,
}

impl Model for ColumnIndex {
    ghost use Rattle.std.specs.Prelude.{List as Items};
    ghost use Rattle.cb_nodes.specs.declared.id.NodeId.{NodeId as Id};
    ghost use Rattle.cb_topo.specs.Columns.{IsPositionTable};

    ghost Value = { Items Id };

    ghost view = { λ c. c.nodes };

    ghost invariant = { λ c. IsPositionTable c.nodes c.positions.items };
}

impl ColumnIndex {
    /// How many columns there are.
    pub fn len(&self) -> usize
        ensures { result ≡ length self.now }
    {
        self.nodes.len()
    }

    /// The columns themselves.
    pub fn nodes(&self) -> &List<NodeId>
        ensures { result.now ≡ self.now }
    {
        &self.nodes
    }

    /// The one position of a node among the columns, if it is one. It takes no search.
    pub fn position(&self, id: NodeId) -> Option<u32>
        ensures { IsPositionOf self.now id result }
    {
        let node = id.0 as usize;
        if node < self.positions.len() {
            self.positions[node]
        } else {
            None
        }
    }
}

impl Topology {
    /// The columns in order, with the position of each.
    pub fn column_index(&self, alloc: Global) -> Result<ColumnIndex, AllocError>
        ensures columns { IfOk result (AreAllColumns self.now) }
        ensures below { IfOk result (AreIdsBelow (length self.now.nodes)) }
        ensures few { IfOk result (λ ids. length ids ≤ symptom_limit) }
    {
        let capacity = self.node_capacity();
        let nodes = self.columns(alloc)?;
        let positions = positions_of(alloc, &nodes, capacity)?;
        Ok(ColumnIndex { nodes, positions })
    }
}

// For the number of each node below `capacity`, its position among these.
fn positions_of(
    alloc: Global,
    nodes: &List<NodeId>,
    capacity: usize,
) -> Result<Vec<Option<u32>>, AllocError>
    requires once { AreDistinctIds nodes.now }
    requires below { AreIdsBelow capacity nodes.now }
    requires few { length nodes.now < 2 ^ 32 }
    ensures { IfOk result (λ positions. IsPositionTable nodes.now positions.items) }
{
    let mut positions = vec![in alloc; None; capacity]?;
    for position in 0..nodes.len() {
        positions[nodes.at(position).0 as usize] = Some(position as u32);
    }
    Ok(positions)
}
