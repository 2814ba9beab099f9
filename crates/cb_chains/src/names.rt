//! Names for the numbers of nodes.
ghost use Rattle.std.specs.Prelude.{◌≡◌, map, slice_get, Some};
ghost use Rattle.cb_chains.specs.Names.{IsNamedNumber, name_by_position};

use cb_model::{List, NodeName};
use std::marker::Model;

/// The names of some nodes, found by the numbers of the nodes. Each is there once.
#[derive(Drop)]
pub struct NodeNames {
    names: List<NodeName>,
    // For each number the position of its name, counted from 1.
    positions: Vec<u32>,
}

impl Model for NodeNames {
    ghost use Rattle.std.specs.Prelude.{List, Option, map};
    ghost use Rattle.cb_model.specs.declared.node.NodeName.{NodeName};
    ghost use Rattle.cb_chains.specs.Names.{name_by_position};

    ghost Value = { List (Option NodeName) };

    ghost view = { λ n. map (name_by_position n.names) n.positions.items };
}

impl NodeNames {
    /// Of these names; for each number the position of its name, counted from 1, or 0.
    pub fn of(names: List<NodeName>, positions: Vec<u32>) -> NodeNames
        ensures { result ≡ map (name_by_position names) positions.items }
    {
        NodeNames { names, positions }
    }

    /// The name of a node that has one.
    pub fn at(&self, node: u32) -> &NodeName
        requires { IsNamedNumber self.now node }
        ensures { slice_get self.now node ≡ Some (Some result.now) }
    {
        self.names.at(self.positions[node as usize] as usize - 1)
    }
}
