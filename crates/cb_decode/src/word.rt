//! Raised nodes as a word over columns.
ghost use Rattle.std.specs.Prelude.{◌<◌, List as Items, length, IfOk, IfSome};
ghost use Rattle.cb_model.specs.Order.{Rises};
ghost use Rattle.cb_model.specs.NodeOrder.{node_cmp};
ghost use Rattle.cb_model.specs.declared.node.NodeName.{NodeName as Name};
ghost use Rattle.cb_topo.specs.Numbered.{AreNamed};
ghost use Rattle.cb_decode.specs.Found.{IsPlaceAmong, IsWordOf};

use cb_bits::Row;
use cb_model::{List, NodeName};
use cb_topo::{ColumnIndex, Topology};
use std::alloc::{AllocError, Global};

/// What a set of raised nodes is over columns.
#[derive(Drop)]
pub struct RaisedWord {
    /// For each column, whether it is raised.
    pub word: Row,
    /// How many nodes are raised.
    pub raised: u64,
    /// How many of them are no column.
    pub unknown: u64,
}

impl RaisedWord {
    /// The word of these nodes, a set given as its list in order, over columns of a topology.
    pub fn of(
        alloc: Global,
        topology: &Topology,
        columns: &ColumnIndex,
        nodes: &List<NodeName>,
    ) -> Result<RaisedWord, AllocError>
        requires { Rises node_cmp nodes.now }
        ensures { IfOk result (λ word. (names : Items Name) → AreNamed topology.now columns.now names → IsWordOf names nodes.now word) }
    {
        let mut word = Row::zeroed(alloc, columns.len())?;
        let mut unknown = 0;
        for node in nodes.as_slice() {
            match position_of(topology, columns, node) {
                Some(position) => word.set(position as usize),
                None => unknown += 1,
            }
        }
        Ok(RaisedWord {
            word,
            raised: nodes.len() as u64,
            unknown,
        })
    }
}

// The position of a node among the columns, if it is one.
fn position_of(topology: &Topology, columns: &ColumnIndex, node: &NodeName) -> Option<u32>
    ensures within { IfSome result (λ position. position < length columns.now) }
    ensures place { (names : Items Name) → AreNamed topology.now columns.now names → IsPlaceAmong names node.now result }
{
    // A name has one number.
    let _model = topology.model();
    let id = topology.node_named(node.event.bytes(), node.instance.bytes())?;
    columns.position(id)
}
