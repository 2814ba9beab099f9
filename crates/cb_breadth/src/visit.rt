//! Nodes in an order, and the visits to them.
ghost use Rattle.std.specs.Prelude.{◌<◌, ◌^◌, IfOk};
ghost use Rattle.cb_breadth.specs.Orders.{IsByNumber};

use std::alloc::{AllocError, Global};

/// Numbers of nodes in an order. A node's rank is its position among them.
#[derive(Drop)]
pub struct Order {
    /// For each rank the number of the node.
    pub nodes: Vec<u32>,
    /// For the number of each node its rank. What stands at the numbers of others doesn't matter.
    pub ranks: Vec<u32>,
}

impl Order {
    /// All numbers below the count, as they rise.
    pub fn by_number(alloc: Global, count: usize) -> Result<Order, AllocError>
        requires { count < 2 ^ 32 }
        ensures { IfOk result (IsByNumber count) }
    {
        let mut nodes = Vec::with_capacity(alloc, count)?;
        for node in 0..count {
            nodes.push(node as u32)?;
        }
        let ranks = Vec::from_slice(alloc, &nodes)?;
        Ok(Order { nodes, ranks })
    }
}

/// A node, by its rank; and the position among the visits, counted from 1, of the one that it was found from. The parent of the
/// root is 0.
#[derive(Clone, Copy, PartialEq, Eq)]
pub struct Visit {
    pub node: u32,
    pub parent: u32,
}

/// A node, by its rank; the least number of edges of a chain to it from the root; and the position among the visits, counted from 1, of the
/// least node one level below that has an edge to it. The parent of the root is 0.
#[derive(Clone, Copy, PartialEq, Eq)]
pub struct LevelVisit {
    pub node: u32,
    pub level: u32,
    pub parent: u32,
}
