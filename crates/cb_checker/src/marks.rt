//! The nodes that a span lists.
ghost use Rattle.std.specs.Prelude.{◌≡◌, ◌<◌, [], ◌∷◌, ◌++◌, length, replicate, true, false, IfOk, OnOk, slice_set};
ghost use Rattle.cb_checker.specs.Listed.{AreListed, AreMarked};

use crate::reasons::Reason;
use cb_bits::Row;
use cb_nodes::NodeId;
use cb_topo::Topology;
use std::alloc::{AllocError, Global};

/// The nodes that the entries of a span list so far, in their order and as a row; what the entries state; and a row and a list for successors.
#[derive(Drop)]
pub struct SpanNodes {
    pub placed: Vec<NodeId>,
    pub listed: Row,
    pub reasons: Vec<Reason>,
    pub found: Row,
    pub successors: Vec<usize>,
}

impl SpanNodes {
    /// No node of the topology is listed.
    pub fn new(alloc: Global, topology: &Topology) -> Result<SpanNodes, AllocError>
        ensures { IfOk result (AreMarked topology.now) }
    {
        let capacity = topology.node_capacity();
        Ok(SpanNodes {
            placed: Vec::new(alloc),
            listed: Row::zeroed(alloc, capacity)?,
            reasons: Vec::new(alloc),
            found: Row::zeroed(alloc, capacity)?,
            successors: Vec::new(alloc),
        })
    }

    /// Lists no node any more. Only the positions of those that were listed are wiped.
    pub fn forget(&mut self)
        requires { AreListed self.old.listed self.old.placed.items }
        ensures placed { self.new.placed.items ≡ [] }
        ensures listed { self.new.listed ≡ replicate (length self.old.listed) false }
        ensures found { self.new.found ≡ self.old.found }
    {
        for place in 0..self.placed.len() {
            self.listed.clear(self.placed[place].0 as usize);
        }
        self.placed.clear();
    }

    /// Lists a node.
    pub fn add(&mut self, node: NodeId) -> Result<(), AllocError>
        requires { node.0 < length self.old.listed }
        ensures placed { OnOk result (self.new.placed.items ≡ self.old.placed.items ++ node ∷ []) }
        ensures listed { OnOk result (self.new.listed ≡ slice_set self.old.listed node.0 true) }
        ensures capacity { length self.new.listed ≡ length self.old.listed }
        ensures reasons { self.new.reasons ≡ self.old.reasons }
        ensures found { self.new.found ≡ self.old.found }
    {
        self.placed.push(node)?;
        self.listed.set(node.0 as usize);
        Ok(())
    }
}
