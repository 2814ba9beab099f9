//! Numbers that nodes have, and numbers that are free.
ghost use Rattle.std.specs.Prelude.{◌≡◌, ◌≤◌, ◌<◌, ◌^◌, [], OnOk, vec_capacity};
ghost use Rattle.cb_nodes.specs.Kept.{AreKept, HasSpareFor, TakesNumber, GivesBack, SameSlots};
ghost use Rattle.cb_nodes.specs.Table.{HasNumber, count_of, capacity_with};

use crate::id::NodeId;
use crate::node::Node;
use std::alloc::{AllocError, Global};

/// For each number the node that has it, if one has, and the numbers that are free.
#[derive(Drop)]
pub struct Numbers {
    pub slots: Vec<Option<Node>>,
    // It has capacity for all numbers, so that giving one back takes no memory.
    pub free: Vec<NodeId>,
}

impl Numbers {
    /// No number.
    pub fn new(alloc: Global) -> Numbers
        ensures kept { AreKept result }
        ensures none { result.slots.items ≡ [] }
    {
        Numbers {
            slots: Vec::new(alloc),
            free: Vec::new(alloc),
        }
    }

    /// How many numbers have a node.
    pub fn count(&self) -> usize
        requires { AreKept self.now }
        ensures { result ≡ count_of self.now.slots.items }
    {
        self.slots.len() - self.free.len()
    }

    /// How many numbers are in use once `more` further nodes have theirs.
    pub fn capacity_with(&self, more: usize) -> usize
        requires kept { AreKept self.now }
        requires fits { capacity_with self.now.slots.items more < 2 ^ 64 }
        ensures { result ≡ capacity_with self.now.slots.items more }
    {
        self.slots.len().max(self.count() + more)
    }

    /// Reserves capacity for `more` further nodes.
    pub fn reserve(&mut self, more: usize) -> Result<(), AllocError>
        requires kept { AreKept self.old }
        requires fits { capacity_with self.old.slots.items more < 2 ^ 64 }
        ensures same { SameSlots self.old self.new }
        ensures spare { OnOk result (HasSpareFor self.new more) }
    {
        let capacity = self.capacity_with(more);
        self.slots.reserve(capacity - self.slots.len())?;
        self.free.reserve(capacity - self.free.len())
    }

    /// Gives the node a number that was free.
    pub fn take(&mut self, node: Node) -> NodeId
        requires kept { AreKept self.old }
        requires spare { HasSpareFor self.old 1 }
        requires few { capacity_with self.old.slots.items 1 ≤ 2 ^ 32 }
        ensures { TakesNumber self.old self.new result node }
    {
        match self.free.pop() {
            Some(id) => {
                self.slots[id.0 as usize] = Some(node);
                id
            }
            None => {
                let id = NodeId(self.slots.len() as u32);
                self.slots.push_reserved(Some(node));
                id
            }
        }
    }

    /// The number is free again.
    pub fn give_back(&mut self, id: NodeId)
        requires kept { AreKept self.old }
        requires had { HasNumber self.old.slots.items id }
        ensures { GivesBack self.old self.new id }
    {
        self.slots[id.0 as usize] = None;
        self.free.push_reserved(id);
    }
}
