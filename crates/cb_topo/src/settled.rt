//! All nodes in the order of their names, which edits keep.
ghost use Rattle.std.specs.Prelude.{◌≡◌, ◌↔◌, ◌≤◌, length, IsTrue, IfOk, OnOk};
ghost use Rattle.std.specs.List.{Contains};
ghost use Rattle.std.specs.List.Sorted.{IsPartitionPoint};
ghost use Rattle.cb_model.specs.NodeOrder.{node_cmp};
ghost use Rattle.cb_topo.specs.Numbered.{IsLiveNode, IsNodeNamed, IsWhole};
ghost use Rattle.cb_topo.specs.Ordered.{called};
ghost use Rattle.cb_topo.specs.Settled.{IsBefore, IsAt, has_node, AreRisingNodes, IsSettled, LacksInstance, MayBeGone, PutsIn, IsSettledOrder, WasOrderOf};

use crate::topology::Topology;
use cb_instances::InstanceId;
use cb_network::Edit;
use cb_nodes::NodeId;
use std::alloc::{AllocError, Global};
use std::cmp::Ordering;
use std::mem;

/// The two parts of a node's name, which are lent, so that nodes are compared without a copy of any name.
#[derive(Drop)]
struct NodeParts<'a> {
    instance: &'a [u8],
    event: &'a [u8],
}

impl NodeParts<'_> {
    // The order of the names: by the instances, and by the events only where these are equal.
    fn compare(&self, other: &NodeParts<'_>) -> Ordering
        ensures { result ≡ node_cmp (called self.now) (called other.now) }
    {
        match self.instance.cmp(other.instance) {
            Ordering::Equal => self.event.cmp(other.event),
            unlike => unlike,
        }
    }
}

impl Topology {
    /// Puts all nodes in the order of their names. Edits keep it from then on, so that `columns`, `problems` and `nodes`
    /// compare no names. If memory is short for a new node, the order is dropped, and these calls sort again.
    pub fn settle(&mut self, alloc: Global) -> Result<(), AllocError>
        ensures { self.new ≡ self.old }
    {
        let order = self.sorted(alloc)?;
        self.order = Some(order);
        Ok(())
    }

    // The nodes in order, which aren't settled any more.
    pub(crate) fn take_order(&mut self) -> Option<Vec<NodeId>>
        ensures same { self.new ≡ self.old }
        ensures order { IsSettledOrder self.old result }
        ensures whole { IsWhole self.old }
    {
        mem::replace(&mut self.order, None)
    }

    // Keeps the nodes in order.
    pub(crate) fn put_order(&mut self, order: Option<Vec<NodeId>>)
        requires { IsSettledOrder self.old order }
        ensures { self.new ≡ self.old }
    {
        drop(mem::replace(&mut self.order, order));
    }

    // The nodes in order after the edit, from those before it. If memory is short for the new ones, the order is dropped.
    pub(crate) fn order_after(&self, edit: &Edit, order: Option<Vec<NodeId>>) -> Option<Vec<NodeId>>
        requires { WasOrderOf self.now edit.now order }
        ensures { IsSettledOrder self.now result }
    {
        let order = order?;
        match edit {
            Edit::Create { name, .. } => {
                let instance = self.net.instance_named(name.bytes())?;
                match self.with_new(order, instance) {
                    Ok(order) => Some(order),
                    Err(_) => None,
                }
            }
            Edit::Delete { .. } => Some(self.without_gone(order)),
            _ => Some(order),
        }
    }

    // With the nodes of the instance, which is new.
    fn with_new(&self, order: Vec<NodeId>, instance: InstanceId) -> Result<Vec<NodeId>, AllocError>
        requires whole { IsWhole self.now }
        requires lacks { LacksInstance self.now instance order.items }
        ensures { IfOk result (λ order. IsSettled self.now order.items) }
    {
        let mut order = order;
        for place in 0..self.nodes.capacity() {
            let node = NodeId(place as u32);
            if self.is_at(node, instance) {
                self.put_in(&mut order, node)?;
            }
        }
        Ok(order)
    }

    // Without those that aren't nodes any more.
    fn without_gone(&self, order: Vec<NodeId>) -> Vec<NodeId>
        requires whole { IsWhole self.now }
        requires gone { MayBeGone self.now order.items }
        ensures { IsSettled self.now result.items }
    {
        let mut order = order;
        order.retain(|node| self.has_node(*node));
        order
    }

    fn has_node(&self, node: NodeId) -> bool
        ensures { result ≡ has_node self.now.nodes node }
    {
        self.nodes.node(node).is_some()
    }

    fn is_at(&self, node: NodeId, instance: InstanceId) -> bool
        ensures { IsTrue result ↔ IsAt self.now instance node }
    {
        match self.nodes.node(node) {
            Some(at) => at.instance == instance,
            None => false,
        }
    }

    // Puts the node where it belongs.
    fn put_in(&self, order: &mut Vec<NodeId>, node: NodeId) -> Result<(), AllocError>
        requires whole { IsWhole self.now }
        requires rising { AreRisingNodes self.now order.old.items }
        requires live { IsLiveNode self.now node }
        requires new { ¬ Contains order.old.items node }
        ensures { OnOk result (PutsIn self.now order.old.items order.new.items node) }
    {
        let position = self.position_of(order, node);
        order.insert(position, node)?;
        Ok(())
    }

    // The position of the first node whose name isn't less than that of this one.
    fn position_of(&self, order: &[NodeId], node: NodeId) -> usize
        requires rising { AreRisingNodes self.now order.now }
        requires live { IsLiveNode self.now node }
        ensures within { result ≤ length order.now }
        ensures point { IsPartitionPoint (λ other. IsBefore self.now other node) (λ other. ¬ IsBefore self.now other node) order.now result }
    {
        let mut low = 0;
        let mut high = order.len();
        while low < high {
            let middle = low + (high - low) / 2;
            if self.is_before(order[middle], node) {
                low = middle + 1;
            } else {
                high = middle;
            }
        }
        low
    }

    fn is_before(&self, one: NodeId, other: NodeId) -> bool
        requires one { IsLiveNode self.now one }
        requires other { IsLiveNode self.now other }
        ensures { IsTrue result ↔ IsBefore self.now one other }
    {
        let one = self.parts_of(one);
        let other = self.parts_of(other);
        one.compare(&other).is_lt()
    }

    fn parts_of(&self, node: NodeId) -> NodeParts<'_>
        requires { IsLiveNode self.now node }
        ensures { IsNodeNamed self.now node (called result) }
    {
        let (event, instance) = self.node_name(node);
        NodeParts { instance, event }
    }
}
