//! Columns, problems and all nodes in order.
ghost use Rattle.std.specs.Prelude.{◌↔◌, List as Items, IfOk, IsTrue};
ghost use Rattle.cb_model.specs.declared.node.NodeName.{NodeName as Node};
ghost use Rattle.cb_network.specs.Nodes.{AreInOrder, AreColumns, AreProblems, IsNodeOf};
ghost use Rattle.cb_topo.specs.Numbered.{topology_of, IsNodeNamed, IsLiveNode, IsWhole, AreNamed};
ghost use Rattle.cb_topo.specs.Ordered.{IsOfKind};
ghost use Rattle.cb_topo.specs.Settled.{IsSettled};

use crate::kind::NodeKind;
use crate::topology::Topology;
use cb_model::{List, NodeName};
use cb_nodes::NodeId;
use std::alloc::{AllocError, Global};

impl Topology {
    /// The columns in order.
    pub fn columns(&self, alloc: Global) -> Result<List<NodeId>, AllocError>
        ensures { IfOk result (λ ids. (names : Items Node) × AreColumns (topology_of self.now) names × AreNamed self.now ids names) }
    {
        self.listing(alloc, NodeKind::Column)
    }

    /// The problems in order.
    pub fn problems(&self, alloc: Global) -> Result<List<NodeId>, AllocError>
        ensures { IfOk result (λ ids. (names : Items Node) × AreProblems (topology_of self.now) names × AreNamed self.now ids names) }
    {
        self.listing(alloc, NodeKind::Problem)
    }

    /// All nodes in order, of any kind, muted or not.
    pub fn nodes(&self, alloc: Global) -> Result<List<NodeId>, AllocError>
        ensures { IfOk result (λ ids. (names : Items Node) × AreInOrder (IsNodeOf (topology_of self.now)) names × AreNamed self.now ids names) }
    {
        self.listing(alloc, NodeKind::Any)
    }

    // The nodes of the kind, in order.
    fn listing(&self, alloc: Global, kind: NodeKind) -> Result<List<NodeId>, AllocError>
        ensures { IfOk result (λ ids. (names : Items Node) × AreInOrder (IsOfKind kind (topology_of self.now)) names × AreNamed self.now ids names) }
    {
        match &self.order {
            Some(order) => self.picked(alloc, order, kind),
            None => {
                let order = self.sorted(alloc)?;
                self.picked(alloc, &order, kind)
            }
        }
    }

    // Those of the kind, among all nodes in order.
    fn picked(
        &self,
        alloc: Global,
        order: &[NodeId],
        kind: NodeKind,
    ) -> Result<List<NodeId>, AllocError>
        requires whole { IsWhole self.now }
        requires settled { IsSettled self.now order.now }
        ensures { IfOk result (λ ids. (names : Items Node) × AreInOrder (IsOfKind kind (topology_of self.now)) names × AreNamed self.now ids names) }
    {
        let mut nodes = List::new(alloc);
        for node in order {
            if self.is_of(*node, kind) {
                nodes.push(*node)?;
            }
        }
        Ok(nodes)
    }

    fn is_of(&self, node: NodeId, kind: NodeKind) -> bool
        requires { IsLiveNode self.now node }
        ensures { (name : Node) → IsNodeNamed self.now node name → IsTrue result ↔ IsOfKind kind (topology_of self.now) name }
    {
        match kind {
            NodeKind::Column => self.is_column(node),
            NodeKind::Problem => self.is_problem(node),
            NodeKind::Any => self.nodes.node(node).is_some(),
        }
    }

    /// A copy of the node's name.
    pub fn copy_name(&self, alloc: Global, node: NodeId) -> Result<NodeName, AllocError>
        requires { IsLiveNode self.now node }
        ensures { IfOk result (IsNodeNamed self.now node) }
    {
        let (event, instance) = self.node_name(node);
        NodeName::of(alloc, event, instance)
    }
}
