//! What a topology has.
ghost use Rattle.std.specs.Prelude.{◌≡◌, ◌<◌, ◌≤◌, ◌↔◌, List as Items, ℕ, length, IfSome, IfNone, IsTrue};
ghost use Rattle.std.specs.List.{Contains};
ghost use Rattle.std.specs.FinMap as fin_map;
ghost use Rattle.cb_model.specs.declared.node.NodeName.{NodeName as Name};
ghost use Rattle.cb_network.specs.Topology.{IsLive as IsLiveName, HasClass, IsMuted};
ghost use Rattle.cb_network.specs.Nodes.{IsNodeOf, IsColumn, IsProblem, IsSymptomNode, IsCount};
ghost use Rattle.cb_model.specs.WellTyped.{IsClass, WellTyped};
ghost use Rattle.cb_network.specs.Sound.{Sound, node_limit};
ghost use Rattle.cb_network.specs.Edits.{node_name_of as name_of};
ghost use Rattle.cb_instances.specs.declared.id.InstanceId.{InstanceId as Id};
ghost use Rattle.cb_instances.specs.Net.{IsNamed, IsLiveInstance, LinkAt, Once, HasEventAt};
ghost use Rattle.cb_nodes.specs.declared.id.NodeId.{NodeId as NodeNumber};
ghost use Rattle.cb_nodes.specs.declared.node.Node.{Node as NodeAt};
ghost use Rattle.cb_nodes.specs.Table.{IsNode, node_of};
ghost use Rattle.cb_topo.specs.Numbered.{topology_of, IsNodeNamed, IsLiveNode, IsWhole};

use crate::topology::Topology;
use cb_instances::InstanceId;
use cb_model::{ClassId, EventId, Marks, Model, RelId};
use cb_nodes::{Node, NodeId};

impl Topology {
    /// The model, with its tables.
    pub fn model(&self) -> &Model
        ensures value { result.now ≡ (topology_of self.now).model }
        ensures typed { WellTyped (topology_of self.now).model }
        ensures sound { Sound (topology_of self.now) }
        ensures whole { IsWhole self.now }
    {
        self.net.model()
    }

    /// The number of the instance of this name.
    pub fn instance_named(&self, name: &[u8]) -> Option<InstanceId>
        ensures found { IfSome result (λ id. IsNamed self.now.net id name.now) }
        ensures absent { IfNone result (¬ IsLiveName (topology_of self.now) name.now) }
    {
        self.net.instance_named(name)
    }

    /// The bytes of the instance's name, for as long as the topology is lent.
    pub fn instance_name(&self, id: InstanceId) -> &[u8]
        requires { IsLiveInstance self.now.net id }
        ensures { IsNamed self.now.net id result.now }
    {
        self.net.name_of(id)
    }

    /// The class that the instance was created with, one of the model's.
    pub fn class_of(&self, id: InstanceId) -> ClassId
        requires { IsLiveInstance self.now.net id }
        ensures named { (name : Items ℕ) → IsNamed self.now.net id name → HasClass (topology_of self.now) name result }
        ensures class { IsClass (topology_of self.now).model result }
    {
        self.net.class_of(id)
    }

    /// The instances that the relation leads to from this one.
    pub fn links(&self, id: InstanceId, rel: RelId) -> &[InstanceId]
        requires { IsLiveInstance self.now.net id }
        ensures exactly { (to : Id) → Contains result.now to ↔ LinkAt self.now.net id rel to }
        ensures once { Once result.now }
    {
        self.net.links(id, rel)
    }

    /// The number of the node of this event and instance.
    pub fn node_named(&self, event: &[u8], instance: &[u8]) -> Option<NodeId>
        ensures found { IfSome result (λ id. IsNodeNamed self.now id (name_of event.now instance.now)) }
        ensures absent { IfNone result (¬ IsNodeOf (topology_of self.now) (name_of event.now instance.now)) }
    {
        let id = self.net.instance_named(instance)?;
        let class = self.net.class_of(id);
        let event = self.net.model().event_named(class, event)?;
        self.nodes.node_at(id, event)
    }

    /// The names of the event and of the instance.
    pub fn node_name(&self, node: NodeId) -> (&[u8], &[u8])
        requires { IsLiveNode self.now node }
        ensures { IsNodeNamed self.now node (name_of result.0.now result.1.now) }
    {
        let at = self.node_of(node);
        let row = self.net.model().tables().events.at(at.event.0 as usize);
        (row.name.bytes(), self.net.name_of(at.instance))
    }

    /// The node of the instance's event, where its class has the event.
    pub fn node_at(&self, instance: InstanceId, event: EventId) -> Option<NodeId>
        requires { IsLiveInstance self.now.net instance }
        ensures found { IfSome result (λ id. IsNode self.now.nodes id (node_of instance event)) }
        ensures absent { IfNone result (¬ HasEventAt self.now.net instance event) }
        ensures whole { IsWhole self.now }
    {
        self.nodes.node_at(instance, event)
    }

    /// The instance that the node is at.
    pub fn instance_of(&self, node: NodeId) -> InstanceId
        requires { IsLiveNode self.now node }
        ensures { (at : NodeAt) → IsNode self.now.nodes node at → at.instance ≡ result }
    {
        self.node_of(node).instance
    }

    /// The event that the node is of, which its instance's class has, its own or an inherited one.
    pub fn event_of(&self, node: NodeId) -> EventId
        requires { IsLiveNode self.now node }
        ensures { (at : NodeAt) → IsNode self.now.nodes node at → at.event ≡ result }
    {
        self.node_of(node).event
    }

    /// Whether a number is that of a node.
    pub fn is_live(&self, node: NodeId) -> bool
        ensures { IsTrue result ↔ IsLiveNode self.now node }
    {
        self.nodes.node(node).is_some()
    }

    /// Whether the node is a symptom that is not muted.
    pub fn is_column(&self, node: NodeId) -> bool
        requires { IsLiveNode self.now node }
        ensures { (name : Name) → IsNodeNamed self.now node name → IsTrue result ↔ IsColumn (topology_of self.now) name }
    {
        self.marks_of(node).symptom && !self.is_muted(node)
    }

    /// Whether the node is muted now.
    pub fn is_muted(&self, node: NodeId) -> bool
        requires { IsLiveNode self.now node }
        ensures { (name : Name) → IsNodeNamed self.now node name → IsTrue result ↔ IsMuted (topology_of self.now) name }
    {
        let at = self.node_of(node);
        self.net.is_muted(at.instance, at.event)
    }

    /// Whether the event is marked as a problem. A node may be a column and a problem.
    pub fn is_problem(&self, node: NodeId) -> bool
        requires { IsLiveNode self.now node }
        ensures { (name : Name) → IsNodeNamed self.now node name → IsTrue result ↔ IsProblem (topology_of self.now) name }
    {
        self.marks_of(node).problem
    }

    /// How many instances are live. It takes no search.
    pub fn instance_count(&self) -> usize
        ensures { result ≡ fin_map.len (topology_of self.now).instances }
    {
        self.net.count()
    }

    /// How many nodes there are, of any kind, muted or not. It takes no search.
    pub fn node_count(&self) -> usize
        ensures { IsCount (IsNodeOf (topology_of self.now)) result }
    {
        self.nodes.count()
    }

    /// Above the number of each instance.
    pub fn instance_capacity(&self) -> usize
        ensures value { result ≡ self.now.net.capacity }
        ensures above { (id : Id) → IsLiveInstance self.now.net id → id.0 < result }
    {
        self.net.capacity()
    }

    /// Above the number of each node. It is at most 65,536.
    pub fn node_capacity(&self) -> usize
        ensures value { result ≡ length self.now.nodes }
        ensures above { (id : NodeNumber) → IsLiveNode self.now id → id.0 < result }
        ensures few { result ≤ node_limit }
        ensures sound { Sound (topology_of self.now) }
        ensures whole { IsWhole self.now }
    {
        self.nodes.capacity()
    }

    // The instance and the event of a node.
    fn node_of(&self, node: NodeId) -> Node
        requires { IsLiveNode self.now node }
        ensures { IsNode self.now.nodes node result }
    {
        self.nodes.node(node).unwrap()
    }

    // What the node's event is for its class.
    fn marks_of(&self, node: NodeId) -> Marks
        requires { IsLiveNode self.now node }
        ensures problem { (name : Name) → IsNodeNamed self.now node name → IsTrue result.problem ↔ IsProblem (topology_of self.now) name }
        ensures symptom { (name : Name) → IsNodeNamed self.now node name → IsTrue result.symptom ↔ IsSymptomNode (topology_of self.now) name }
    {
        let at = self.node_of(node);
        let class = self.net.class_of(at.instance);
        self.net.model().marks(class, at.event)
    }
}
