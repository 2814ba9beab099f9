//! The table of nodes and numbers.
ghost use Rattle.std.specs.Prelude.{◌≡◌, ◌≤◌, ◌<◌, ◌^◌, ◌↔◌, List, [], length, OnOk, OnErr, IfOk, IfSome, IfNone};
ghost use Rattle.cb_model.specs.Views.{AreEventsOf};
ghost use Rattle.cb_model.specs.WellTyped.{IsClass};
ghost use Rattle.cb_model.specs.declared.id.EventId.{EventId as Event};
ghost use Rattle.cb_instances.specs.Net.{Once, Creates};
ghost use Rattle.cb_network.specs.Topology.{IsLive as IsLiveName};
ghost use Rattle.cb_nodes.specs.Created.{AddsAll, IsFreed};
ghost use Rattle.cb_nodes.specs.declared.id.NodeId.{NodeId as Id};
ghost use Rattle.cb_nodes.specs.Table.{IsNode, HasNumber, node_of, NumbersEvent, IsOne, Adds, Removes, count_of, capacity_with};

use crate::id::NodeId;
use crate::listed::Listed;
use crate::lists::{free_all, number_events, number_of, reserve};
use crate::node::Node;
use crate::numbers::Numbers;
use cb_instances::{InstanceId, Net};
use cb_model::{ClassId, EventId};
use std::alloc::{AllocError, Global};

/// The nodes of all numbers, and for each instance the numbers of its events.
#[derive(Drop)]
pub struct NodeTable {
    numbers: Numbers,
    // By the number of the instance.
    lists: Vec<Vec<Listed>>,
}

impl std::marker::Model for NodeTable {
    ghost use Rattle.cb_nodes.specs.Table.{Table};

    ghost Value = { Table };

    ghost use Rattle.cb_nodes.specs.Kept.{IsTableOf};

    ghost view = { λ s. s.numbers.slots.items };

    ghost invariant = { λ s. IsTableOf s.numbers s.lists.items };
}

impl NodeTable {
    /// No node.
    pub fn new(alloc: Global) -> NodeTable
        ensures { result ≡ [] }
    {
        NodeTable {
            numbers: Numbers::new(alloc),
            lists: Vec::new(alloc),
        }
    }

    /// Gives each of the events a number that was free, whatever instance there is: tests number events without a net.
    pub(crate) fn add(
        &mut self,
        alloc: Global,
        instance: InstanceId,
        events: &[EventId],
    ) -> Result<(), AllocError>
        requires new { (e : Event) → ¬ NumbersEvent self.old instance e }
        requires once { Once events.now }
        requires few { capacity_with self.old (length events.now) ≤ 2 ^ 32 }
        ensures ok { OnOk result (Adds self.old self.new instance events.now) }
        ensures err { OnErr result (self.new ≡ self.old) }
    {
        self.numbers.reserve(events.len())?;
        reserve(alloc, &mut self.lists, instance, events.len())?;
        number_events(
            &mut self.numbers,
            &mut self.lists[instance.0],
            instance,
            events,
        );
        Ok(())
    }

    /// A new instance of the net, each of whose events gets a number that was free.
    pub fn create(
        &mut self,
        alloc: Global,
        net: &mut Net,
        name: &[u8],
        class: ClassId,
    ) -> Result<InstanceId, AllocError>
        requires class { IsClass net.old.topology.model class }
        requires absent { ¬ IsLiveName net.old.topology name.now }
        requires freed { IsFreed net.old self.old }
        requires few { (events : List Event) → AreEventsOf net.old.topology.model class events → capacity_with self.old (length events) ≤ 2 ^ 32 }
        ensures created { IfOk result (λ id. Creates net.old net.new id name.now class) }
        ensures added { IfOk result (AddsAll net.old class self.old self.new) }
        ensures one { IsOne self.new }
        ensures net { OnErr result (net.new ≡ net.old) }
        ensures nodes { OnErr result (self.new ≡ self.old) }
    {
        let instance = net.next();
        let count = net.model().events_of(class).len();
        self.numbers.reserve(count)?;
        reserve(alloc, &mut self.lists, instance, count)?;
        net.create(alloc, name, class)?;
        let events = net.model().events_of(class).as_slice();
        let list = &mut self.lists[instance.0];
        number_events(&mut self.numbers, list, instance, events);
        Ok(instance)
    }

    /// Takes the numbers of the instance's events away. It takes no memory.
    pub fn remove(&mut self, instance: InstanceId)
        ensures { Removes self.old self.new instance }
    {
        if let Some(list) = self.lists.get_mut(instance.0) {
            free_all(&mut self.numbers, list);
            list.clear();
        }
    }

    /// The number of an instance's event.
    pub fn node_at(&self, instance: InstanceId, event: EventId) -> Option<NodeId>
        ensures found { IfSome result (λ id. IsNode self.now id (node_of instance event)) }
        ensures absent { IfNone result (¬ NumbersEvent self.now instance event) }
    {
        let list = self.lists.get(instance.0)?;
        number_of(list, event)
    }

    /// The node of a number.
    pub fn node(&self, id: NodeId) -> Option<Node>
        ensures found { IfSome result (IsNode self.now id) }
        ensures absent { IfNone result (¬ HasNumber self.now id) }
    {
        match self.numbers.slots.get(id.0 as usize) {
            Some(slot) => *slot,
            None => None,
        }
    }

    /// How many nodes there are.
    pub fn count(&self) -> usize
        ensures { result ≡ count_of self.now }
    {
        self.numbers.count()
    }

    /// Above each number in use.
    pub fn capacity(&self) -> usize
        ensures value { result ≡ length self.now }
        ensures above { (id : Id) → HasNumber self.now id → id.0 < result }
    {
        self.numbers.slots.len()
    }

    /// What `capacity` is once `more` further nodes have their numbers.
    pub fn capacity_with(&self, more: usize) -> usize
        requires { capacity_with self.now more < 2 ^ 64 }
        ensures { result ≡ capacity_with self.now more }
    {
        self.numbers.capacity_with(more)
    }
}
