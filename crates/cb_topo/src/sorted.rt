//! All nodes put in order: the instances by their names, and at each one the events of its class by theirs.
ghost use Rattle.std.specs.Prelude.{◌≢◌, IfOk, OnOk};
ghost use Rattle.std.specs.List.{AllPairs};
ghost use Rattle.cb_model.specs.WellTyped.{IsClass};
ghost use Rattle.cb_instances.specs.Net.{IsLiveInstance};
ghost use Rattle.cb_topo.specs.Numbered.{topology_of, IsWhole};
ghost use Rattle.cb_topo.specs.Settled.{IsSettled};
ghost use Rattle.cb_topo.specs.Sorted.{name_given, AreInNameOrder, AreInstancesInOrder, AreEventsInOrder, AreEventsOfClasses, AreEventsOfInstance, ListsNodesAt};

use crate::topology::Topology;
use cb_instances::InstanceId;
use cb_model::{ClassId, EventId, Model};
use cb_nodes::NodeId;
use std::alloc::{AllocError, Global};

/// An instance or an event with its name, which is lent, so that no name is copied.
#[derive(Drop)]
struct Named<'a, T> {
    name: &'a [u8],
    id: T,
}

impl Topology {
    // All nodes in the order of their names. No two names of nodes are compared.
    pub(crate) fn sorted(&self, alloc: Global) -> Result<Vec<NodeId>, AllocError>
        ensures { IfOk result (λ order. IsSettled self.now order.items) }
    {
        let instances = self.instances_in_order(alloc)?;
        let events = events_of_classes(alloc, self.net.model())?;
        let mut nodes = Vec::new(alloc);
        for instance in &instances {
            let class = self.net.class_of(*instance);
            self.list_nodes(&mut nodes, *instance, &events[class.0 as usize])?;
        }
        Ok(nodes)
    }

    // The nodes at the instance, listed after those that are; the events are those of its class.
    fn list_nodes(
        &self,
        nodes: &mut Vec<NodeId>,
        instance: InstanceId,
        events: &[EventId],
    ) -> Result<(), AllocError>
        requires whole { IsWhole self.now }
        requires events { AreEventsOfInstance self.now instance events.now }
        ensures { OnOk result (ListsNodesAt self.now instance nodes.old.items nodes.new.items) }
    {
        for event in events {
            if let Some(node) = self.nodes.node_at(instance, *event) {
                nodes.push(node)?;
            }
        }
        Ok(())
    }

    // All instances in the order of their names.
    fn instances_in_order(&self, alloc: Global) -> Result<Vec<InstanceId>, AllocError>
        ensures { IfOk result (λ instances. AreInstancesInOrder self.now.net instances.items) }
    {
        let mut named = Vec::new(alloc);
        for place in 0..self.net.capacity() {
            let id = InstanceId(place);
            if self.net.has_instance(id) {
                let name = self.net.name_of(id);
                named.push(Named { name, id })?;
            }
        }
        in_name_order(alloc, named)
    }
}

// For each class its events in the order of their names.
fn events_of_classes(alloc: Global, model: &Model) -> Result<Vec<Vec<EventId>>, AllocError>
    ensures { IfOk result (λ lists. AreEventsOfClasses model.now lists.items) }
{
    let mut lists = Vec::new(alloc);
    for class in 0..model.tables().classes.len() {
        lists.push(events_in_order(alloc, model, ClassId(class as u16))?)?;
    }
    Ok(lists)
}

// The events of the class in the order of their names.
fn events_in_order(alloc: Global, model: &Model, class: ClassId) -> Result<Vec<EventId>, AllocError>
    requires { IsClass model.now class }
    ensures { IfOk result (λ events. AreEventsInOrder model.now class events.items) }
{
    let tables = model.tables();
    let events = model.events_of(class).as_slice();
    let mut named = Vec::new(alloc);
    for id in events {
        let row = tables.events.at(id.0 as usize);
        named.push(Named {
            name: row.name.bytes(),
            id: *id,
        })?;
    }
    in_name_order(alloc, named)
}

// What the names stand for, in their order; no two of the names are alike.
fn in_name_order<T: Copy>(alloc: Global, named: Vec<Named<'_, T>>) -> Result<Vec<T>, AllocError>
    requires { AllPairs (λ one other. name_given one ≢ name_given other) named.items }
    ensures { IfOk result (λ ids. AreInNameOrder named.entry.items ids.items) }
{
    let mut named = named;
    named.sort_unstable_by(|one, other| one.name.cmp(other.name));
    let mut ids = Vec::new(alloc);
    for one in &named {
        ids.push(one.id)?;
    }
    Ok(ids)
}
