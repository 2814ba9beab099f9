//! Edits that bring an instance: there are more nodes then, and more problems.
ghost use Rattle.std.specs.Prelude.{◌≡◌, ◌≤◌, ◌+◌, ◌↔◌, ◌++◌, ◌-◌, ℕ, [], length, replicate, None, vec_capacity, OnOk, OnErr, IfOk, IfSome, IfNone};
ghost use Rattle.std.specs.List.{Contains};
ghost use Rattle.cb_change.specs.Costs.{IsEditCost, CountsAtMost};
ghost use Rattle.cb_network.specs.Laws.{HasGoodName};
ghost use Rattle.cb_instances.specs.Net.{IsLiveInstance, Once};
ghost use Rattle.cb_nodes.specs.declared.id.NodeId.{NodeId as NodeNumber};
ghost use Rattle.cb_nodes.specs.Table.{IsNode, node_of};
ghost use Rattle.cb_topo.specs.Accepted.{IsDecided};
ghost use Rattle.cb_topo.specs.Applied.{Applies};
ghost use Rattle.cb_topo.specs.Numbered.{Numbered, topology_of, IsWhole};
ghost use Rattle.cb_cache.specs.Cached.{but_spare};
ghost use Rattle.cb_cache.specs.Created.{MakesInstance, IsNewProblem, IsPoolFor, IsProblemAmong, IsCapacityWith, pool_or};
ghost use Rattle.cb_cache.specs.Kept.{HaveCapacity, IsCacheOf};
ghost use Rattle.cb_cache.specs.Most.{HasEventsWithin};
ghost use Rattle.cb_cache.specs.Numbers.{AreOnce, IsProblemNumber};
ghost use Rattle.cb_cache.specs.Spare.{AreButSpare, IsButSpare};

use crate::agenda::{Agenda, agenda_for};
use crate::edits::edit_graph;
use crate::fill::add_rows;
use crate::problems::events_within;
use crate::rows::{Rows, Store, scratch_for};
use crate::scratch::Scratch;
use cb_graph::Graph;
use cb_model::EventId;
use cb_nodes::NodeId;
use cb_pool::{RowPool, Slot};
use cb_steps::Steps;
use cb_topo::{AcceptedEdit, Edit, InstanceId, Topology};
use std::alloc::{AllocError, Global};
use std::mem::swap;
use std::sync::ledger::Ledger;

/// What more nodes need: positions for all, and, where rows must be longer, another pool.
#[derive(Drop)]
pub struct Further {
    slots: Vec<Option<Slot>>,
    scratch: Scratch,
    agenda: Agenda,
    pool: Option<RowPool>,
}

/// Makes an edit that brings an instance, and searches from its problems. All memory is taken before the edit is made.
pub(crate) fn create<L: Ledger>(
    alloc: Global,
    graph: &mut Graph,
    accepted: &AcceptedEdit<'_>,
    store: &mut Store,
    steps: &mut Steps<L>,
) -> Result<(), AllocError>
    requires name { HasGoodName accepted.now.edit.now }
    requires decided { IsDecided graph.old accepted.now }
    requires creates { MakesInstance accepted.now.edit.now }
    requires kept { IsCacheOf graph.old store.old }
    ensures made { OnOk result (Applies graph.old accepted.now.edit.now graph.new) }
    ensures kept { IsCacheOf graph.new store.new }
    ensures cost { OnOk result (CountsAtMost (IsEditCost (topology_of graph.old) accepted.now.edit.now (topology_of graph.new)) steps.old steps.new) }
    ensures graph { OnErr result (graph.new ≡ graph.old) }
    ensures store { OnErr result (IsButSpare store.old store.new) }
    ensures steps { OnErr result (steps.new ≡ steps.old) }
{
    let mut further = further_for(alloc, graph.topology(), accepted, &mut store.rows)?;
    create_in(alloc, graph, accepted, &mut further, store, steps)
}

// Makes a Create, once all memory for it was taken.
fn create_in<L: Ledger>(
    alloc: Global,
    graph: &mut Graph,
    accepted: &AcceptedEdit<'_>,
    further: &mut Further,
    store: &mut Store,
    steps: &mut Steps<L>,
) -> Result<(), AllocError>
    requires name { HasGoodName accepted.now.edit.now }
    requires decided { IsDecided graph.old accepted.now }
    requires creates { MakesInstance accepted.now.edit.now }
    requires kept { IsCacheOf graph.old store.old }
    requires further { IsCapacityWith graph.old accepted.now.edit.now store.old.rows further.old }
    ensures made { OnOk result (Applies graph.old accepted.now.edit.now graph.new) }
    ensures kept { IsCacheOf graph.new store.new }
    ensures cost { OnOk result (CountsAtMost (IsEditCost (topology_of graph.old) accepted.now.edit.now (topology_of graph.new)) steps.old steps.new) }
    ensures graph { OnErr result (graph.new ≡ graph.old) }
    ensures store { OnErr result (store.new ≡ store.old) }
    ensures steps { OnErr result (steps.new ≡ steps.old) }
{
    edit_graph(alloc, graph, accepted)?;
    move_in(further, store);
    list_new(graph.topology(), accepted.edit, &mut store.agenda.problems);
    add_rows(graph, &store.agenda.problems, &mut store.rows, steps);
    Ok(())
}

// Capacity for the nodes that there are once the edit is made, beside the rows as they are.
fn further_for(
    alloc: Global,
    topology: &Topology,
    accepted: &AcceptedEdit<'_>,
    rows: &mut Rows,
) -> Result<Further, AllocError>
    requires decided { IsDecided topology.now accepted.now }
    requires capacity { HaveCapacity topology.now rows.old }
    ensures further { IfOk result (IsCapacityWith topology.now accepted.now.edit.now rows.new) }
    ensures rows { AreButSpare rows.old rows.new }
{
    let capacity = topology.node_capacity_after(accepted);
    let more = events_within(topology, accepted);
    let pool = pool_for(alloc, &mut rows.pool, capacity.div_ceil(64), more)?;
    Ok(Further {
        slots: slots_for(alloc, &rows.slots, capacity)?,
        scratch: scratch_for(alloc, capacity)?,
        agenda: agenda_for(alloc, capacity)?,
        pool,
    })
}

// Reserves capacity for `more` further rows; in another pool, if rows must be longer.
fn pool_for(
    alloc: Global,
    pool: &mut RowPool,
    width: usize,
    more: usize,
) -> Result<Option<RowPool>, AllocError>
    requires { pool.old.width ≤ width }
    ensures capacity { IfOk result (IsPoolFor width more pool.new) }
    ensures same { but_spare pool.new ≡ but_spare pool.old }
{
    if width > pool.width() {
        return Ok(Some(pool.wider(alloc, width, more)?));
    }
    pool.reserve(more)?;
    Ok(None)
}

// A copy of the slots, for `capacity` numbers.
fn slots_for(
    alloc: Global,
    slots: &[Option<Slot>],
    capacity: usize,
) -> Result<Vec<Option<Slot>>, AllocError>
    ensures { IfOk result (λ made. made.items ≡ slots.now ++ replicate (capacity - length slots.now) None) }
{
    let mut made = Vec::with_capacity(alloc, capacity)?;
    made.extend_from_slice(slots)?;
    made.resize(capacity.max(slots.len()), None)?;
    Ok(made)
}

// Moves the rows into the new pool. What stays in the old one doesn't matter.
fn move_in(further: &mut Further, store: &mut Store)
    ensures slots { store.new.rows.slots ≡ further.old.slots }
    ensures scratch { store.new.rows.scratch ≡ further.old.scratch }
    ensures agenda { store.new.agenda ≡ further.old.agenda }
    ensures pool { store.new.rows.pool ≡ pool_or store.old.rows.pool further.old.pool }
{
    swap(&mut store.rows.slots, &mut further.slots);
    swap(&mut store.rows.scratch, &mut further.scratch);
    swap(&mut store.agenda, &mut further.agenda);
    if let Some(pool) = &mut further.pool {
        swap(&mut store.rows.pool, pool);
    }
}

// Lists the problems of the instance that the edit has brought.
fn list_new(topology: &Topology, edit: &Edit, list: &mut Vec<NodeId>)
    requires creates { MakesInstance edit.now }
    requires made { (old : Numbered) × Applies old edit.now topology.now }
    requires capacity { HasEventsWithin (topology_of topology.now).model edit.now (vec_capacity list.old) }
    ensures problems { (id : NodeNumber) → Contains list.new.items id ↔ IsNewProblem topology.now edit.now id }
    ensures once { AreOnce list.new.items }
    ensures few { (most : ℕ) → HasEventsWithin (topology_of topology.now).model edit.now most → length list.new.items ≤ most }
    ensures capacity { vec_capacity list.new ≡ vec_capacity list.old }
{
    list.clear();
    let Edit::Create { name, .. } = edit else {
        return;
    };
    let Some(instance) = topology.instance_named(name.bytes()) else {
        return;
    };
    let class = topology.class_of(instance);
    let events = topology.model().events_of(class).as_slice();
    list_problems_among(topology, instance, events, list);
}

// Lists those of the instance's events that are problems.
fn list_problems_among(
    topology: &Topology,
    instance: InstanceId,
    events: &[EventId],
    list: &mut Vec<NodeId>,
)
    requires live { IsLiveInstance topology.now.net instance }
    requires once { Once events.now }
    requires empty { list.old.items ≡ [] }
    requires capacity { length events.now ≤ vec_capacity list.old }
    ensures problems { (id : NodeNumber) → Contains list.new.items id ↔ IsProblemAmong topology.now instance events.now id }
    ensures once { AreOnce list.new.items }
    ensures few { length list.new.items ≤ length events.now }
    ensures capacity { vec_capacity list.new ≡ vec_capacity list.old }
{
    for event in events {
        if let Some(node) = problem_at(topology, instance, *event) {
            list.push_reserved(node);
        }
    }
}

// The node of the instance's event, where that is a problem.
fn problem_at(topology: &Topology, instance: InstanceId, event: EventId) -> Option<NodeId>
    requires { IsLiveInstance topology.now.net instance }
    ensures problem { IfSome result (IsProblemNumber topology.now) }
    ensures event { IfSome result (λ id. IsNode topology.now.nodes id (node_of instance event)) }
    ensures none { IfNone result ((id : NodeNumber) → IsNode topology.now.nodes id (node_of instance event) → ¬ IsProblemNumber topology.now id) }
    ensures whole { IsWhole topology.now }
{
    let node = topology.node_at(instance, event)?;
    if topology.is_problem(node) {
        Some(node)
    } else {
        None
    }
}
