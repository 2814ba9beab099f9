//! The rows of all that some nodes of a graph lead to.
ghost use Rattle.std.specs.Prelude.{List as Items, ◌≡◌, ◌≤◌, ℕ, IfOk, OnOk, OnErr, None, length, replicate};
ghost use Rattle.std.specs.List.{All, Contains};
ghost use Rattle.cb_change.specs.Costs.{IsOpenCost, CountsAtMost};
ghost use Rattle.cb_topo.specs.Numbered.{topology_of, IsLiveNode};
ghost use Rattle.cb_cache.specs.Kept.{IsCacheOf};
ghost use Rattle.cb_cache.specs.Prepared.{AreNoRows, IsEmptyFor, IsCapacityFor};
ghost use Rattle.cb_cache.specs.Capacity.{HasCapacityFor};
ghost use Rattle.cb_cache.specs.Numbers.{AreOnce};
ghost use Rattle.cb_cache.specs.Rows.{CostInSomeOrder, HaveRows, IsNodeRow};

use crate::agenda::{Agenda, agenda_for};
use crate::fill::add_rows;
use crate::order::scatter;
use crate::problems::{list_problems, problem_count};
use crate::scratch::Scratch;
use cb_bits::Row;
use cb_graph::Graph;
use cb_nodes::NodeId;
use cb_pool::{RowPool, Slot};
use cb_steps::Steps;
use cb_topo::Topology;
use std::alloc::{AllocError, Global};
use std::sync::ledger::Ledger;

/// For the number of each node that has a row the slot of that row, the rows, and the buffers of a search.
#[derive(Drop)]
pub struct Rows {
    pub slots: Vec<Option<Slot>>,
    pub pool: RowPool,
    pub scratch: Scratch,
}

impl Rows {
    /// Those of these nodes, each of which is searched from once.
    pub fn of<L: Ledger>(
        alloc: Global,
        graph: &mut Graph,
        nodes: &[NodeId],
        steps: &mut Steps<L>,
    ) -> Result<Rows, AllocError>
        requires live { All (IsLiveNode graph.old) nodes.now }
        requires once { AreOnce nodes.now }
        ensures same { graph.new ≡ graph.old }
        ensures rows { IfOk result (HaveRows graph.old (Contains nodes.now)) }
        ensures cost { OnOk result (CostInSomeOrder graph.old nodes.now steps.old steps.new) }
        ensures steps { OnErr result (steps.new ≡ steps.old) }
    {
        let mut order = Vec::from_slice(alloc, nodes)?;
        scatter(&mut order);
        let mut rows = no_rows(alloc, graph.topology().node_capacity(), order.len())?;
        add_rows(graph, &order, &mut rows, steps);
        Ok(rows)
    }

    /// How many words a row has.
    pub fn width(&self) -> usize
        ensures { result ≡ self.now.pool.width }
    {
        self.pool.width()
    }

    /// The row of a node.
    pub fn row(&self, node: NodeId) -> &[u64]
        requires { (words : Items ℕ) × IsNodeRow self.now node words }
        ensures row { IsNodeRow self.now node result.now }
        ensures width { length result.now ≡ self.now.pool.width }
    {
        let slot = self.slots[node.0 as usize].unwrap();
        self.pool.row(slot)
    }
}

/// Rows, and the agenda of what is to be done about them.
#[derive(Drop)]
pub struct Store {
    pub rows: Rows,
    pub agenda: Agenda,
}

/// The rows of the graph's problems, each of which is searched from once.
pub(crate) fn search_all<L: Ledger>(
    alloc: Global,
    graph: &mut Graph,
    steps: &mut Steps<L>,
) -> Result<Store, AllocError>
    ensures same { graph.new ≡ graph.old }
    ensures kept { IfOk result (IsCacheOf graph.old) }
    ensures cost { OnOk result (CountsAtMost (IsOpenCost (topology_of graph.old)) steps.old steps.new) }
    ensures steps { OnErr result (steps.new ≡ steps.old) }
{
    let mut store = capacity_now(alloc, graph.topology())?;
    search_each(graph, &mut store, steps);
    Ok(store)
}

// Searches from each problem, into rows that were reserved for it.
fn search_each<L: Ledger>(graph: &mut Graph, store: &mut Store, steps: &mut Steps<L>)
    requires { IsCapacityFor graph.old store.old }
    ensures same { graph.new ≡ graph.old }
    ensures kept { IsCacheOf graph.old store.new }
    ensures cost { CountsAtMost (IsOpenCost (topology_of graph.old)) steps.old steps.new }
{
    list_problems(graph.topology(), &mut store.agenda.problems);
    add_rows(graph, &store.agenda.problems, &mut store.rows, steps);
}

// Capacity for the rows of the topology.
fn capacity_now(alloc: Global, topology: &Topology) -> Result<Store, AllocError>
    ensures { IfOk result (IsCapacityFor topology.now) }
{
    make_capacity(alloc, topology.node_capacity(), problem_count(topology))
}

// Capacity for `count` rows of `capacity` nodes, none of which is there yet.
fn make_capacity(alloc: Global, capacity: usize, count: usize) -> Result<Store, AllocError>
    ensures { IfOk result (IsEmptyFor capacity count) }
{
    Ok(Store {
        rows: no_rows(alloc, capacity, count)?,
        agenda: agenda_for(alloc, capacity)?,
    })
}

// No row yet, and capacity for `count` of them.
fn no_rows(alloc: Global, capacity: usize, count: usize) -> Result<Rows, AllocError>
    ensures { IfOk result (AreNoRows capacity count) }
{
    let mut pool = RowPool::new(alloc, capacity.div_ceil(64));
    pool.reserve(count)?;
    Ok(Rows {
        slots: no_slots(alloc, capacity)?,
        pool,
        scratch: scratch_for(alloc, capacity)?,
    })
}

// `capacity` positions without a slot.
fn no_slots(alloc: Global, capacity: usize) -> Result<Vec<Option<Slot>>, AllocError>
    ensures { IfOk result (λ slots. slots.items ≡ replicate capacity None) }
{
    vec![in alloc; None; capacity]
}

/// Buffers for searches among `capacity` nodes.
pub(crate) fn scratch_for(alloc: Global, capacity: usize) -> Result<Scratch, AllocError>
    ensures { IfOk result (HasCapacityFor capacity) }
{
    Ok(Scratch {
        found: Row::zeroed(alloc, capacity)?,
        done: Row::zeroed(alloc, capacity)?,
        joined: vec![in alloc; 0; capacity.div_ceil(64)]?,
    })
}
