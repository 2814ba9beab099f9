//! Edits that take links away: what is reached from some problems is less then.
ghost use Rattle.std.specs.Prelude.{◌≡◌, ◌<◌, ◌≤◌, ◌+◌, ◌^◌, ℕ, length, vec_capacity, OnOk, OnErr};
ghost use Rattle.cb_bits.specs.Bits.{words_for};
ghost use Rattle.cb_change.specs.Costs.{IsEditCost, CountsAtMost};
ghost use Rattle.cb_network.specs.declared.edit.Edit.{Edit as EditOf};
ghost use Rattle.cb_network.specs.Laws.{HasGoodName};
ghost use Rattle.cb_topo.specs.Accepted.{IsDecided};
ghost use Rattle.cb_topo.specs.Applied.{Applies, MayGrow};
ghost use Rattle.cb_topo.specs.Numbered.{Numbered, topology_of};
ghost use Rattle.cb_pool.specs.declared.slot.Slot.{Slot as SlotOf};
ghost use Rattle.cb_pool.specs.Pool.{IsTaken};
ghost use Rattle.cb_cache.specs.Kept.{IsCacheOf, HaveCapacity, AreRight, OwnSlots};
ghost use Rattle.cb_cache.specs.Reached.{HasSlot};
ghost use Rattle.cb_cache.specs.Stale.{TakesAway, FollowsEdit, AreTaken, TakesBack, TakesBackOne};

use crate::edits::edit_graph;
use crate::fill::add_rows;
use crate::order::scatter;
use crate::rows::{Rows, Store};
use cb_bits::Row;
use cb_graph::Graph;
use cb_lanes::and_any;
use cb_nodes::NodeId;
use cb_steps::Steps;
use cb_topo::{AcceptedEdit, Topology};
use std::alloc::{AllocError, Global};
use std::sync::ledger::Ledger;

/// Makes an edit that takes links away. Memory never runs out.
pub(crate) fn cut<L: Ledger>(
    alloc: Global,
    graph: &mut Graph,
    accepted: &AcceptedEdit<'_>,
    store: &mut Store,
    steps: &mut Steps<L>,
) -> Result<(), AllocError>
    requires name { HasGoodName accepted.now.edit.now }
    requires decided { IsDecided graph.old accepted.now }
    requires takes { TakesAway accepted.now.edit.now }
    requires kept { IsCacheOf graph.old store.old }
    ensures made { OnOk result (Applies graph.old accepted.now.edit.now graph.new) }
    ensures kept { IsCacheOf graph.new store.new }
    ensures cost { OnOk result (CountsAtMost (IsEditCost (topology_of graph.old) accepted.now.edit.now (topology_of graph.new)) steps.old steps.new) }
    ensures grows { OnErr result (MayGrow accepted.now.edit.now) }
    ensures graph { OnErr result (graph.new ≡ graph.old) }
    ensures rows { OnErr result (store.new.rows ≡ store.old.rows) }
    ensures steps { OnErr result (steps.new ≡ steps.old) }
{
    graph.touched(accepted, &mut store.agenda.touched);
    edit_graph(alloc, graph, accepted)?;
    search_again(
        graph,
        &store.agenda.touched,
        &mut store.rows,
        &mut store.agenda.problems,
        steps,
    );
    Ok(())
}

// Searches again from the problems whose rows had a touched node before the edit, and gives back the rows of those that are gone.
fn search_again<L: Ledger>(
    graph: &mut Graph,
    touched: &Row,
    rows: &mut Rows,
    problems: &mut Vec<NodeId>,
    steps: &mut Steps<L>,
)
    requires follows { (old : Numbered) × (edit : EditOf) × TakesAway edit × FollowsEdit old edit graph.old touched.now rows.old.slots.items rows.old.pool }
    requires capacity { HaveCapacity graph.old rows.old }
    requires touched { length touched.now ≡ length graph.old.nodes }
    requires listed { length rows.old.slots.items ≤ vec_capacity problems.old }
    ensures same { graph.new ≡ graph.old }
    ensures right { AreRight graph.old rows.new.slots.items rows.new.pool }
    ensures capacity { HaveCapacity graph.old rows.new }
    ensures listed { vec_capacity problems.new ≡ vec_capacity problems.old }
    ensures cost { (old : Numbered) (edit : EditOf) → TakesAway edit → FollowsEdit old edit graph.old touched.now rows.old.slots.items rows.old.pool
        → CountsAtMost (IsEditCost (topology_of old) edit (topology_of graph.old)) steps.old steps.new }
{
    // Numbers of nodes have 32 bits.
    let _capacity = graph.topology().node_capacity();
    take_back(graph.topology(), touched, rows, problems);
    scatter(problems);
    add_rows(graph, problems, rows, steps);
}

// Takes back the row of each problem that is gone, and of each whose row has a touched node, and lists these.
fn take_back(topology: &Topology, touched: &Row, rows: &mut Rows, problems: &mut Vec<NodeId>)
    requires taken { AreTaken rows.old.slots.items rows.old.pool }
    requires apart { OwnSlots rows.old.slots.items }
    requires width { rows.old.pool.width ≡ words_for (length touched.now) }
    requires few { length rows.old.slots.items ≤ 2 ^ 32 }
    requires listed { length rows.old.slots.items ≤ vec_capacity problems.old }
    ensures takes { TakesBack topology.now touched.now rows.old.slots.items rows.old.pool rows.new.slots.items rows.new.pool problems.new.items }
    ensures length { length rows.new.slots.items ≡ length rows.old.slots.items }
    ensures width { rows.new.pool.width ≡ rows.old.pool.width }
    ensures spare { length problems.new.items ≤ rows.new.pool.spare }
    ensures scratch { rows.new.scratch ≡ rows.old.scratch }
    ensures listed { vec_capacity problems.new ≡ vec_capacity problems.old }
{
    problems.clear();
    for place in 0..rows.slots.len() {
        take_back_one(topology, touched, NodeId(place as u32), rows, problems);
    }
}

// Takes back the row of one number, if it has a row that isn't clean.
fn take_back_one(
    topology: &Topology,
    touched: &Row,
    node: NodeId,
    rows: &mut Rows,
    problems: &mut Vec<NodeId>,
)
    requires within { node.0 < length rows.old.slots.items }
    requires taken { (slot : SlotOf) → HasSlot rows.old.slots.items node.0 slot → IsTaken rows.old.pool slot }
    requires width { rows.old.pool.width ≡ words_for (length touched.now) }
    requires listed { length problems.old.items < vec_capacity problems.old }
    ensures takes { TakesBackOne topology.now touched.now node rows.old.slots.items rows.old.pool rows.new.slots.items rows.new.pool problems.old.items problems.new.items }
    ensures length { length rows.new.slots.items ≡ length rows.old.slots.items }
    ensures width { rows.new.pool.width ≡ rows.old.pool.width }
    ensures spare { length problems.new.items + rows.old.pool.spare ≤ length problems.old.items + rows.new.pool.spare }
    ensures few { length problems.new.items ≤ length problems.old.items + 1 }
    ensures scratch { rows.new.scratch ≡ rows.old.scratch }
    ensures listed { vec_capacity problems.new ≡ vec_capacity problems.old }
{
    let Some(slot) = rows.slots[node.0 as usize] else {
        return;
    };
    let live = topology.is_live(node);
    if live && !and_any(rows.pool.row(slot), touched.words()) {
        return;
    }
    rows.slots[node.0 as usize] = None;
    rows.pool.give_back(slot);
    if live {
        problems.push_reserved(node);
    }
}
