//! Rows that are searched for and put into the pool.
ghost use Rattle.std.specs.Prelude.{◌≡◌, ◌<◌, ◌≤◌, length, bit_or};
ghost use Rattle.std.specs.List.{All};
ghost use Rattle.std.specs.Simd.Lanes.{zip2};
ghost use Rattle.cb_topo.specs.Numbered.{IsLiveNode, IsWhole};
ghost use Rattle.cb_pool.specs.Pool.{IsTaken, with_row};
ghost use Rattle.cb_cache.specs.Cached.{AreRows};
ghost use Rattle.cb_cache.specs.Kept.{HaveCapacity, OwnSlots};
ghost use Rattle.cb_cache.specs.Filled.{AddsRow, AddsRows, HaveNoSlots, CostsAtMost, CostAtMost};
ghost use Rattle.cb_cache.specs.Numbers.{AreOnce};

use crate::rows::Rows;
use crate::search::search;
use cb_graph::Graph;
use cb_lanes::or_into;
use cb_nodes::NodeId;
use cb_pool::{RowPool, Slot};
use cb_steps::Steps;
use std::sync::ledger::Ledger;

/// Searches from each of these nodes, none of which has a row yet, and gives it one. The rows that are there are taken over where a search
/// meets their nodes.
pub(crate) fn add_rows<L: Ledger>(
    graph: &mut Graph,
    nodes: &[NodeId],
    rows: &mut Rows,
    steps: &mut Steps<L>,
)
    requires live { All (IsLiveNode graph.old) nodes.now }
    requires whole { IsWhole graph.old }
    requires once { AreOnce nodes.now }
    requires none { HaveNoSlots rows.old.slots.items nodes.now }
    requires rows { AreRows graph.old rows.old.slots.items rows.old.pool }
    requires apart { OwnSlots rows.old.slots.items }
    requires capacity { HaveCapacity graph.old rows.old }
    requires spare { length nodes.now ≤ rows.old.pool.spare }
    ensures same { graph.new ≡ graph.old }
    ensures capacity { HaveCapacity graph.old rows.new }
    ensures rows { AddsRows graph.old nodes.now rows.old.slots.items rows.new.slots.items rows.old.pool rows.new.pool }
    ensures cost { CostAtMost graph.old nodes.now steps.old steps.new }
{
    for node in nodes {
        add_row(graph, *node, rows, steps);
    }
}

// Searches from the node, and gives it a row of all that it leads to.
fn add_row<L: Ledger>(graph: &mut Graph, node: NodeId, rows: &mut Rows, steps: &mut Steps<L>)
    requires live { IsLiveNode graph.old node }
    requires whole { IsWhole graph.old }
    requires rows { AreRows graph.old rows.old.slots.items rows.old.pool }
    requires capacity { HaveCapacity graph.old rows.old }
    requires spare { 0 < rows.old.pool.spare }
    ensures same { graph.new ≡ graph.old }
    ensures capacity { HaveCapacity graph.old rows.new }
    ensures adds { AddsRow graph.old node.0 rows.old.slots.items rows.new.slots.items rows.old.pool rows.new.pool }
    ensures cost { CostsAtMost graph.old node steps.old steps.new }
{
    search(
        graph,
        node.0 as usize,
        &rows.slots,
        &rows.pool,
        &mut rows.scratch,
        steps,
    );
    let slot = rows.pool.take();
    write_row(
        &mut rows.pool,
        slot,
        rows.scratch.found.words(),
        &rows.scratch.joined,
    );
    rows.slots[node.0 as usize] = Some(slot);
}

/// Writes both rows, united, into a slot.
pub(crate) fn write_row(pool: &mut RowPool, slot: Slot, row: &[u64], other: &[u64])
    requires taken { IsTaken pool.old slot }
    requires row { length row.now ≡ pool.old.width }
    requires other { length other.now ≡ pool.old.width }
    ensures { pool.new ≡ with_row pool.old slot (zip2 bit_or row.now other.now) }
{
    unite(pool.row_mut(slot), row, other);
}

// Makes the words the union of both rows.
fn unite(words: &mut [u64], row: &[u64], other: &[u64])
    requires row { length row.now ≡ length words.old }
    requires other { length other.now ≡ length words.old }
    ensures { words.new ≡ zip2 bit_or row.now other.now }
{
    words.copy_from_slice(row);
    or_into(words, other);
}
