//! Rows that grow in place once a link is made.
ghost use Rattle.std.specs.Prelude.{◌≡◌, ◌≤◌, ◌+◌, ℕ, length, OnOk, OnErr};
ghost use Rattle.cb_bits.specs.Bits.{words_for};
ghost use Rattle.cb_change.specs.Costs.{IsEditCost, CountsAtMost};
ghost use Rattle.cb_network.specs.declared.edit.Edit.{Edit as EditOf};
ghost use Rattle.cb_pool.specs.Pool.{IsTaken, SameOthers, slot_row};
ghost use Rattle.cb_network.specs.Laws.{HasGoodName};
ghost use Rattle.cb_topo.specs.Accepted.{IsDecided};
ghost use Rattle.cb_topo.specs.Applied.{Applies, MayGrow};
ghost use Rattle.cb_topo.specs.Numbered.{Numbered, topology_of};
ghost use Rattle.cb_graph.specs.Edges.{EdgeAt};
ghost use Rattle.cb_cache.specs.Kept.{AreRight, ScratchFits, IsCacheOf};
ghost use Rattle.cb_cache.specs.Extended.{MakesLink, IsAfterLink, IsSettledBut, HasLed, CountsExpanded};

use crate::edits::edit_graph;
use crate::fill::write_row;
use crate::rows::Store;
use crate::scratch::Scratch;
use crate::search::search_further;
use cb_bits::Row;
use cb_graph::Graph;
use cb_lanes::and_any;
use cb_pool::{RowPool, Slot};
use cb_steps::Steps;
use cb_topo::AcceptedEdit;
use std::alloc::{AllocError, Global};
use std::sync::ledger::Ledger;

/// Makes an edit that links two instances.
pub(crate) fn link<L: Ledger>(
    alloc: Global,
    graph: &mut Graph,
    accepted: &AcceptedEdit<'_>,
    store: &mut Store,
    steps: &mut Steps<L>,
) -> Result<(), AllocError>
    requires name { HasGoodName accepted.now.edit.now }
    requires decided { IsDecided graph.old accepted.now }
    requires link { MakesLink accepted.now.edit.now }
    requires kept { IsCacheOf graph.old store.old }
    ensures made { OnOk result (Applies graph.old accepted.now.edit.now graph.new) }
    ensures kept { IsCacheOf graph.new store.new }
    ensures cost { OnOk result (CountsAtMost (IsEditCost (topology_of graph.old) accepted.now.edit.now (topology_of graph.new)) steps.old steps.new) }
    ensures grows { OnErr result (MayGrow accepted.now.edit.now) }
    ensures graph { OnErr result (graph.new ≡ graph.old) }
    ensures rows { OnErr result (store.new.rows ≡ store.old.rows) }
    ensures steps { OnErr result (steps.new ≡ steps.old) }
{
    graph.touched(accepted, &mut store.agenda.touched);
    edit_graph(alloc, graph, accepted)?;
    extend_rows(
        graph,
        &store.agenda.touched,
        &store.rows.slots,
        &mut store.rows.pool,
        &mut store.rows.scratch,
        steps,
    );
    Ok(())
}

// Extends each row that has a touched node, in place. The rows were right before the link was made.
fn extend_rows<L: Ledger>(
    graph: &mut Graph,
    touched: &Row,
    slots: &[Option<Slot>],
    pool: &mut RowPool,
    scratch: &mut Scratch,
    steps: &mut Steps<L>,
)
    requires linked { (old : Numbered) × (edit : EditOf) × IsAfterLink old edit graph.old touched.now slots.now pool.old }
    requires width { pool.old.width ≡ words_for (length graph.old.nodes) }
    requires capacity { ScratchFits graph.old scratch.old }
    ensures same { graph.new ≡ graph.old }
    ensures right { AreRight graph.old slots.now pool.new }
    ensures width { pool.new.width ≡ pool.old.width }
    ensures taken { pool.new.taken ≡ pool.old.taken }
    ensures spare { pool.new.spare ≡ pool.old.spare }
    ensures capacity { ScratchFits graph.old scratch.new }
    ensures cost { (old : Numbered) (edit : EditOf) → IsAfterLink old edit graph.old touched.now slots.now pool.old
        → CountsAtMost (IsEditCost (topology_of old) edit (topology_of graph.old)) steps.old steps.new }
{
    for place in 0..slots.len() {
        if let Some(slot) = slots[place] {
            extend_row(graph, touched, slot, pool, scratch, steps);
        }
    }
}

// Extends a row if it has a touched node: then it has all that its nodes lead to.
fn extend_row<L: Ledger>(
    graph: &mut Graph,
    touched: &Row,
    slot: Slot,
    pool: &mut RowPool,
    scratch: &mut Scratch,
    steps: &mut Steps<L>,
)
    requires taken { IsTaken pool.old slot }
    requires width { pool.old.width ≡ words_for (length graph.old.nodes) }
    requires touched { length touched.now ≡ length graph.old.nodes }
    requires settled { IsSettledBut (EdgeAt graph.old) touched.now (slot_row pool.old slot) }
    requires capacity { ScratchFits graph.old scratch.old }
    ensures same { graph.new ≡ graph.old }
    ensures capacity { ScratchFits graph.old scratch.new }
    ensures width { pool.new.width ≡ pool.old.width }
    ensures taken { pool.new.taken ≡ pool.old.taken }
    ensures spare { pool.new.spare ≡ pool.old.spare }
    ensures others { SameOthers pool.old pool.new slot }
    ensures row { HasLed (EdgeAt graph.old) pool.new slot (slot_row pool.old slot) }
    ensures cost { CountsExpanded (EdgeAt graph.old) touched.now (slot_row pool.old slot) (length graph.old.nodes) steps.old steps.new }
{
    if !and_any(pool.row(slot), touched.words()) {
        return;
    }
    search_further(graph, pool, slot, touched, scratch, steps);
    write_row(pool, slot, scratch.found.words(), &scratch.joined);
}
