//! Edits of the graph under the rows.
ghost use Rattle.std.specs.Prelude.{◌≡◌, ℕ, OnOk, OnErr};
ghost use Rattle.cb_change.specs.Costs.{IsEditCost, CountsAtMost};
ghost use Rattle.cb_network.specs.Laws.{HasGoodName};
ghost use Rattle.cb_topo.specs.Accepted.{IsDecided};
ghost use Rattle.cb_topo.specs.Applied.{Applies, MayGrow};
ghost use Rattle.cb_topo.specs.Numbered.{topology_of};
ghost use Rattle.cb_cache.specs.Kept.{IsCacheOf};
ghost use Rattle.cb_cache.specs.Laws.{IsEdited};
ghost use Rattle.cb_cache.specs.Marks.{ChangesMarks};

use crate::rows::Store;
use cb_graph::Graph;
use cb_topo::AcceptedEdit;
use std::alloc::{AllocError, Global};

/// Makes the edit. Where memory runs out, nothing is changed.
pub(crate) fn edit_graph(
    alloc: Global,
    graph: &mut Graph,
    accepted: &AcceptedEdit<'_>,
) -> Result<(), AllocError>
    requires name { HasGoodName accepted.now.edit.now }
    requires decided { IsDecided graph.old accepted.now }
    ensures made { OnOk result (IsEdited graph.old accepted.now.edit.now graph.new) }
    ensures grows { OnErr result (MayGrow accepted.now.edit.now) }
    ensures kept { OnErr result (graph.new ≡ graph.old) }
{
    // Each topology is whole and sound, the one before and the one after.
    let _before = graph.topology().model();
    let made = graph.apply_accepted(alloc, accepted);
    let _after = graph.topology().model();
    made
}

/// Makes an edit that mutes or unmutes a symptom: it touches no row.
pub(crate) fn mark(
    alloc: Global,
    graph: &mut Graph,
    accepted: &AcceptedEdit<'_>,
    store: &Store,
) -> Result<(), AllocError>
    requires name { HasGoodName accepted.now.edit.now }
    requires decided { IsDecided graph.old accepted.now }
    requires marks { ChangesMarks accepted.now.edit.now }
    requires kept { IsCacheOf graph.old store.now }
    ensures made { OnOk result (Applies graph.old accepted.now.edit.now graph.new) }
    ensures kept { IsCacheOf graph.new store.now }
    ensures cost { (steps : ℕ) → OnOk result (CountsAtMost (IsEditCost (topology_of graph.old) accepted.now.edit.now (topology_of graph.new)) steps steps) }
    ensures grows { OnErr result (MayGrow accepted.now.edit.now) }
    ensures graph { OnErr result (graph.new ≡ graph.old) }
{
    edit_graph(alloc, graph, accepted)
}
