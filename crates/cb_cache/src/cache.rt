//! The cache.
ghost use Rattle.std.specs.Prelude.{◌≡◌, ◌≤◌, ◌*◌, ℕ, length, IfOk, IfErr, OnOk, OnErr};
ghost use Rattle.cb_model.specs.declared.node.NodeName.{NodeName as Name};
ghost use Rattle.cb_bits.specs.Bits.{words_for};
ghost use Rattle.cb_change.specs.Costs.{IsOpenCost, IsEditCost, CountsAtMost};
ghost use Rattle.cb_pool.specs.declared.slot.Slot.{Slot as SlotOf};
ghost use Rattle.cb_pool.specs.Pool.{IsTaken, SlotHasRow};
ghost use Rattle.cb_network.specs.Laws.{HasGoodName};
ghost use Rattle.cb_topo.specs.Accepted.{IsDecided};
ghost use Rattle.cb_topo.specs.Applied.{Applies, MayGrow, Prevents};
ghost use Rattle.cb_topo.specs.Numbered.{topology_of, IsNodeNamed};
ghost use Rattle.cb_graph.specs.Edges.{number};
ghost use Rattle.cb_cache.specs.Cached.{IsReachedRow, IsCausedRow, but_spare};
ghost use Rattle.cb_cache.specs.Numbers.{IsProblemNumber};
ghost use Rattle.cb_cache.specs.Reached.{HasSlot};
ghost use Rattle.cb_cache.specs.Rows.{HaveRows};

use crate::create::create;
use crate::cut::cut;
use crate::edits::mark;
use crate::link::link;
use crate::rows::{Rows, Store, search_all};
use cb_graph::Graph;
use cb_nodes::NodeId;
use cb_pool::{RowPool, Slot};
use cb_steps::Steps;
use cb_topo::{AcceptedEdit, Edit, EditFault};
use std::alloc::{AllocError, Global};
use std::sync::ledger::Ledger;

/// A graph with the rows of its problems.
#[derive(Drop)]
pub struct Cache {
    graph: Graph,
    store: Store,
}

impl std::marker::Model for Cache {
    ghost use Rattle.cb_cache.specs.Cached.{Cached, but_spare};
    ghost use Rattle.cb_cache.specs.Encoding.{cached_encoding};

    ghost Value = { Cached };

    ghost coded = { cached_encoding };

    ghost view = { λ c. record { graph = c.graph; slots = c.store.rows.slots.items; pool = but_spare c.store.rows.pool } };

    ghost use Rattle.cb_cache.specs.Kept.{IsCacheOf};

    ghost invariant = { λ c. IsCacheOf c.graph c.store };
}

impl Cache {
    /// The graph with the rows of its problems, each of which is searched from once. Where memory runs out, the graph is
    /// dropped, and no step is counted.
    pub fn open<L: Ledger>(
        alloc: Global,
        mut graph: Graph,
        steps: &mut Steps<L>,
    ) -> Result<Cache, AllocError>
        ensures graph { IfOk result (λ cache. cache.graph ≡ graph) }
        ensures cost { OnOk result (CountsAtMost (IsOpenCost (topology_of graph)) steps.old steps.new) }
        ensures steps { OnErr result (steps.new ≡ steps.old) }
    {
        let store = search_all(alloc, &mut graph, steps)?;
        Ok(Cache { graph, store })
    }

    /// The graph, with the topology.
    pub fn graph(&self) -> &Graph
        ensures { result.now ≡ self.now.graph }
    {
        &self.graph
    }

    /// The rows.
    pub fn pool(&self) -> &RowPool
        ensures value { but_spare result.now ≡ self.now.pool }
        ensures same_width { result.now.width ≡ self.now.pool.width }
        ensures width { self.now.pool.width ≡ words_for (length self.now.graph.nodes) }
        ensures owned { (slot : SlotOf) → IsTaken result.now slot → (problem : ℕ) × HasSlot self.now.slots problem slot × IsProblemNumber self.now.graph (number problem) }
    {
        &self.store.rows.pool
    }

    /// The rows of all problems, as such.
    pub fn rows(&self) -> &Rows
        ensures { HaveRows self.now.graph (IsProblemNumber self.now.graph) result.now }
    {
        &self.store.rows
    }

    /// The slot of a problem's row.
    pub fn slot(&self, problem: NodeId) -> Slot
        requires { IsProblemNumber self.now.graph problem }
        ensures slot { HasSlot self.now.slots problem.0 result }
        ensures taken { IsTaken self.now.pool result }
        ensures own { (other : ℕ) → HasSlot self.now.slots other result → other ≡ problem.0 }
    {
        self.store.rows.slots[problem.0 as usize].unwrap()
    }

    /// The row of a problem.
    pub fn row(&self, problem: NodeId) -> &[u64]
        requires { IsProblemNumber self.now.graph problem }
        ensures reached { IsReachedRow self.now.graph problem.0 result.now }
        ensures caused { (name : Name) → IsNodeNamed self.now.graph problem name → IsCausedRow self.now.graph name result.now }
        ensures slot { (slot : SlotOf) → HasSlot self.now.slots problem.0 slot → SlotHasRow self.now.pool slot result.now }
        ensures width { length result.now ≡ self.now.pool.width }
        ensures bits { length self.now.graph.nodes ≤ 64 * length result.now }
    {
        self.store.rows.pool.row(self.slot(problem))
    }

    /// Makes the edit: the topology is the one after it, and every row is right again. Where the edit is refused, or memory runs out,
    /// nothing is changed, and no step is counted.
    pub fn apply<L: Ledger>(
        &mut self,
        alloc: Global,
        edit: &Edit,
        steps: &mut Steps<L>,
    ) -> Result<(), EditFault>
        requires { HasGoodName edit.now }
        ensures made { OnOk result (Applies self.old.graph edit.now self.new.graph) }
        ensures cost { OnOk result (CountsAtMost (IsEditCost (topology_of self.old.graph) edit.now (topology_of self.new.graph)) steps.old steps.new) }
        ensures fault { IfErr result (Prevents self.old.graph edit.now) }
        ensures kept { OnErr result (self.new ≡ self.old) }
        ensures steps { OnErr result (steps.new ≡ steps.old) }
    {
        let accepted = self.graph.topology().decide(edit)?;
        self.apply_accepted(alloc, &accepted, steps)?;
        Ok(())
    }

    /// Makes an edit that was decided for the topology, as it is: every row is right again. Where memory runs out, nothing is changed, and
    /// no step is counted.
    pub fn apply_accepted<L: Ledger>(
        &mut self,
        alloc: Global,
        accepted: &AcceptedEdit<'_>,
        steps: &mut Steps<L>,
    ) -> Result<(), AllocError>
        requires name { HasGoodName accepted.now.edit.now }
        requires decided { IsDecided self.old.graph accepted.now }
        ensures made { OnOk result (Applies self.old.graph accepted.now.edit.now self.new.graph) }
        ensures cost { OnOk result (CountsAtMost (IsEditCost (topology_of self.old.graph) accepted.now.edit.now (topology_of self.new.graph)) steps.old steps.new) }
        ensures grows { OnErr result (MayGrow accepted.now.edit.now) }
        ensures kept { OnErr result (self.new ≡ self.old) }
        ensures steps { OnErr result (steps.new ≡ steps.old) }
    {
        let graph = &mut self.graph;
        match accepted.edit {
            Edit::Create { .. } => create(alloc, graph, accepted, &mut self.store, steps),
            Edit::Link { .. } => link(alloc, graph, accepted, &mut self.store, steps),
            Edit::Delete { .. } | Edit::Unlink { .. } => {
                cut(alloc, graph, accepted, &mut self.store, steps)
            }
            Edit::Mute { .. } | Edit::Unmute { .. } => mark(alloc, graph, accepted, &self.store),
        }
    }

    /// The graph alone.
    pub fn into_graph(self) -> Graph
        ensures { result ≡ self.graph }
    {
        let Cache { graph, .. } = self;
        graph
    }
}
