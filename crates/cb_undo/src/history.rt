//! A topology whose last edits can be undone.
ghost use Rattle.std.specs.Prelude.{◌≡◌, ◌≤◌, false, length, IfOk, IfErr, OnOk, OnErr};
ghost use Rattle.cb_change.specs.Costs.{CountsAtMost, IsEditCost};
ghost use Rattle.cb_network.specs.Laws.{HasGoodName};
ghost use Rattle.cb_history.specs.Histories.{History as Past, new_history, edited, undone};
ghost use Rattle.cb_history.specs.Records.{StandFor};
ghost use Rattle.cb_topo.specs.Applied.{Applies};
ghost use Rattle.cb_topo.specs.Numbered.{topology_of};
ghost use Rattle.cb_undo.specs.Recorded.{StopsEdit};
ghost use Rattle.cb_undo.specs.Undone.{CountsUndo, CountsFailedUndo, LeavesNetwork, StopsUndo};

use crate::edited::EditedTopology;
use crate::fault::UndoFault;
use crate::record::record;
use crate::undo::undo_last;
use cb_inverse::Inverse;
use cb_network::Edit;
use cb_steps::Steps;
use cb_topo::EditFault;
use std::alloc::{AllocError, Global};
use std::collections::VecDeque;
use std::marker::Model;
use std::sync::ledger::Ledger;

/// A network, and the inverses of its last edits.
#[derive(Drop)]
pub struct History<N: EditedTopology> {
    network: N,
    depth: usize,
    // That of the last edit first. There is capacity for one more than the depth.
    inverses: VecDeque<Inverse>,
}

impl<N: EditedTopology> Model for History<N> {
    ghost use Rattle.std.specs.VecDeque.{deque_len, deque_capacity};
    ghost use Rattle.cb_topo.specs.Numbered.{topology_of};
    ghost use Rattle.cb_undo.specs.Encoding.{undoable_encoding};
    ghost use Rattle.cb_undo.specs.Kept.{AreInverses};
    ghost use Rattle.cb_undo.specs.Undoable.{Undoable, undoable_of};

    ghost Value = { Undoable };

    ghost coded = { undoable_encoding };

    ghost view = { λ h. undoable_of (N.numbered h.network) h.depth h.inverses.items };

    ghost invariant = { λ h. AreInverses (topology_of (N.numbered h.network)) h.depth h.inverses.items (deque_len h.inverses) (deque_capacity h.inverses) };
}

impl<N: EditedTopology> History<N> {
    /// The network's topology, with no edit to undo. Memory for the list of `depth` inverses is taken here. Where it runs out, the network
    /// is dropped.
    pub fn new(alloc: Global, network: N, depth: usize) -> Result<History<N>, AllocError>
        requires some { 1 ≤ depth }
        requires few { depth ≤ 1024 }
        ensures depth { IfOk result (λ h. h.depth ≡ depth) }
        ensures network { IfOk result (λ h. h.network ≡ N.numbered network) }
        ensures stands { IfOk result (λ h. StandFor (topology_of h.network) h.records (new_history (topology_of (N.numbered network)))) }
    {
        let inverses = VecDeque::with_capacity(alloc, depth + 1)?;
        Ok(History {
            network,
            depth,
            inverses,
        })
    }

    /// The network, to be read. What it keeps up to date is right by its own invariant: the rows of a cache are those of this topology.
    pub fn network(&self) -> &N
        ensures { N.numbered result.now ≡ self.now.network }
    {
        &self.network
    }

    /// The network alone.
    pub fn into_network(self) -> N
        ensures { N.numbered result ≡ self.network }
    {
        let History { network, .. } = self;
        network
    }

    /// How many edits can be undone.
    pub fn kept(&self) -> usize
        ensures { result ≡ length self.now.records }
    {
        self.inverses.len()
    }

    /// Makes the edit, which can be undone then. Its inverse is made first, so memory may run out for every kind of edit. Where the edit is
    /// refused, or memory runs out, nothing is changed, and no step is counted.
    pub fn edit<L: Ledger>(
        &mut self,
        alloc: Global,
        edit: &Edit,
        steps: &mut Steps<L>,
    ) -> Result<(), EditFault>
        requires { HasGoodName edit.now }
        ensures depth { self.new.depth ≡ self.old.depth }
        ensures made { OnOk result (Applies self.old.network edit.now self.new.network) }
        ensures stands { OnOk result ((h : Past) → StandFor (topology_of self.old.network) self.old.records h → StandFor (topology_of self.new.network) self.new.records (edited self.old.depth h (topology_of self.new.network))) }
        ensures fault { IfErr result (StopsEdit (topology_of self.old.network) edit.now) }
        ensures same { OnErr result (self.new ≡ self.old) }
        ensures cost { OnOk result (CountsAtMost (IsEditCost (topology_of self.old.network) edit.now (topology_of self.new.network)) steps.old steps.new) }
        ensures none { N.counts_steps ≡ false → steps.new ≡ steps.old }
        ensures steps { OnErr result (steps.new ≡ steps.old) }
    {
        record(
            alloc,
            &mut self.network,
            &mut self.inverses,
            self.depth,
            edit,
            steps,
        )
    }

    /// Undoes the last edit. Where memory runs out in the middle of the undo of a Delete, the instance is deleted again: these steps are
    /// counted as well, and there may be more numbers than before.
    pub fn undo<L: Ledger>(&mut self, alloc: Global, steps: &mut Steps<L>) -> Result<(), UndoFault>
        ensures depth { self.new.depth ≡ self.old.depth }
        ensures stands { OnOk result ((h : Past) → StandFor (topology_of self.old.network) self.old.records h → StandFor (topology_of self.new.network) self.new.records (undone h)) }
        ensures fault { IfErr result (StopsUndo self.old.records) }
        ensures same { IfErr result (LeavesNetwork self.old.network self.new.network) }
        ensures records { OnErr result (self.new.records ≡ self.old.records) }
        ensures cost { OnOk result (CountsUndo (topology_of self.old.network) self.old.records steps.old steps.new) }
        ensures none { N.counts_steps ≡ false → steps.new ≡ steps.old }
        ensures failed { OnErr result (CountsFailedUndo (topology_of self.old.network) self.old.records steps.old steps.new) }
    {
        undo_last(alloc, &mut self.network, &mut self.inverses, steps)
    }
}
