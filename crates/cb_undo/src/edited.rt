//! What takes accepted edits: a topology, alone or with what is brought up to date at each edit.
ghost use Rattle.std.specs.Prelude.{◌≡◌, Bool, true, false, OnOk, OnErr, IfErr};
ghost use Rattle.cb_change.specs.Costs.{CountsAtMost, IsEditCost};
ghost use Rattle.cb_network.specs.Laws.{HasGoodName};
ghost use Rattle.cb_topo.specs.Accepted.{IsDecided};
ghost use Rattle.cb_topo.specs.Applied.{Applies, MayGrow, Prevents};
ghost use Rattle.cb_topo.specs.Numbered.{Numbered, topology_of};

use cb_cache::Cache;
use cb_network::Edit;
use cb_steps::Steps;
use cb_topo::{AcceptedEdit, EditFault, Topology};
use std::alloc::{AllocError, Global};
use std::sync::ledger::Ledger;

/// A topology that takes accepted edits, and what is brought up to date with it.
pub trait EditedTopology: Drop {
    // the topology, with the numbers of its instances and nodes
    ghost numbered: { Self → Numbered };

    // whether an edit counts steps
    ghost counts_steps: { Bool };

    /// The topology, to be read.
    fn topology(&self) -> &Topology
        ensures { result.now ≡ numbered self.now };

    /// Makes an edit that was decided for the topology, as it is. Where memory runs out, nothing is changed, and no step is counted.
    fn apply_accepted<L: Ledger>(
        &mut self,
        alloc: Global,
        accepted: &AcceptedEdit<'_>,
        steps: &mut Steps<L>,
    ) -> Result<(), AllocError>
        requires name { HasGoodName accepted.now.edit.now }
        requires decided { IsDecided (numbered self.old) accepted.now }
        ensures made { OnOk result (Applies (numbered self.old) accepted.now.edit.now (numbered self.new)) }
        ensures cost { OnOk result (CountsAtMost (IsEditCost (topology_of (numbered self.old)) accepted.now.edit.now (topology_of (numbered self.new))) steps.old steps.new) }
        ensures none { counts_steps ≡ false → steps.new ≡ steps.old }
        ensures grows { OnErr result (MayGrow accepted.now.edit.now) }
        ensures same { OnErr result (self.new ≡ self.old) }
        ensures steps { OnErr result (steps.new ≡ steps.old) };
}

// Every row is right again after an edit.
impl EditedTopology for Cache {
    ghost numbered = { λ cache. cache.graph };

    ghost counts_steps = { true };

    fn topology(&self) -> &Topology {
        self.graph().topology()
    }

    fn apply_accepted<L: Ledger>(
        &mut self,
        alloc: Global,
        accepted: &AcceptedEdit<'_>,
        steps: &mut Steps<L>,
    ) -> Result<(), AllocError> {
        Cache::apply_accepted(self, alloc, accepted, steps)
    }
}

// Nothing is searched.
impl EditedTopology for Topology {
    ghost numbered = { λ topology. topology };

    ghost counts_steps = { false };

    fn topology(&self) -> &Topology {
        self
    }

    fn apply_accepted<L: Ledger>(
        &mut self,
        alloc: Global,
        accepted: &AcceptedEdit<'_>,
        _steps: &mut Steps<L>,
    ) -> Result<(), AllocError> {
        // The topology is sound, so the edit has a cost.
        let _model = self.model();
        Topology::apply_accepted(self, alloc, accepted)
    }
}

/// Makes the edit. Where it is refused, or memory runs out, nothing is changed, and no step is counted.
pub(crate) fn apply<N: EditedTopology, L: Ledger>(
    alloc: Global,
    network: &mut N,
    edit: &Edit,
    steps: &mut Steps<L>,
) -> Result<(), EditFault>
    requires { HasGoodName edit.now }
    ensures made { OnOk result (Applies (N.numbered network.old) edit.now (N.numbered network.new)) }
    ensures cost { OnOk result (CountsAtMost (IsEditCost (topology_of (N.numbered network.old)) edit.now (topology_of (N.numbered network.new))) steps.old steps.new) }
    ensures none { N.counts_steps ≡ false → steps.new ≡ steps.old }
    ensures fault { IfErr result (Prevents (N.numbered network.old) edit.now) }
    ensures same { OnErr result (network.new ≡ network.old) }
    ensures steps { OnErr result (steps.new ≡ steps.old) }
{
    let accepted = network.topology().decide(edit)?;
    network.apply_accepted(alloc, &accepted, steps)?;
    Ok(())
}
