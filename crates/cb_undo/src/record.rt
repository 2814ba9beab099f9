//! An edit, and the record of its inverse.
ghost use Rattle.std.specs.Prelude.{◌≡◌, false, OnOk, OnErr, IfErr};
ghost use Rattle.std.specs.VecDeque.{deque_len, deque_capacity};
ghost use Rattle.cb_change.specs.Costs.{CountsAtMost, IsEditCost};
ghost use Rattle.cb_network.specs.Laws.{HasGoodName};
ghost use Rattle.cb_topo.specs.Accepted.{IsDecided};
ghost use Rattle.cb_topo.specs.Applied.{Applies};
ghost use Rattle.cb_topo.specs.Numbered.{topology_of};
ghost use Rattle.cb_undo.specs.Kept.{AreInverses};
ghost use Rattle.cb_undo.specs.Recorded.{KeepsInverse, StopsEdit};

use crate::edited::EditedTopology;
use crate::undo::drop_first;
use cb_inverse::{Inverse, inverse_of};
use cb_network::Edit;
use cb_steps::Steps;
use cb_topo::{AcceptedEdit, EditFault};
use std::alloc::{AllocError, Global};
use std::collections::VecDeque;
use std::sync::ledger::Ledger;

/// Makes the edit, and keeps its inverse before the others, at most `depth` together.
pub fn record<N: EditedTopology, L: Ledger>(
    alloc: Global,
    network: &mut N,
    inverses: &mut VecDeque<Inverse>,
    depth: usize,
    edit: &Edit,
    steps: &mut Steps<L>,
) -> Result<(), EditFault>
    requires name { HasGoodName edit.now }
    requires kept { AreInverses (topology_of (N.numbered network.old)) depth inverses.old.items (deque_len inverses.old) (deque_capacity inverses.old) }
    ensures kept { AreInverses (topology_of (N.numbered network.new)) depth inverses.new.items (deque_len inverses.new) (deque_capacity inverses.new) }
    ensures made { OnOk result (Applies (N.numbered network.old) edit.now (N.numbered network.new)) }
    ensures keeps { OnOk result (KeepsInverse (topology_of (N.numbered network.old)) edit.now depth inverses.old.items inverses.new.items) }
    ensures cost { OnOk result (CountsAtMost (IsEditCost (topology_of (N.numbered network.old)) edit.now (topology_of (N.numbered network.new))) steps.old steps.new) }
    ensures none { N.counts_steps ≡ false → steps.new ≡ steps.old }
    ensures fault { IfErr result (StopsEdit (topology_of (N.numbered network.old)) edit.now) }
    ensures same { OnErr result (network.new ≡ network.old) }
    ensures inverses { OnErr result (inverses.new.items ≡ inverses.old.items) }
    ensures steps { OnErr result (steps.new ≡ steps.old) }
{
    let accepted = network.topology().decide(edit)?;
    record_accepted(alloc, network, inverses, depth, &accepted, steps)?;
    Ok(())
}

// Records an edit that was decided for the topology. The inverse is made before the edit, and dropped again where the edit fails.
fn record_accepted<N: EditedTopology, L: Ledger>(
    alloc: Global,
    network: &mut N,
    inverses: &mut VecDeque<Inverse>,
    depth: usize,
    accepted: &AcceptedEdit<'_>,
    steps: &mut Steps<L>,
) -> Result<(), AllocError>
    requires name { HasGoodName accepted.now.edit.now }
    requires decided { IsDecided (N.numbered network.old) accepted.now }
    requires kept { AreInverses (topology_of (N.numbered network.old)) depth inverses.old.items (deque_len inverses.old) (deque_capacity inverses.old) }
    ensures kept { AreInverses (topology_of (N.numbered network.new)) depth inverses.new.items (deque_len inverses.new) (deque_capacity inverses.new) }
    ensures made { OnOk result (Applies (N.numbered network.old) accepted.now.edit.now (N.numbered network.new)) }
    ensures keeps { OnOk result (KeepsInverse (topology_of (N.numbered network.old)) accepted.now.edit.now depth inverses.old.items inverses.new.items) }
    ensures cost { OnOk result (CountsAtMost (IsEditCost (topology_of (N.numbered network.old)) accepted.now.edit.now (topology_of (N.numbered network.new))) steps.old steps.new) }
    ensures none { N.counts_steps ≡ false → steps.new ≡ steps.old }
    ensures same { OnErr result (network.new ≡ network.old) }
    ensures inverses { OnErr result (inverses.new.items ≡ inverses.old.items) }
    ensures steps { OnErr result (steps.new ≡ steps.old) }
{
    let topology = network.topology();
    // The topology is sound.
    let _model = topology.model();
    let inverse = inverse_of(alloc, topology, accepted)?;
    inverses.push_front_reserved(inverse);
    match network.apply_accepted(alloc, accepted, steps) {
        Ok(()) => {
            inverses.truncate(depth);
            Ok(())
        }
        Err(error) => {
            drop_first(inverses);
            Err(error)
        }
    }
}
