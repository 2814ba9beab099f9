//! The undo of the last edit.
ghost use Rattle.std.specs.Prelude.{◌≡◌, ◌<◌, ◌+◌, ℕ, false, drop, OnOk, OnErr, IfErr};
ghost use Rattle.std.specs.VecDeque.{deque_len, deque_capacity};
ghost use Rattle.cb_topo.specs.Numbered.{topology_of};
ghost use Rattle.cb_undo.specs.Kept.{AreInverses};
ghost use Rattle.cb_undo.specs.Undone.{MakesFirst, CountsFailure, LeavesNetwork, StopsUndo};

use crate::edited::EditedTopology;
use crate::fault::UndoFault;
use crate::make::make_inverse;
use cb_inverse::Inverse;
use cb_steps::Steps;
use std::alloc::Global;
use std::collections::VecDeque;
use std::sync::ledger::Ledger;

/// Makes the edits of the first inverse, which is dropped once all are made.
pub fn undo_last<N: EditedTopology, L: Ledger>(
    alloc: Global,
    network: &mut N,
    inverses: &mut VecDeque<Inverse>,
    steps: &mut Steps<L>,
) -> Result<(), UndoFault>
    requires { (depth : ℕ) × AreInverses (topology_of (N.numbered network.old)) depth inverses.old.items (deque_len inverses.old) (deque_capacity inverses.old) }
    ensures kept { (depth : ℕ) → AreInverses (topology_of (N.numbered network.old)) depth inverses.old.items (deque_len inverses.old) (deque_capacity inverses.old)
        → AreInverses (topology_of (N.numbered network.new)) depth inverses.new.items (deque_len inverses.new) (deque_capacity inverses.new) }
    ensures makes { OnOk result (MakesFirst (topology_of (N.numbered network.old)) inverses.old.items (topology_of (N.numbered network.new)) inverses.new.items steps.old steps.new) }
    ensures fault { IfErr result (StopsUndo inverses.old.items) }
    ensures same { IfErr result (LeavesNetwork (N.numbered network.old) (N.numbered network.new)) }
    ensures inverses { OnErr result (inverses.new.items ≡ inverses.old.items) }
    ensures none { N.counts_steps ≡ false → steps.new ≡ steps.old }
    ensures counts { OnErr result (CountsFailure (topology_of (N.numbered network.old)) inverses.old.items steps.old steps.new) }
{
    let Some(inverse) = inverses.front() else {
        return Err(UndoFault::Nothing);
    };
    make_inverse(alloc, network, inverse, steps)?;
    drop_first(inverses);
    Ok(())
}

/// Drops the first inverse, if there is one. It is a call of its own, so that an inverse ends in one place alone.
pub fn drop_first(inverses: &mut VecDeque<Inverse>)
    ensures rest { inverses.new.items ≡ drop 1 inverses.old.items }
    ensures count { 0 < deque_len inverses.old → deque_len inverses.new + 1 ≡ deque_len inverses.old }
    ensures capacity { deque_capacity inverses.new ≡ deque_capacity inverses.old }
{
    inverses.pop_front();
}
