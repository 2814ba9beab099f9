//! The edits of an inverse, made in turn.
ghost use Rattle.std.specs.Prelude.{◌≡◌, [], ◌∷◌, false, OnOk, OnErr};
ghost use Rattle.cb_network.specs.Edits.{IsAccepted};
ghost use Rattle.cb_network.specs.Laws.{HasGoodName};
ghost use Rattle.cb_network.specs.Regular.{IsRegular};
ghost use Rattle.cb_network.specs.Topology.{Topology};
ghost use Rattle.cb_topo.specs.Applied.{MayGrow};
ghost use Rattle.cb_topo.specs.Numbered.{topology_of};
ghost use Rattle.cb_inverse.specs.Inverses.{inverse_edits, rebuild_edits, rest_of};
ghost use Rattle.cb_undo.specs.Kept.{IsInverseOf, Undoes};
ghost use Rattle.cb_undo.specs.Made.{CanAllBeMade, MakesAll, MakesPrefix, CountsPart};

use crate::edited::{EditedTopology, apply};
use cb_inverse::{Inverse, Rebuild};
use cb_network::Edit;
use cb_steps::Steps;
use std::alloc::{AllocError, Global};
use std::sync::ledger::Ledger;

/// Makes all edits of an inverse. Where memory runs out, the topology is as before.
pub fn make_inverse<N: EditedTopology, L: Ledger>(
    alloc: Global,
    network: &mut N,
    inverse: &Inverse,
    steps: &mut Steps<L>,
) -> Result<(), AllocError>
    requires { (before : Topology) × IsInverseOf before (topology_of (N.numbered network.old)) inverse.now }
    ensures made { OnOk result (MakesAll (topology_of (N.numbered network.old)) (inverse_edits inverse.now) (topology_of (N.numbered network.new)) steps.old steps.new) }
    ensures same { OnErr result (topology_of (N.numbered network.new) ≡ topology_of (N.numbered network.old)) }
    ensures none { N.counts_steps ≡ false → steps.new ≡ steps.old }
    ensures counts { OnErr result (CountsPart (topology_of (N.numbered network.old)) (inverse_edits inverse.now) steps.old steps.new) }
{
    match inverse {
        Inverse::Reverse(edit) => make(alloc, network, edit, steps),
        Inverse::Rebuild(edits) => make_rebuild(alloc, network, edits, steps),
    }
}

// Makes a deleted instance again. Where memory runs out in the middle, it is deleted again.
fn make_rebuild<N: EditedTopology, L: Ledger>(
    alloc: Global,
    network: &mut N,
    edits: &Rebuild,
    steps: &mut Steps<L>,
) -> Result<(), AllocError>
    requires { (before : Topology) × Undoes before (topology_of (N.numbered network.old)) edits.now.again (rebuild_edits edits.now) }
    ensures made { OnOk result (MakesAll (topology_of (N.numbered network.old)) (rebuild_edits edits.now) (topology_of (N.numbered network.new)) steps.old steps.new) }
    ensures same { OnErr result (topology_of (N.numbered network.new) ≡ topology_of (N.numbered network.old)) }
    ensures none { N.counts_steps ≡ false → steps.new ≡ steps.old }
    ensures counts { OnErr result (CountsPart (topology_of (N.numbered network.old)) (rebuild_edits edits.now) steps.old steps.new) }
{
    make(alloc, network, &edits.create, steps)?;
    match make_rest(alloc, network, edits, steps) {
        Ok(()) => Ok(()),
        Err(error) => {
            make_again(alloc, network, &edits.again, steps);
            Err(error)
        }
    }
}

// Makes all edits but the Create.
fn make_rest<N: EditedTopology, L: Ledger>(
    alloc: Global,
    network: &mut N,
    edits: &Rebuild,
    steps: &mut Steps<L>,
) -> Result<(), AllocError>
    requires { CanAllBeMade (topology_of (N.numbered network.old)) (rest_of edits.now) }
    ensures made { OnOk result (MakesAll (topology_of (N.numbered network.old)) (rest_of edits.now) (topology_of (N.numbered network.new)) steps.old steps.new) }
    ensures part { OnErr result (MakesPrefix (topology_of (N.numbered network.old)) (rest_of edits.now) (topology_of (N.numbered network.new)) steps.old steps.new) }
    ensures none { N.counts_steps ≡ false → steps.new ≡ steps.old }
{
    make_each(alloc, network, &edits.links, steps)?;
    make_each(alloc, network, &edits.mutes, steps)
}

// Makes these edits in turn, as long as there is memory.
fn make_each<N: EditedTopology, L: Ledger>(
    alloc: Global,
    network: &mut N,
    edits: &[Edit],
    steps: &mut Steps<L>,
) -> Result<(), AllocError>
    requires { CanAllBeMade (topology_of (N.numbered network.old)) edits.now }
    ensures made { OnOk result (MakesAll (topology_of (N.numbered network.old)) edits.now (topology_of (N.numbered network.new)) steps.old steps.new) }
    ensures part { OnErr result (MakesPrefix (topology_of (N.numbered network.old)) edits.now (topology_of (N.numbered network.new)) steps.old steps.new) }
    ensures none { N.counts_steps ≡ false → steps.new ≡ steps.old }
{
    for edit in edits {
        make(alloc, network, edit, steps)?;
    }
    Ok(())
}

// Makes an accepted edit. Where memory runs out, nothing is changed.
fn make<N: EditedTopology, L: Ledger>(
    alloc: Global,
    network: &mut N,
    edit: &Edit,
    steps: &mut Steps<L>,
) -> Result<(), AllocError>
    requires regular { IsRegular (topology_of (N.numbered network.old)).model }
    requires name { HasGoodName edit.now }
    requires accepted { IsAccepted (topology_of (N.numbered network.old)) edit.now }
    ensures made { OnOk result (MakesAll (topology_of (N.numbered network.old)) (edit.now ∷ []) (topology_of (N.numbered network.new)) steps.old steps.new) }
    ensures same { OnErr result (network.new ≡ network.old) }
    ensures none { N.counts_steps ≡ false → steps.new ≡ steps.old }
    ensures steps { OnErr result (steps.new ≡ steps.old) }
{
    match apply(alloc, network, edit, steps) {
        Ok(()) => Ok(()),
        Err(_) => Err(AllocError),
    }
}

// Makes an accepted edit that needs no memory.
fn make_again<N: EditedTopology, L: Ledger>(
    alloc: Global,
    network: &mut N,
    edit: &Edit,
    steps: &mut Steps<L>,
)
    requires regular { IsRegular (topology_of (N.numbered network.old)).model }
    requires name { HasGoodName edit.now }
    requires accepted { IsAccepted (topology_of (N.numbered network.old)) edit.now }
    requires no_memory { ¬ MayGrow edit.now }
    ensures made { MakesAll (topology_of (N.numbered network.old)) (edit.now ∷ []) (topology_of (N.numbered network.new)) steps.old steps.new }
    ensures none { N.counts_steps ≡ false → steps.new ≡ steps.old }
{
    let _made = apply(alloc, network, edit, steps);
}
