//! A certificate for two groups that are close.
ghost use Rattle.std.specs.Prelude.{◌≡◌, ◌<◌, ◌+◌, ◌↔◌, length, IfOk, IsTrue};
ghost use Rattle.cb_cert.specs.declared.certificate.Side.TheVariants.{Root};
ghost use Rattle.cb_validity.specs.Canonical.{side_spans};
ghost use Rattle.cb_validity.specs.Verdicts.{entries_of};
ghost use Rattle.cb_checker.specs.Known.{verdict_of};
ghost use Rattle.cb_checker.specs.Verdicts.{AreSidesOf};
ghost use Rattle.cb_checker.specs.Thin.{IsAsClaimed, IsBegun, IsThinShown, JudgesThinOver, ShowsThinOver};

use crate::book::known;
use crate::names::{root_name, side_name};
use crate::pair::read_sides;
use crate::sides::Sides;
use cb_cert::{Side, Span};
use cb_graph::Graph;
use cb_model::{GroupName, NodeName};
use cb_steps::Steps;
use cb_validity::{Accepted, Rejected};
use std::alloc::{AllocError, Global};
use std::sync::ledger::Ledger;

/// What a thin certificate claims: how far its two groups are apart, and the greater distance that was wanted.
#[derive(Clone, Copy, PartialEq, Eq)]
pub struct Closeness {
    pub wanted: u32,
    pub distance: u32,
}

/// Checks a thin certificate over the columns of the topology.
pub(crate) fn check_thin<L: Ledger>(
    alloc: Global,
    graph: &mut Graph,
    sides: &Sides,
    nodes: &[NodeName],
    first: &Side,
    second: &Span,
    claim: Closeness,
    steps: &mut Steps<L>,
) -> Result<Accepted, Rejected>
    requires sides { AreSidesOf graph.old sides.now }
    requires few { length nodes.now + entries_of (side_spans first.now) + length second.now.entries + 1 < 4294967296 }
    ensures same { graph.new ≡ graph.old }
    ensures judges { JudgesThinOver graph.old nodes.now first.now second.now claim.wanted claim.distance (verdict_of result) }
    ensures shows { IfOk result (ShowsThinOver graph.old nodes.now first.now second.now claim.wanted claim.distance) }
{
    let ids = known(alloc, graph.topology(), nodes)?;
    let codes = read_sides(alloc, graph, &ids, &sides.columns, first, second, steps)?;
    let far = codes.first.distance(&codes.second) as u32;
    if !holds(claim, far) {
        return Err(Rejected::NotThin { distance: far });
    }
    let Ok(shown) = shown(alloc, nodes, first, second, claim) else {
        return Err(Rejected::NoMemory);
    };
    Ok(shown)
}

// Whether two groups at a distance are as close as is claimed.
fn holds(claim: Closeness, far: u32) -> bool
    ensures { IsTrue result ↔ IsAsClaimed claim far }
{
    far == claim.distance && 0 < far && far < claim.wanted
}

// What a thin certificate shows.
fn shown(
    alloc: Global,
    nodes: &[NodeName],
    first: &Side,
    second: &Span,
    claim: Closeness,
) -> Result<Accepted, AllocError>
    requires first { IsBegun nodes.now first.now }
    requires second { IsBegun nodes.now (Root second.now) }
    ensures { IfOk result (IsThinShown nodes.now first.now second.now claim) }
{
    let first = side_name(alloc, nodes, first)?;
    let second = GroupName::Least(root_name(alloc, nodes, second)?);
    Ok(Accepted::Thin {
        wanted: claim.wanted,
        first,
        second,
        distance: claim.distance,
    })
}
