//! A certificate for a book.
ghost use Rattle.std.specs.Prelude.{◌≡◌, ◌<◌, ◌+◌, length, IfOk, OnOk};
ghost use Rattle.cb_validity.specs.Checks.{IsGoodNode};
ghost use Rattle.cb_validity.specs.Verdicts.{entries_of};
ghost use Rattle.cb_topo.specs.Numbered.{topology_of, AreNamed};
ghost use Rattle.cb_checker.specs.Firsts.{AreAll, JudgesNodes};
ghost use Rattle.cb_checker.specs.Known.{verdict_of};
ghost use Rattle.cb_checker.specs.Verdicts.{AreSidesOf, IsGrouped, JudgesGroupsOver, JudgesBookOver, ShowsBookOver, JudgesCappedOver, ShowsCappedOver};

use crate::claim::judge_groups;
use crate::columns::check_columns;
use crate::known::ids_of;
use crate::nodes::check_nodes;
use crate::sides::Sides;
use crate::spans::{check_count, check_spans};
use crate::stated::judge_radii;
use cb_cert::Span;
use cb_codes::Groups;
use cb_graph::Graph;
use cb_model::{List, NodeName, Wish};
use cb_nodes::NodeId;
use cb_steps::Steps;
use cb_topo::Topology;
use cb_validity::{Accepted, Rejected};
use std::alloc::Global;
use std::sync::ledger::Ledger;

/// Checks a book over the problems and the columns of the topology.
pub(crate) fn check_book<L: Ledger>(
    alloc: Global,
    graph: &mut Graph,
    sides: &Sides,
    nodes: &[NodeName],
    numbers: &[u32],
    spans: &List<Span>,
    distance: u32,
    steps: &mut Steps<L>,
) -> Result<Accepted, Rejected>
    requires sides { AreSidesOf graph.old sides.now }
    requires some { 0 < distance }
    requires few { length nodes.now + length numbers.now + length spans.now + entries_of spans.now + 1 < 4294967296 }
    ensures same { graph.new ≡ graph.old }
    ensures judges { JudgesBookOver graph.old sides.now.problems nodes.now numbers.now spans.now distance (verdict_of result) }
    ensures shows { IfOk result (ShowsBookOver graph.old nodes.now numbers.now spans.now distance) }
{
    let wish = Wish::Plain(distance);
    let groups = check_groups(alloc, graph, sides, nodes, numbers, spans, wish, steps)?;
    Ok(Accepted::Book {
        distance,
        radius: (distance - 1) / 2,
        groups: groups.len() as u32,
        columns: numbers.len() as u32,
    })
}

/// Checks a book for a cap, its radii last.
pub(crate) fn check_capped<L: Ledger>(
    alloc: Global,
    graph: &mut Graph,
    sides: &Sides,
    nodes: &[NodeName],
    numbers: &[u32],
    radii: &[u32],
    spans: &List<Span>,
    cap: u32,
    steps: &mut Steps<L>,
) -> Result<Accepted, Rejected>
    requires sides { AreSidesOf graph.old sides.now }
    requires radii { length radii.now + 1 < 4294967296 }
    requires few { length nodes.now + length numbers.now + length spans.now + entries_of spans.now + 1 < 4294967296 }
    ensures same { graph.new ≡ graph.old }
    ensures judges { JudgesCappedOver graph.old sides.now.problems nodes.now numbers.now radii.now spans.now cap (verdict_of result) }
    ensures shows { IfOk result (ShowsCappedOver graph.old nodes.now numbers.now radii.now spans.now cap) }
{
    let wish = Wish::Cap(cap);
    let groups = check_groups(alloc, graph, sides, nodes, numbers, spans, wish, steps)?;
    let columns = numbers.len() as u32;
    judge_radii(alloc, &groups, cap, radii, columns)
}

// Checks what a book has for any wish, and makes its groups.
fn check_groups<L: Ledger>(
    alloc: Global,
    graph: &mut Graph,
    sides: &Sides,
    nodes: &[NodeName],
    numbers: &[u32],
    spans: &List<Span>,
    wish: Wish,
    steps: &mut Steps<L>,
) -> Result<Groups, Rejected>
    requires sides { AreSidesOf graph.old sides.now }
    requires few { length nodes.now + length numbers.now + length spans.now + entries_of spans.now + 1 < 4294967296 }
    ensures same { graph.new ≡ graph.old }
    ensures judges { JudgesGroupsOver graph.old sides.now.problems nodes.now numbers.now spans.now wish (verdict_of result) }
    ensures grouped { IfOk result (IsGrouped graph.old nodes.now spans.now) }
{
    let ids = known(alloc, graph.topology(), nodes)?;
    check_columns(graph.topology(), &ids, numbers)?;
    let groups = check_spans(
        alloc,
        graph,
        &ids,
        &sides.problems,
        &sides.columns,
        spans,
        steps,
    )?;
    check_count(alloc, graph.topology(), &sides.problems, spans)?;
    let Ok(judged) = judge_groups(alloc, &sides.columns, &ids, numbers, &groups, wish) else {
        return Err(Rejected::NoMemory);
    };
    judged?;
    Ok(groups)
}

/// Checks the nodes of a certificate, and finds their numbers.
pub(crate) fn known(
    alloc: Global,
    topology: &Topology,
    nodes: &[NodeName],
) -> Result<Vec<NodeId>, Rejected>
    requires { length nodes.now + 1 < 4294967296 }
    ensures judges { JudgesNodes (topology_of topology.now) nodes.now (verdict_of result) }
    ensures good { OnOk result (AreAll (IsGoodNode (topology_of topology.now) nodes.now) (length nodes.now)) }
    ensures named { IfOk result (λ ids. AreNamed topology.now ids.items nodes.now) }
{
    check_nodes(topology, nodes)?;
    let Ok(ids) = ids_of(alloc, topology, nodes) else {
        return Err(Rejected::NoMemory);
    };
    Ok(ids)
}
