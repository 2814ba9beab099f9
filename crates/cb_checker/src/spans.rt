//! The spans of a book, one for each problem.
ghost use Rattle.std.specs.Prelude.{◌≡◌, ◌<◌, ◌+◌, length, min, IfOk, OnOk};
ghost use Rattle.cb_codes.specs.Grouped.{FitsTogether};
ghost use Rattle.cb_validity.specs.Verdicts.{entries_of};
ghost use Rattle.cb_topo.specs.Columns.{AreIdsBelow};
ghost use Rattle.cb_topo.specs.Numbered.{IsLiveNode};
ghost use Rattle.cb_checker.specs.Known.{AreLive, verdict_of};
ghost use Rattle.cb_checker.specs.Listed.{AreListed};
ghost use Rattle.cb_checker.specs.Books.{AddsCoded, AreGroupsReadTo, JudgesSpans, JudgesCount};

use crate::codes::compact_code_of;
use crate::marks::SpanNodes;
use crate::span::check_span;
use cb_cert::Span;
use cb_codes::{Grouping, Groups};
use cb_graph::Graph;
use cb_model::List;
use cb_nodes::NodeId;
use cb_steps::Steps;
use cb_topo::{ColumnIndex, Topology};
use cb_validity::Rejected;
use std::alloc::{AllocError, Global};
use std::sync::ledger::Ledger;

/// Checks each span with the problem at its position, reads the problem's code off it, and adds the problem to the group of that code.
pub(crate) fn check_spans<L: Ledger>(
    alloc: Global,
    graph: &mut Graph,
    ids: &[NodeId],
    problems: &List<NodeId>,
    columns: &ColumnIndex,
    spans: &List<Span>,
    steps: &mut Steps<L>,
) -> Result<Groups, Rejected>
    requires live { AreLive graph.old ids.now }
    requires problems { AreLive graph.old problems.now }
    requires columns { AreIdsBelow (length graph.old.nodes) columns.now }
    requires few { entries_of spans.now + 1 < 4294967296 }
    ensures same { graph.new ≡ graph.old }
    ensures judges { JudgesSpans graph.old ids.now problems.now spans.now (verdict_of result) }
    ensures groups { IfOk result (AreGroupsReadTo graph.old ids.now problems.now columns.now spans.now (min (length problems.now) (length spans.now))) }
{
    let Ok(mut marks) = SpanNodes::new(alloc, graph.topology()) else {
        return Err(Rejected::NoMemory);
    };
    let Ok(mut grouping) = Grouping::of_quiet(alloc, columns.len()) else {
        return Err(Rejected::NoMemory);
    };
    let mut before = 0;
    for place in 0..problems.len().min(spans.len()) {
        let root = *problems.at(place);
        let span = spans.at(place);
        check_span(
            alloc,
            graph,
            ids,
            Some(root),
            span,
            before,
            &mut marks,
            steps,
        )?;
        let Ok(()) = add_problem(
            alloc,
            graph.topology(),
            columns,
            root,
            &marks,
            &mut grouping,
        ) else {
            return Err(Rejected::NoMemory);
        };
        before += span.entries.len() as u32;
    }
    Ok(grouping.into_groups(alloc))
}

// Adds the problem to the group of its code.
fn add_problem(
    alloc: Global,
    topology: &Topology,
    columns: &ColumnIndex,
    node: NodeId,
    marks: &SpanNodes,
    grouping: &mut Grouping,
) -> Result<(), AllocError>
    requires node { IsLiveNode topology.now node }
    requires listed { AreListed marks.now.listed marks.now.placed.items }
    requires sound { FitsTogether (length columns.now) grouping.old }
    ensures { OnOk result (AddsCoded topology.now columns.now node marks.now.listed grouping.old grouping.new) }
{
    let name = topology.copy_name(alloc, node)?;
    let code = compact_code_of(alloc, columns, marks)?;
    grouping.add(alloc, name, code)
}

/// Checks that there are as many spans as problems.
pub(crate) fn check_count(
    alloc: Global,
    topology: &Topology,
    problems: &List<NodeId>,
    spans: &List<Span>,
) -> Result<(), Rejected>
    requires live { AreLive topology.now problems.now }
    requires few { length spans.now + 1 < 4294967296 }
    ensures judges { JudgesCount topology.now problems.now spans.now result }
    ensures same { OnOk result (length problems.now ≡ length spans.now) }
{
    if spans.len() < problems.len() {
        let Ok(problem) = topology.copy_name(alloc, *problems.at(spans.len())) else {
            return Err(Rejected::NoMemory);
        };
        return Err(Rejected::NoSpan { problem });
    }
    if problems.len() < spans.len() {
        return Err(Rejected::ExtraSpan {
            place: problems.len() as u32 + 1,
        });
    }
    Ok(())
}
