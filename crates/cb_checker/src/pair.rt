//! The two spans of a thin certificate, or the quiet group and a span.
ghost use Rattle.std.specs.Prelude.{◌≡◌, ◌<◌, ◌+◌, length, None, IfOk, IfErr, OnOk};
ghost use Rattle.cb_coding.specs.Groups.{zeros};
ghost use Rattle.cb_validity.specs.declared.verdict.Rejected.TheVariants.{NoMemory};
ghost use Rattle.cb_validity.specs.Canonical.{side_spans};
ghost use Rattle.cb_validity.specs.Checks.{span_checks};
ghost use Rattle.cb_validity.specs.Verdicts.{entries_of};
ghost use Rattle.cb_topo.specs.Columns.{AreIdsBelow};
ghost use Rattle.cb_checker.specs.Known.{AreLive, verdict_of};
ghost use Rattle.cb_checker.specs.Listed.{AreMarked};
ghost use Rattle.cb_checker.specs.Spans.{JudgesSpan};
ghost use Rattle.cb_checker.specs.Pairs.{IsRead, IsSideRead, JudgesSide, JudgesSides};

use crate::codes::code_of;
use crate::marks::SpanNodes;
use crate::span::check_span;
use cb_bits::Row;
use cb_cert::{Side, Span};
use cb_graph::Graph;
use cb_nodes::NodeId;
use cb_steps::Steps;
use cb_topo::ColumnIndex;
use cb_validity::Rejected;
use std::alloc::Global;
use std::sync::ledger::Ledger;

/// The codes of two groups.
#[derive(Drop)]
pub struct SideCodes {
    pub first: Row,
    pub second: Row,
}

/// Checks the spans, whose roots may be any problems, and reads a code off each.
pub(crate) fn read_sides<L: Ledger>(
    alloc: Global,
    graph: &mut Graph,
    ids: &[NodeId],
    columns: &ColumnIndex,
    first: &Side,
    second: &Span,
    steps: &mut Steps<L>,
) -> Result<SideCodes, Rejected>
    requires live { AreLive graph.old ids.now }
    requires columns { AreIdsBelow (length graph.old.nodes) columns.now }
    requires few { entries_of (side_spans first.now) + length second.now.entries + 1 < 4294967296 }
    ensures same { graph.new ≡ graph.old }
    ensures judges { JudgesSides graph.old ids.now first.now second.now (verdict_of result) }
    ensures first { IfOk result (λ codes. IsSideRead ids.now columns.now first.now codes.first) }
    ensures second { IfOk result (λ codes. IsRead ids.now columns.now second.now codes.second) }
{
    let Ok(mut marks) = SpanNodes::new(alloc, graph.topology()) else {
        return Err(Rejected::NoMemory);
    };
    let before = entries_in(first);
    let first = read_side(alloc, graph, ids, columns, first, &mut marks, steps)?;
    let second = read_span(
        alloc, graph, ids, columns, second, before, &mut marks, steps,
    )?;
    Ok(SideCodes { first, second })
}

// How many entries the span of a side has, if it has one.
fn entries_in(side: &Side) -> u32
    requires { entries_of (side_spans side.now) < 4294967296 }
    ensures { result ≡ entries_of (side_spans side.now) }
{
    match side {
        Side::Quiet => 0,
        Side::Root(span) => span.entries.len() as u32,
    }
}

// Checks the span of a side, if it has one, and reads its code.
fn read_side<L: Ledger>(
    alloc: Global,
    graph: &mut Graph,
    ids: &[NodeId],
    columns: &ColumnIndex,
    side: &Side,
    marks: &mut SpanNodes,
    steps: &mut Steps<L>,
) -> Result<Row, Rejected>
    requires live { AreLive graph.old ids.now }
    requires columns { AreIdsBelow (length graph.old.nodes) columns.now }
    requires few { entries_of (side_spans side.now) + 1 < 4294967296 }
    requires marked { AreMarked graph.old marks.old }
    ensures same { graph.new ≡ graph.old }
    ensures judges { JudgesSide graph.old ids.now side.now (verdict_of result) }
    ensures code { IfOk result (IsSideRead ids.now columns.now side.now) }
    ensures marked { OnOk result (AreMarked graph.old marks.new) }
{
    match side {
        Side::Quiet => quiet_code(alloc, columns.len()),
        Side::Root(span) => read_span(alloc, graph, ids, columns, span, 0, marks, steps),
    }
}

// The code of the quiet group.
fn quiet_code(alloc: Global, width: usize) -> Result<Row, Rejected>
    ensures code { IfOk result (λ code. code ≡ zeros width) }
    ensures why { IfErr result (λ why. why ≡ NoMemory) }
{
    let Ok(code) = Row::zeroed(alloc, width) else {
        return Err(Rejected::NoMemory);
    };
    Ok(code)
}

// Checks a span, and reads its code.
fn read_span<L: Ledger>(
    alloc: Global,
    graph: &mut Graph,
    ids: &[NodeId],
    columns: &ColumnIndex,
    span: &Span,
    before: u32,
    marks: &mut SpanNodes,
    steps: &mut Steps<L>,
) -> Result<Row, Rejected>
    requires live { AreLive graph.old ids.now }
    requires columns { AreIdsBelow (length graph.old.nodes) columns.now }
    requires few { before + length span.now.entries + 1 < 4294967296 }
    requires marked { AreMarked graph.old marks.old }
    ensures same { graph.new ≡ graph.old }
    ensures judges { JudgesSpan graph.old ids.now None before span.now span_checks (verdict_of result) }
    ensures code { IfOk result (IsRead ids.now columns.now span.now) }
    ensures marked { OnOk result (AreMarked graph.old marks.new) }
{
    check_span(alloc, graph, ids, None, span, before, marks, steps)?;
    let Ok(code) = code_of(alloc, columns, marks) else {
        return Err(Rejected::NoMemory);
    };
    Ok(code)
}
