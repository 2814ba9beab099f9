//! One span.
ghost use Rattle.std.specs.Prelude.{◌≡◌, ◌<◌, ◌+◌, length, OnOk};
ghost use Rattle.cb_validity.specs.Checks.{span_checks};
ghost use Rattle.cb_checker.specs.Known.{AreLive};
ghost use Rattle.cb_checker.specs.Listed.{ArePlaced, AreMarked};
ghost use Rattle.cb_checker.specs.Spans.{JudgesSpan};

use crate::closed::check_closed;
use crate::entries::check_entries;
use crate::marks::SpanNodes;
use crate::root::check_root;
use cb_cert::Span;
use cb_graph::Graph;
use cb_nodes::NodeId;
use cb_steps::Steps;
use cb_validity::Rejected;
use std::alloc::Global;
use std::sync::ledger::Ledger;

/// Checks a span, with the number of entries before it, and lists its nodes.
pub(crate) fn check_span<L: Ledger>(
    alloc: Global,
    graph: &mut Graph,
    ids: &[NodeId],
    root: Option<NodeId>,
    span: &Span,
    before: u32,
    marks: &mut SpanNodes,
    steps: &mut Steps<L>,
) -> Result<(), Rejected>
    requires live { AreLive graph.old ids.now }
    requires few { before + length span.now.entries + 1 < 4294967296 }
    requires marked { AreMarked graph.old marks.old }
    ensures same { graph.new ≡ graph.old }
    ensures judges { JudgesSpan graph.old ids.now root before span.now span_checks result }
    ensures placed { OnOk result (ArePlaced ids.now span.now (length span.now.entries) marks.new.placed.items) }
    ensures marked { OnOk result (AreMarked graph.old marks.new) }
{
    marks.forget();
    let first = check_root(graph.topology(), ids, root, span, before)?;
    let Ok(()) = marks.add(first) else {
        return Err(Rejected::NoMemory);
    };
    check_entries(graph, ids, span, before, marks, steps)?;
    check_closed(alloc, graph, before, marks, steps)
}
