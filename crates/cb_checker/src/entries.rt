//! The entries of a span after its first one.
ghost use Rattle.std.specs.Prelude.{◌≡◌, ◌<◌, ◌-◌, ◌+◌, length, IfOk, IfErr, OnOk, Err};
ghost use Rattle.std.specs.List.{Contains, flat_map, range_with_len};
ghost use Rattle.cb_validity.specs.Checks.{entry_checks};
ghost use Rattle.cb_topo.specs.Columns.{AreIdsBelow};
ghost use Rattle.cb_checker.specs.declared.reasons.Reason.{Reason as Stated};
ghost use Rattle.cb_checker.specs.Known.{AreLive};
ghost use Rattle.cb_checker.specs.Listed.{ArePlaced, AreListed, AreMarked};
ghost use Rattle.cb_checker.specs.Reasons.{IsStated, AreStated, JudgesEntry, JudgesEntryIfLed, JudgesIfLed, JudgesIfUnled};
ghost use Rattle.cb_checker.specs.Spans.{JudgesPart};

use crate::known::id_at;
use crate::marks::SpanNodes;
use crate::reasons::{Reason, first_unled};
use cb_cert::Span;
use cb_graph::Graph;
use cb_nodes::NodeId;
use cb_steps::Steps;
use cb_validity::Rejected;
use std::sync::ledger::Ledger;

/// Checks the entries after the first one, which is listed, and lists them too. Whether edges lead to them is asked of all at once,
/// up to the first that fails another check.
pub(crate) fn check_entries<L: Ledger>(
    graph: &mut Graph,
    ids: &[NodeId],
    span: &Span,
    before: u32,
    marks: &mut SpanNodes,
    steps: &mut Steps<L>,
) -> Result<(), Rejected>
    requires live { AreLive graph.old ids.now }
    requires some { 0 < length span.now.entries }
    requires few { before + length span.now.entries < 4294967296 }
    requires first { ArePlaced ids.now span.now 1 marks.old.placed.items }
    requires marked { AreMarked graph.old marks.old }
    ensures same { graph.new ≡ graph.old }
    ensures judges { JudgesPart graph.old ids.now before span.now
        (λ a. flat_map (entry_checks a) (range_with_len 1 (length a.span.entries - 1))) result }
    ensures placed { OnOk result (ArePlaced ids.now span.now (length span.now.entries) marks.new.placed.items) }
    ensures marked { OnOk result (AreMarked graph.old marks.new) }
{
    let listed = list_entries(ids, span, before, marks);
    if let Some(place) = first_unled(graph, &mut marks.reasons, &mut marks.found, steps) {
        return Err(Rejected::NoEdge {
            entry: before + place + 1,
        });
    }
    listed
}

// Lists the entries after the first one, with what they state, up to the first that fails a check, if all edges are there.
fn list_entries(
    ids: &[NodeId],
    span: &Span,
    before: u32,
    marks: &mut SpanNodes,
) -> Result<(), Rejected>
    requires some { 0 < length span.now.entries }
    requires few { before + length span.now.entries < 4294967296 }
    requires below { AreIdsBelow (length marks.old.listed) ids.now }
    requires first { ArePlaced ids.now span.now 1 marks.old.placed.items }
    requires listed { AreListed marks.old.listed marks.old.placed.items }
    ensures led { JudgesIfLed ids.now before span.now marks.new.reasons.items result }
    ensures unled { JudgesIfUnled ids.now before span.now marks.new.reasons.items }
    ensures stated { AreStated ids.now span.now (length span.now.entries) marks.new.reasons.items }
    ensures placed { OnOk result (ArePlaced ids.now span.now (length span.now.entries) marks.new.placed.items) }
    ensures listed { OnOk result (AreListed marks.new.listed marks.new.placed.items) }
    ensures capacity { length marks.new.listed ≡ length marks.old.listed }
    ensures found { marks.new.found ≡ marks.old.found }
{
    marks.reasons.clear();
    for place in 1..span.entries.len() {
        list_entry(ids, span, before, place, marks)?;
    }
    Ok(())
}

// Lists one of them.
fn list_entry(
    ids: &[NodeId],
    span: &Span,
    before: u32,
    place: usize,
    marks: &mut SpanNodes,
) -> Result<(), Rejected>
    requires place { place < length span.now.entries }
    requires few { before + length span.now.entries < 4294967296 }
    requires below { AreIdsBelow (length marks.old.listed) ids.now }
    requires placed { ArePlaced ids.now span.now place marks.old.placed.items }
    requires listed { AreListed marks.old.listed marks.old.placed.items }
    requires stated { AreStated ids.now span.now place marks.old.reasons.items }
    ensures judges { JudgesEntryIfLed ids.now before span.now place marks.new.reasons.items result }
    ensures stated { AreStated ids.now span.now (place + 1) marks.new.reasons.items }
    ensures keeps { (reason : Stated) → Contains marks.old.reasons.items reason → Contains marks.new.reasons.items reason }
    ensures placed { OnOk result (ArePlaced ids.now span.now (place + 1) marks.new.placed.items) }
    ensures listed { OnOk result (AreListed marks.new.listed marks.new.placed.items) }
    ensures capacity { length marks.new.listed ≡ length marks.old.listed }
    ensures found { marks.new.found ≡ marks.old.found }
{
    let reason = reason_at(ids, span, before, place, &marks.placed)?;
    let entry = before + reason.place + 1;
    let Ok(()) = marks.reasons.push(reason) else {
        return Err(Rejected::NoMemory);
    };
    if marks.listed.get(reason.to.0 as usize) {
        return Err(Rejected::Repeated { entry });
    }
    let Ok(()) = marks.add(reason.to) else {
        return Err(Rejected::NoMemory);
    };
    Ok(())
}

// What the entry at a position states, if its parent is earlier and its node has a number.
fn reason_at(
    ids: &[NodeId],
    span: &Span,
    before: u32,
    place: usize,
    placed: &[NodeId],
) -> Result<Reason, Rejected>
    requires place { place < length span.now.entries }
    requires few { before + length span.now.entries < 4294967296 }
    requires placed { ArePlaced ids.now span.now place placed.now }
    ensures stated { IfOk result (IsStated ids.now span.now) }
    ensures place { IfOk result (λ reason. reason.place ≡ place) }
    ensures judges { IfErr result (λ why. JudgesEntry ids.now before span.now place (Err why)) }
{
    let entry = *span.entries.at(place);
    let number = before + place as u32 + 1;
    let parent = entry.parent as usize;
    if parent == 0 || place < parent {
        return Err(Rejected::BadParent { entry: number });
    }
    let from = placed[parent - 1];
    let Some(to) = id_at(ids, entry.node) else {
        return Err(Rejected::NoEdge { entry: number });
    };
    Ok(Reason {
        place: place as u32,
        parent: entry.parent,
        from,
        to,
    })
}
