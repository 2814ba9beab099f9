//! The edges that the entries of a span state, and the first that isn't there.
ghost use Rattle.std.specs.Prelude.{◌≡◌, ◌<◌, ◌≤◌, ◌+◌, [], ◌∷◌, length};
ghost use Rattle.std.specs.List.{AllWithin};
ghost use Rattle.cb_topo.specs.Numbered.{IsLiveNode};
ghost use Rattle.cb_checker.specs.Reasons.{AreEndsBelow, AreFrom, AreLiveEdges, HasEnd, HasNoEnds, IsFirstUnled, IsFirstWithout, IsSooner};

use cb_bits::Row;
use cb_graph::Graph;
use cb_nodes::NodeId;
use cb_steps::Steps;
use cb_successors::Edges;
use std::sync::ledger::Ledger;

/// What an entry after the first one states: that an edge leads to its node from that of its parent. Its position counts from 0, and
/// that of its parent from 1.
#[derive(Clone, Copy)]
pub struct Reason {
    pub place: u32,
    pub parent: u32,
    pub from: NodeId,
    pub to: NodeId,
}

/// The position of the first entry that states an edge which isn't there. Entries of one parent are brought together, as they stand in a
/// canonical span already, so that a parent is asked for its successors once.
pub(crate) fn first_unled<L: Ledger>(
    graph: &mut Graph,
    reasons: &mut Vec<Reason>,
    found: &mut Row,
    steps: &mut Steps<L>,
) -> Option<u32>
    requires live { AreLiveEdges graph.old reasons.old.items }
    requires found { length found.old ≡ length graph.old.nodes }
    ensures same { graph.new ≡ graph.old }
    ensures first { IsFirstUnled graph.old reasons.old.items result }
    ensures capacity { length found.new ≡ length found.old }
{
    reasons.sort_unstable_by_key(|reason| reason.parent);
    first_by_parents(graph, reasons, found, steps)
}

// The first wrong reason of entries whose parents are asked one after another.
fn first_by_parents<L: Ledger>(
    graph: &mut Graph,
    reasons: &[Reason],
    found: &mut Row,
    steps: &mut Steps<L>,
) -> Option<u32>
    requires live { AreLiveEdges graph.old reasons.now }
    requires found { length found.old ≡ length graph.old.nodes }
    ensures same { graph.new ≡ graph.old }
    ensures first { IsFirstUnled graph.old reasons.now result }
    ensures capacity { length found.new ≡ length found.old }
{
    let mut first = None;
    let mut start = 0;
    while start < reasons.len() {
        let from = reasons[start].from;
        let end = end_of_siblings(reasons, start, from);
        let siblings = &reasons[start..end];
        let unled = first_of_siblings(graph, from, siblings, found, steps);
        first = sooner(first, unled);
        start = end;
    }
    first
}

// Up to where edges are stated from this node, from one of these on.
fn end_of_siblings(reasons: &[Reason], start: usize, from: NodeId) -> usize
    requires start { start < length reasons.now }
    requires from { AllWithin (λ reason. reason.from ≡ from) reasons.now start (start + 1) }
    ensures more { start < result }
    ensures within { result ≤ length reasons.now }
    ensures from { AllWithin (λ reason. reason.from ≡ from) reasons.now start result }
{
    let mut end = start + 1;
    while end < reasons.len() && reasons[end].from == from {
        end += 1;
    }
    end
}

// The first of those that state edges from one node. Whatever the row has elsewhere is no matter, so it isn't wiped.
fn first_of_siblings<L: Ledger>(
    graph: &mut Graph,
    from: NodeId,
    siblings: &[Reason],
    found: &mut Row,
    steps: &mut Steps<L>,
) -> Option<u32>
    requires from { IsLiveNode graph.old from }
    requires siblings { AreFrom from siblings.now }
    requires live { AreLiveEdges graph.old siblings.now }
    requires found { length found.old ≡ length graph.old.nodes }
    ensures same { graph.new ≡ graph.old }
    ensures first { IsFirstUnled graph.old siblings.now result }
    ensures capacity { length found.new ≡ length found.old }
{
    clear_ends(siblings, found);
    graph.add_successors(from.0 as usize, found, steps);
    first_outside(siblings, found)
}

// Takes the nodes to which the edges lead out of the row.
fn clear_ends(siblings: &[Reason], found: &mut Row)
    requires { AreEndsBelow (length found.old) siblings.now }
    ensures none { HasNoEnds siblings.now found.new }
    ensures capacity { length found.new ≡ length found.old }
{
    for i in 0..siblings.len() {
        found.clear(siblings[i].to.0 as usize);
    }
}

// The position of the first entry whose node the row hasn't.
fn first_outside(siblings: &[Reason], found: &Row) -> Option<u32>
    requires { AreEndsBelow (length found.now) siblings.now }
    ensures { IsFirstWithout (HasEnd found.now) siblings.now result }
{
    let mut first = None;
    for i in 0..siblings.len() {
        first = sooner(first, outside(siblings[i], found));
    }
    first
}

// The position of the entry, if the row hasn't its node.
fn outside(reason: Reason, found: &Row) -> Option<u32>
    requires { reason.to.0 < length found.now }
    ensures { IsFirstWithout (HasEnd found.now) (reason ∷ []) result }
{
    if found.get(reason.to.0 as usize) {
        None
    } else {
        Some(reason.place)
    }
}

// The lesser of two positions, if there are two.
fn sooner(one: Option<u32>, other: Option<u32>) -> Option<u32>
    ensures { IsSooner one other result }
{
    match one {
        None => other,
        Some(place) => match other {
            None => one,
            Some(other) => Some(place.min(other)),
        },
    }
}
