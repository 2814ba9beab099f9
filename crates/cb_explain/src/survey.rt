//! The successors of listed nodes, each node asked once.
ghost use Rattle.std.specs.Prelude.{◌≡◌, ◌<◌, ◌≤◌, ◌+◌, ◌↔◌, ◌⊎◌, [], ◌∷◌, ℕ, length, IfOk, IfSome, IsTrue};
ghost use Rattle.cb_breadth.specs.Lists.{AreBelow, IsAmong};
ghost use Rattle.cb_successors.specs.Rows.{Has};
ghost use Rattle.cb_explain.specs.Checking.{AreListedNodes, HavePositions};
ghost use Rattle.cb_explain.specs.Surveyed.{IsChildAmong, IsWrongAt, IsNoHigher, IsLeastIfSome, IsLeastWrongAmong, IsKnownOr, IsSurvey, IsLower};

use crate::listed::ListedNodes;
use cb_graph::Graph;
use cb_levels::Levels;
use cb_span::order_of;
use cb_steps::Steps;
use cb_successors::Edges;
use std::alloc::{AllocError, Global};
use std::sync::ledger::Ledger;

/// What is wrong with a successor.
#[derive(Clone, Copy)]
pub(crate) enum SuccessorFault {
    /// No entry lists it.
    Unlisted,
    /// It is listed more than one level above.
    Far,
}

/// A successor with a fault, by its number, and the position of the entry whose successor it is.
#[derive(Clone, Copy)]
pub(crate) struct WrongSuccessor {
    pub position: usize,
    pub fault: SuccessorFault,
    pub successor: usize,
}

/// What the successors of listed nodes show.
#[derive(Drop)]
pub(crate) struct Survey {
    /// For each entry, whether an edge leads to its node from that of its parent.
    pub led: Vec<bool>,
    /// The first entry with a wrong successor, and the least such successor.
    pub wrong: Option<WrongSuccessor>,
}

/// Asks each listed node for its successors, once.
pub(crate) fn ask_all<L: Ledger>(
    alloc: Global,
    graph: &mut Graph,
    levels: &Levels,
    listed: &ListedNodes,
    steps: &mut Steps<L>,
) -> Result<Survey, AllocError>
    requires { AreListedNodes graph.old levels.now listed.now }
    ensures same { graph.new ≡ graph.old }
    ensures survey { IfOk result (IsSurvey graph.old levels.now listed.now.nodes.items) }
    ensures asked { steps.new ≤ steps.old + length listed.now.nodes.items }
{
    let order = order_of(alloc, graph.topology())?;
    let mut led = vec![in alloc; false; listed.nodes.len()]?;
    let mut wrong = None;
    let mut successors = Vec::new(alloc);
    for position in 0..listed.nodes.len() {
        let node = listed.nodes[position].0 as usize;
        graph.list_successors(node, &mut successors, steps)?;
        mark_children(levels, listed, position, &successors, &mut led);
        wrong = first_wrong(wrong, &order.ranks, levels, listed, position, &successors);
    }
    Ok(Survey { led, wrong })
}

// Marks the entries whose parent is at the position, and whose nodes are among the successors.
fn mark_children(
    levels: &Levels,
    listed: &ListedNodes,
    parent: usize,
    successors: &[usize],
    led: &mut Vec<bool>,
)
    requires within { length listed.now.nodes.items ≤ length levels.now.entries }
    requires table { HavePositions listed.now.nodes.items listed.now.positions.items }
    requires below { AreBelow (length listed.now.positions.items) successors.now }
    requires led { length led.old.items ≡ length listed.now.nodes.items }
    requires parent { parent < length listed.now.nodes.items }
    ensures led { (position : ℕ) → Has led.new.items position ↔ (Has led.old.items position ⊎ IsChildAmong levels.now listed.now.nodes.items parent successors.now position) }
    ensures capacity { length led.new.items ≡ length led.old.items }
{
    for position in 0..successors.len() {
        mark_child(levels, listed, parent, successors[position], led);
    }
}

// Marks the entry of the node, if its parent is at the position.
fn mark_child(
    levels: &Levels,
    listed: &ListedNodes,
    parent: usize,
    node: usize,
    led: &mut Vec<bool>,
)
    requires within { length listed.now.nodes.items ≤ length levels.now.entries }
    requires table { HavePositions listed.now.nodes.items listed.now.positions.items }
    requires node { node < length listed.now.positions.items }
    requires led { length led.old.items ≡ length listed.now.nodes.items }
    requires parent { parent < length listed.now.nodes.items }
    ensures led { (position : ℕ) → Has led.new.items position ↔ (Has led.old.items position ⊎ IsChildAmong levels.now listed.now.nodes.items parent (node ∷ []) position) }
    ensures capacity { length led.new.items ≡ length led.old.items }
{
    if let Some(position) = listed.positions[node] {
        if levels.entries.at(position).parent as usize == parent + 1 {
            led[position] = true;
        }
    }
}

// The wrong successor that is known, or else that of the entry at the position.
fn first_wrong(
    known: Option<WrongSuccessor>,
    ranks: &[u32],
    levels: &Levels,
    listed: &ListedNodes,
    position: usize,
    successors: &[usize],
) -> Option<WrongSuccessor>
    requires within { length listed.now.nodes.items ≤ length levels.now.entries }
    requires table { HavePositions listed.now.nodes.items listed.now.positions.items }
    requires below { AreBelow (length listed.now.positions.items) successors.now }
    requires ranks { length ranks.now ≡ length listed.now.positions.items }
    requires position { position < length listed.now.nodes.items }
    ensures { IsKnownOr known (IsLeastWrongAmong ranks.now levels.now listed.now.nodes.items successors.now position) result }
{
    match known {
        Some(_) => known,
        None => wrong_at(ranks, levels, listed, position, successors),
    }
}

// The least successor that isn't listed, or else the least that is too far.
fn wrong_at(
    ranks: &[u32],
    levels: &Levels,
    listed: &ListedNodes,
    position: usize,
    successors: &[usize],
) -> Option<WrongSuccessor>
    requires within { length listed.now.nodes.items ≤ length levels.now.entries }
    requires table { HavePositions listed.now.nodes.items listed.now.positions.items }
    requires below { AreBelow (length listed.now.positions.items) successors.now }
    requires ranks { length ranks.now ≡ length listed.now.positions.items }
    requires position { position < length listed.now.nodes.items }
    ensures { IsLeastWrongAmong ranks.now levels.now listed.now.nodes.items successors.now position result }
{
    let level = levels.entries.at(position).level;
    if let Some(successor) = least(
        SuccessorFault::Unlisted,
        ranks,
        levels,
        listed,
        level,
        successors,
    ) {
        return Some(WrongSuccessor {
            position,
            fault: SuccessorFault::Unlisted,
            successor,
        });
    }
    if let Some(successor) = least(
        SuccessorFault::Far,
        ranks,
        levels,
        listed,
        level,
        successors,
    ) {
        return Some(WrongSuccessor {
            position,
            fault: SuccessorFault::Far,
            successor,
        });
    }
    None
}

// The least of these nodes with this fault, as successors of one at the level.
fn least(
    fault: SuccessorFault,
    ranks: &[u32],
    levels: &Levels,
    listed: &ListedNodes,
    level: u32,
    successors: &[usize],
) -> Option<usize>
    requires within { length listed.now.nodes.items ≤ length levels.now.entries }
    requires table { HavePositions listed.now.nodes.items listed.now.positions.items }
    requires below { AreBelow (length listed.now.positions.items) successors.now }
    requires ranks { length ranks.now ≡ length listed.now.positions.items }
    ensures { IsLeastIfSome (λ k. IsAmong successors.now k × IsWrongAt levels.now listed.now.nodes.items level fault k) (IsNoHigher ranks.now) result }
{
    let mut least = None;
    for position in 0..successors.len() {
        let node = successors[position];
        if !is_wrong(fault, levels, listed, level, node) {
            continue;
        }
        least = Some(lower(ranks, least, node));
    }
    least
}

// Whether the node has this fault, as a successor of one at the level.
fn is_wrong(
    fault: SuccessorFault,
    levels: &Levels,
    listed: &ListedNodes,
    level: u32,
    node: usize,
) -> bool
    requires within { length listed.now.nodes.items ≤ length levels.now.entries }
    requires table { HavePositions listed.now.nodes.items listed.now.positions.items }
    requires node { node < length listed.now.positions.items }
    ensures { IsTrue result ↔ IsWrongAt levels.now listed.now.nodes.items level fault node }
{
    match listed.positions[node] {
        None => match fault {
            SuccessorFault::Unlisted => true,
            SuccessorFault::Far => false,
        },
        Some(position) => match fault {
            SuccessorFault::Unlisted => false,
            SuccessorFault::Far => is_far(level, levels.entries.at(position).level),
        },
    }
}

// Whether a level is more than one above another.
fn is_far(level: u32, above: u32) -> bool
    ensures { IsTrue result ↔ (level + 1 < above) }
{
    above.saturating_sub(level) > 1
}

// The node whose rank is lower, or the second where there is no first.
fn lower(ranks: &[u32], least: Option<usize>, node: usize) -> usize
    requires least { IfSome least (λ l. l < length ranks.now) }
    requires node { node < length ranks.now }
    ensures { IsLower ranks.now least node result }
{
    match least {
        Some(least) => {
            if ranks[least] < ranks[node] {
                least
            } else {
                node
            }
        }
        None => node,
    }
}
