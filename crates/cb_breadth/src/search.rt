//! The search in breadth. The list of visits is its queue.
ghost use Rattle.std.specs.Prelude.{◌≡◌, ◌<◌, ◌≤◌, ◌+◌, ◌^◌, ◌↔◌, ℕ, length, replicate, false, IfOk, OnOk};
ghost use Rattle.cb_successors.specs.Rows.{Has};
ghost use Rattle.cb_breadth.specs.Lists.{AreBelow, AreRisingNumbers};
ghost use Rattle.cb_breadth.specs.Trees.{CountsReached, IsTree, IsVisited};
ghost use Rattle.cb_breadth.specs.Levels.{IsLevelTree, CountsVisits};
ghost use Rattle.cb_breadth.specs.Orders.{IsOrder, Follows};
ghost use Rattle.cb_breadth.specs.Successors.{AreSuccessors};
ghost use Rattle.cb_breadth.specs.Searches.{IsNewSearch, IsSearchOf};
ghost use Rattle.cb_breadth.specs.Visiting.{AreVisited};

use crate::levels::grow_levels;
use crate::successors::Successors;
use crate::visit::{LevelVisit, Order, Visit};
use cb_bits::Row;
use cb_steps::Steps;
use cb_successors::Edges;
use std::alloc::{AllocError, Global};
use std::sync::ledger::Ledger;

/// What searches of one graph over one order share: the successors of the nodes that were visited so far, and a row in which
/// each search marks what it finds. After an `Err` of a search it is of no more use.
#[derive(Drop)]
pub struct Searches {
    successors: Successors,
    found: Row,
}

impl Searches {
    /// Nothing is known yet.
    pub fn new(alloc: Global, order: &Order) -> Result<Searches, AllocError>
        ensures { IfOk result (IsNewSearch order.now) }
    {
        Ok(Searches {
            successors: Successors::new(alloc, order)?,
            found: Row::zeroed(alloc, order.nodes.len())?,
        })
    }
}

/// Visits the node of a rank and all that it leads to, the root first. The graph's value stays as it is.
pub fn tree<L: Ledger, G: Edges>(
    alloc: Global,
    graph: &mut G,
    order: &Order,
    searches: &mut Searches,
    root: u32,
    steps: &mut Steps<L>,
) -> Result<Vec<Visit>, AllocError>
    requires order { IsOrder (G.edge graph.old) (G.count graph.old) order.now.nodes.items order.now.ranks.items }
    requires few { length order.now.nodes.items < 2 ^ 32 }
    requires root { root < length order.now.nodes.items }
    requires known { IsSearchOf (G.edge graph.old) order.now searches.old }
    ensures same { graph.new ≡ graph.old }
    ensures tree { IfOk result (λ visits. IsTree (Follows (G.edge graph.old) order.now.nodes.items) root visits.items) }
    ensures known { OnOk result (IsSearchOf (G.edge graph.old) order.now searches.new) }
    ensures asked { IfOk result (λ visits. steps.new ≤ steps.old + length visits.items) }
    ensures reached { CountsReached (Follows (G.edge graph.old) order.now.nodes.items) root (length order.now.nodes.items) steps.old steps.new }
{
    let visits = grow(
        alloc,
        graph,
        order,
        &mut searches.successors,
        &mut searches.found,
        root,
        steps,
    )?;
    forget(&mut searches.found, &visits);
    Ok(visits)
}

/// Visits the node of a rank and all that it leads to, level by level, each in order. The graph's value stays as it is.
pub fn level_tree<L: Ledger, G: Edges>(
    alloc: Global,
    graph: &mut G,
    order: &Order,
    searches: &mut Searches,
    root: u32,
    steps: &mut Steps<L>,
) -> Result<Vec<LevelVisit>, AllocError>
    requires order { IsOrder (G.edge graph.old) (G.count graph.old) order.now.nodes.items order.now.ranks.items }
    requires few { length order.now.nodes.items < 2 ^ 32 }
    requires root { root < length order.now.nodes.items }
    requires known { IsSearchOf (G.edge graph.old) order.now searches.old }
    ensures same { graph.new ≡ graph.old }
    ensures tree { IfOk result (λ visits. IsLevelTree (Follows (G.edge graph.old) order.now.nodes.items) root visits.items) }
    ensures known { OnOk result (IsSearchOf (G.edge graph.old) order.now searches.new) }
    ensures asked { CountsVisits (Follows (G.edge graph.old) order.now.nodes.items) root steps.old steps.new }
{
    let visits = grow_levels(
        alloc,
        graph,
        order,
        &mut searches.successors,
        &mut searches.found,
        root,
        steps,
    )?;
    searches.found.wipe();
    Ok(visits)
}

// Visits the node of a rank and all that it leads to, which is then found.
fn grow<L: Ledger, G: Edges>(
    alloc: Global,
    graph: &mut G,
    order: &Order,
    successors: &mut Successors,
    found: &mut Row,
    root: u32,
    steps: &mut Steps<L>,
) -> Result<Vec<Visit>, AllocError>
    requires order { IsOrder (G.edge graph.old) (G.count graph.old) order.now.nodes.items order.now.ranks.items }
    requires few { length order.now.nodes.items < 2 ^ 32 }
    requires root { root < length order.now.nodes.items }
    requires known { AreSuccessors (G.edge graph.old) order.now successors.old }
    requires found { found.old ≡ replicate (length order.now.nodes.items) false }
    ensures same { graph.new ≡ graph.old }
    ensures tree { IfOk result (λ visits. IsTree (Follows (G.edge graph.old) order.now.nodes.items) root visits.items) }
    ensures known { OnOk result (AreSuccessors (G.edge graph.old) order.now successors.new) }
    ensures found { IfOk result (λ visits. (node : ℕ) → Has found.new node ↔ IsVisited visits.items node) }
    ensures capacity { OnOk result (length found.new ≡ length order.now.nodes.items) }
    ensures asked { IfOk result (λ visits. steps.new ≤ steps.old + length visits.items) }
    ensures reached { CountsReached (Follows (G.edge graph.old) order.now.nodes.items) root (length order.now.nodes.items) steps.old steps.new }
{
    found.set(root as usize);
    let mut visits = Vec::new(alloc);
    visits.push(Visit {
        node: root,
        parent: 0,
    })?;
    let mut place = 0;
    while place < visits.len() {
        let node = visits[place].node;
        successors.learn(graph, order, node, steps)?;
        place += 1;
        visit_all(&mut visits, found, successors.of(node), place as u32)?;
    }
    Ok(visits)
}

// Visits the nodes of a list that aren't found yet, in order, from this parent.
fn visit_all(
    visits: &mut Vec<Visit>,
    found: &mut Row,
    next: &[u32],
    parent: u32,
) -> Result<(), AllocError>
    requires below { AreBelow (length found.old) next.now }
    requires rise { AreRisingNumbers next.now }
    ensures visits { OnOk result (AreVisited parent next.now (length next.now) visits.old.items found.old visits.new.items found.new) }
{
    for place in 0..next.len() {
        let node = next[place];
        if found.get(node as usize) {
            continue;
        }
        found.set(node as usize);
        visits.push(Visit { node, parent })?;
    }
    Ok(())
}

// Makes the row empty, which has exactly the nodes of the visits. Only their positions are wiped.
fn forget(found: &mut Row, visits: &[Visit])
    requires { (node : ℕ) → Has found.old node ↔ IsVisited visits.now node }
    ensures { found.new ≡ replicate (length found.old) false }
{
    for place in 0..visits.len() {
        found.clear(visits[place].node as usize);
    }
}
