//! The search in breadth, level by level, each in order.
ghost use Rattle.std.specs.Prelude.{◌≡◌, ◌<◌, ◌≤◌, ◌+◌, ◌-◌, ◌^◌, ◌↔◌, ◌++◌, ℕ, length, map, replicate, false, IfOk, OnOk, Some, slice_get};
ghost use Rattle.cb_breadth.specs.declared.visit.LevelVisit.{LevelVisit as Visit_};
ghost use Rattle.std.specs.List.{All};
ghost use Rattle.cb_successors.specs.Rows.{Has};
ghost use Rattle.cb_breadth.specs.Lists.{AreBelow, AreRisingNumbers, IsListOf};
ghost use Rattle.cb_breadth.specs.Levels.{IsLevelTree, CountsVisits, IsLedTo, IsTier, levelled, MarksNewNodes};
ghost use Rattle.cb_breadth.specs.Orders.{IsOrder, Follows};
ghost use Rattle.cb_breadth.specs.Successors.{AreSuccessors};
ghost use Rattle.cb_breadth.specs.Searches.{IsSearchOf};

use crate::search::Searches;
use crate::successors::Successors;
use crate::visit::{LevelVisit, Order};
use cb_bits::Row;
use cb_steps::Steps;
use cb_successors::Edges;
use std::alloc::{AllocError, Global};
use std::sync::ledger::Ledger;

// Visits the node of a rank and all that it leads to, level by level, which is then found.
pub(crate) fn grow_levels<L: Ledger, G: Edges>(
    alloc: Global,
    graph: &mut G,
    order: &Order,
    successors: &mut Successors,
    found: &mut Row,
    root: u32,
    steps: &mut Steps<L>,
) -> Result<Vec<LevelVisit>, AllocError>
    requires order { IsOrder (G.edge graph.old) (G.count graph.old) order.now.nodes.items order.now.ranks.items }
    requires few { length order.now.nodes.items < 2 ^ 32 }
    requires root { root < length order.now.nodes.items }
    requires known { AreSuccessors (G.edge graph.old) order.now successors.old }
    requires found { found.old ≡ replicate (length order.now.nodes.items) false }
    ensures same { graph.new ≡ graph.old }
    ensures tree { IfOk result (λ visits. IsLevelTree (Follows (G.edge graph.old) order.now.nodes.items) root visits.items) }
    ensures known { OnOk result (AreSuccessors (G.edge graph.old) order.now successors.new) }
    ensures capacity { OnOk result (length found.new ≡ length order.now.nodes.items) }
    ensures asked { CountsVisits (Follows (G.edge graph.old) order.now.nodes.items) root steps.old steps.new }
{
    found.set(root as usize);
    let mut parents = vec![in alloc; 0_u32; order.nodes.len()]?;
    let mut visits = Vec::new(alloc);
    visits.push(LevelVisit {
        node: root,
        level: 0,
        parent: 0,
    })?;
    let mut from = 0;
    let mut level = 0;
    while from < visits.len() {
        let tier = next_tier(
            alloc,
            graph,
            order,
            successors,
            found,
            &mut parents,
            &visits,
            from,
            steps,
        )?;
        from = visits.len();
        level += 1;
        add_tier(&mut visits, &tier, &parents, level)?;
    }
    Ok(visits)
}

// The nodes that edges lead to from the visits from a position on, and that aren't found yet, in order. They are found then, and for each the position of
// the first of these visits, counted from 1, stands among the parents.
fn next_tier<L: Ledger, G: Edges>(
    alloc: Global,
    graph: &mut G,
    order: &Order,
    successors: &mut Successors,
    found: &mut Row,
    parents: &mut Vec<u32>,
    visits: &[LevelVisit],
    from: usize,
    steps: &mut Steps<L>,
) -> Result<Vec<u32>, AllocError>
    requires order { IsOrder (G.edge graph.old) (G.count graph.old) order.now.nodes.items order.now.ranks.items }
    requires few { length order.now.nodes.items < 2 ^ 32 }
    requires known { AreSuccessors (G.edge graph.old) order.now successors.old }
    requires found { length found.old ≡ length order.now.nodes.items }
    requires parents { length parents.old.items ≡ length order.now.nodes.items }
    requires within { All (λ v. v.node < length order.now.nodes.items) visits.now }
    requires short { length visits.now < 2 ^ 32 }
    requires start { from ≤ length visits.now }
    ensures same { graph.new ≡ graph.old }
    ensures known { OnOk result (AreSuccessors (G.edge graph.old) order.now successors.new) }
    ensures tier { IfOk result (λ tier. IsTier (Follows (G.edge graph.old) order.now.nodes.items) visits.now from found.old found.new parents.new.items tier.items) }
    ensures asked { steps.new ≤ steps.old + (length visits.now - from) }
{
    let mut tier = Vec::new(alloc);
    for place in from..visits.len() {
        let node = node_at(visits, place);
        successors.learn(graph, order, node, steps)?;
        mark(
            successors.of(node),
            place as u32 + 1,
            found,
            parents,
            &mut tier,
        )?;
    }
    tier.sort_unstable();
    tier.dedup();
    Ok(tier)
}

// The node of a visit.
fn node_at(visits: &[LevelVisit], place: usize) -> u32
    requires { place < length visits.now }
    ensures { (v : Visit_) → slice_get visits.now place ≡ Some v → result ≡ v.node }
{
    visits[place].node
}

// Finds the nodes of a list that aren't found yet, and gives them this parent.
fn mark(
    next: &[u32],
    parent: u32,
    found: &mut Row,
    parents: &mut Vec<u32>,
    tier: &mut Vec<u32>,
) -> Result<(), AllocError>
    requires below { AreBelow (length found.old) next.now }
    requires capacity { length parents.old.items ≡ length found.old }
    ensures marked { OnOk result (MarksNewNodes parent next.now (length next.now) found.old parents.old.items tier.old.items found.new parents.new.items tier.new.items) }
    ensures capacity { length parents.new.items ≡ length found.new }
    ensures long { length found.new ≡ length found.old }
{
    for place in 0..next.len() {
        let node = next[place];
        if found.get(node as usize) {
            continue;
        }
        found.set(node as usize);
        parents[node as usize] = parent;
        tier.push(node)?;
    }
    Ok(())
}

// Adds visits of these nodes at a level, each with its parent.
fn add_tier(
    visits: &mut Vec<LevelVisit>,
    tier: &[u32],
    parents: &[u32],
    level: u32,
) -> Result<(), AllocError>
    requires { AreBelow (length parents.now) tier.now }
    ensures { OnOk result (visits.new.items ≡ visits.old.items ++ map (levelled level parents.now) tier.now) }
{
    for place in 0..tier.len() {
        let node = tier[place];
        visits.push(LevelVisit {
            node,
            level,
            parent: parents[node as usize],
        })?;
    }
    Ok(())
}
