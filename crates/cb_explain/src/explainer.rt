//! The shortest chains from a problem to the columns that it causes, for one problem after the other.
ghost use Rattle.std.specs.Prelude.{◌≡◌, ◌<◌, ◌^◌, ◌++◌, [], ◌∷◌, ℕ, List as Items, Some, length, slice_get, IfOk, IfSome, IfNone, OnOk};
ghost use Rattle.cb_model.specs.declared.node.NodeName.{NodeName as Name};
ghost use Rattle.cb_topo.specs.Numbered.{IsNodeNamed, AreNamed};
ghost use Rattle.cb_span.specs.Orders.{AreRanked};
ghost use Rattle.cb_span.specs.Made.{IsProblemId};
ghost use Rattle.cb_explain.specs.Levelled.{AreRanksBelow, IsRankVisited};
ghost use Rattle.cb_explain.specs.Explained.{IsExplainerOf, HasSearched, HasChainsTo, IsNameOnChain, KeepsNodesOnChains, CountsCaused};
ghost use Rattle.cb_explain.specs.Chained.{HavePositions, AreVisitedOnce, IsEndOf, AreEndsOf, ends_in};

use crate::search::rank_of;
use cb_bits::Row;
use cb_breadth::{LevelVisit, Order, Searches, level_tree};
use cb_chains::{ChainTree, NodeNames};
use cb_graph::Graph;
use cb_model::List;
use cb_nodes::NodeId;
use cb_span::{Numbering, numbering_of, order_of};
use cb_steps::Steps;
use cb_topo::Topology;
use std::alloc::{AllocError, Global};
use std::sync::ledger::Ledger;

/// Finds chains by searches of one topology, one after the other. They share the successors of the nodes that they visit. After an `Err` it is of
/// no more use.
#[derive(Drop)]
pub struct Explainer {
    // All nodes in order.
    order: Order,
    // What the searches share.
    searches: Searches,
    // For the rank of each node that the last search visited the position of its visit. What stands at other ranks doesn't matter.
    positions: Vec<u32>,
    // For each rank whether its node is on a chain that was found.
    used: Row,
}

impl Explainer {
    /// For the nodes of a topology. Nothing is searched yet.
    pub fn new(alloc: Global, topology: &Topology) -> Result<Explainer, AllocError>
        ensures { IfOk result (IsExplainerOf topology.now) }
    {
        let order = order_of(alloc, topology)?;
        let searches = Searches::new(alloc, &order)?;
        let positions = vec![in alloc; 0_u32; order.nodes.len()]?;
        let used = Row::zeroed(alloc, order.nodes.len())?;
        Ok(Explainer {
            order,
            searches,
            positions,
            used,
        })
    }

    /// The short chains from a problem to those of these columns that it causes, in the order of the columns. The graph's value stays as it is.
    pub fn chains_to<L: Ledger>(
        &mut self,
        alloc: Global,
        graph: &mut Graph,
        problem: NodeId,
        columns: &List<NodeId>,
        steps: &mut Steps<L>,
    ) -> Result<ChainTree, AllocError>
        requires explainer { IsExplainerOf graph.old self.old }
        requires problem { IsProblemId graph.old problem }
        requires columns { (names : Items Name) × AreNamed graph.old columns.now names }
        ensures same { graph.new ≡ graph.old }
        ensures chains { IfOk result (λ tree. (p : Name) (names : Items Name) → IsNodeNamed graph.old problem p → AreNamed graph.old columns.now names
            → HasChainsTo graph.old self.new p names tree) }
        ensures explainer { OnOk result (IsExplainerOf graph.old self.new) }
        ensures kept { OnOk result (KeepsNodesOnChains self.old self.new) }
        ensures asked { CountsCaused graph.old problem steps.old steps.new }
    {
        let visits = self.search(alloc, graph, problem, steps)?;
        let ends = ends_of(alloc, &self.order, &visits, &self.positions, columns)?;
        ChainTree::of(alloc, &visits, &ends, &mut self.used)
    }

    // Searches what a problem causes.
    fn search<L: Ledger>(
        &mut self,
        alloc: Global,
        graph: &mut Graph,
        problem: NodeId,
        steps: &mut Steps<L>,
    ) -> Result<Vec<LevelVisit>, AllocError>
        requires explainer { IsExplainerOf graph.old self.old }
        requires problem { IsProblemId graph.old problem }
        ensures same { graph.new ≡ graph.old }
        ensures searched { IfOk result (λ visits. (p : Name) → IsNodeNamed graph.old problem p → HasSearched graph.old p self.new visits.items) }
        ensures order { self.new.order ≡ self.old.order }
        ensures used { self.new.used ≡ self.old.used }
        ensures asked { CountsCaused graph.old problem steps.old steps.new }
    {
        let root = rank_of(&self.order, problem);
        let visits = level_tree(alloc, graph, &self.order, &mut self.searches, root, steps)?;
        set_positions(&visits, &mut self.positions);
        Ok(visits)
    }

    /// The names of the nodes on all chains that were found.
    pub fn into_names(self, alloc: Global, topology: &Topology) -> Result<NodeNames, AllocError>
        requires { IsExplainerOf topology.now self }
        ensures { IfOk result (λ names. (node : ℕ) (name : Name) → IsNameOnChain topology.now self node name → slice_get names node ≡ Some (Some name)) }
    {
        let Explainer {
            order,
            searches,
            positions,
            used,
        } = self;
        // Their memory is given back before that of the names is taken.
        drop(searches);
        drop(positions);
        let numbering = numbering_of(alloc, topology, &order, &used)?;
        let Numbering { names, numbers } = numbering;
        Ok(NodeNames::of(names, numbers))
    }
}

// Notes the position of each visit at the rank of its node.
fn set_positions(visits: &[LevelVisit], positions: &mut Vec<u32>)
    requires few { length visits.now < 2 ^ 32 }
    requires below { AreRanksBelow (length positions.old.items) visits.now }
    requires once { AreVisitedOnce visits.now }
    ensures positions { HavePositions visits.now positions.new.items }
    ensures size { length positions.new.items ≡ length positions.old.items }
{
    for position in 0..visits.len() {
        positions[visits[position].node as usize] = position as u32;
    }
}

// Where those of these nodes that are visited end, in their order.
fn ends_of(
    alloc: Global,
    order: &Order,
    visits: &[LevelVisit],
    positions: &[u32],
    nodes: &List<NodeId>,
) -> Result<Vec<u32>, AllocError>
    requires ranked { AreRanked order.now nodes.now }
    requires few { length visits.now < 2 ^ 32 }
    requires size { length positions.now ≡ length order.now.nodes.items }
    requires positions { HavePositions visits.now positions.now }
    ensures { IfOk result (λ ends. AreEndsOf order.now visits.now nodes.now ends.items) }
{
    let mut ends = Vec::new(alloc);
    for at in 0..nodes.len() {
        let rank = rank_of(order, *nodes.at(at));
        push_end(&mut ends, end_of(visits, positions, rank))?;
    }
    Ok(ends)
}

// The position of the visit of a rank's node, counted from 1, if the node is visited.
fn end_of(visits: &[LevelVisit], positions: &[u32], rank: u32) -> Option<u32>
    requires few { length visits.now < 2 ^ 32 }
    requires positions { HavePositions visits.now positions.now }
    requires rank { rank < length positions.now }
    ensures found { IfSome result (IsEndOf visits.now rank) }
    ensures none { IfNone result (¬ IsRankVisited visits.now rank) }
{
    // It may be that of an earlier search.
    let position = positions[rank as usize];
    if (position as usize) < visits.len() && visits[position as usize].node == rank {
        Some(position + 1)
    } else {
        None
    }
}

// Adds an end, if there is one.
fn push_end(ends: &mut Vec<u32>, found: Option<u32>) -> Result<(), AllocError>
    ensures { OnOk result (ends.new.items ≡ ends.old.items ++ ends_in (found ∷ [])) }
{
    match found {
        Some(end) => {
            ends.push(end)?;
            Ok(())
        }
        None => Ok(()),
    }
}
