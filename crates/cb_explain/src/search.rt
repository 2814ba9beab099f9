//! The canonical levels of a problem, made.
ghost use Rattle.std.specs.Prelude.{◌≡◌, ℕ, IfOk};
ghost use Rattle.cb_span.specs.Orders.{IsRank};
ghost use Rattle.cb_span.specs.Made.{IsProblemId};
ghost use Rattle.cb_explain.specs.Explained.{CountsCaused};
ghost use Rattle.cb_explain.specs.Levelled.{AreLevelsAt};

use crate::written::levels_by;
use cb_breadth::{Order, Searches, level_tree};
use cb_graph::Graph;
use cb_levels::Levels;
use cb_nodes::NodeId;
use cb_span::order_of;
use cb_steps::Steps;
use std::alloc::{AllocError, Global};
use std::sync::ledger::Ledger;

/// The canonical levels of `problem`, by one search. It counts at most as many steps as the problem causes nodes.
pub fn levels_of<L: Ledger>(
    alloc: Global,
    graph: &mut Graph,
    problem: NodeId,
    steps: &mut Steps<L>,
) -> Result<Levels, AllocError>
    requires { IsProblemId graph.old problem }
    ensures same { graph.new ≡ graph.old }
    ensures made { IfOk result (AreLevelsAt graph.old problem) }
    ensures asked { CountsCaused graph.old problem steps.old steps.new }
{
    let order = order_of(alloc, graph.topology())?;
    let mut searches = Searches::new(alloc, &order)?;
    let root = rank_of(&order, problem);
    let visits = level_tree(alloc, graph, &order, &mut searches, root, steps)?;
    levels_by(alloc, graph.topology(), &order, &visits)
}

// The rank of a node that has one.
pub(crate) fn rank_of(order: &Order, node: NodeId) -> u32
    requires { (rank : ℕ) × IsRank order.now node rank }
    ensures { IsRank order.now node result }
{
    order.ranks[node.0 as usize]
}
