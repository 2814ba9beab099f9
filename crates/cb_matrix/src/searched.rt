//! Problems that are put into their groups, each with its code from a search. Most problems cause few nodes, so that a search visits less than a row of all
//! nodes takes; where the visits become many, the problems that are left get rows, which take over what other problems cause.
ghost use Rattle.std.specs.Prelude.{◌≡◌, ◌≤◌, ◌+◌, ◌⊎◌, ℕ, length, take, IfOk, OnOk};
ghost use Rattle.std.specs.List.{All};
ghost use Rattle.cb_breadth.specs.Trees.{CountsReached};
ghost use Rattle.cb_change.specs.Costs.{IsOpenCost};
ghost use Rattle.cb_codes.specs.Grouped.{FitsTogether};
ghost use Rattle.cb_graph.specs.Edges.{EdgeAt};
ghost use Rattle.cb_topo.specs.Numbered.{topology_of, IsLiveNode, IsWhole};
ghost use Rattle.cb_cache.specs.Numbers.{AreOnce, AreProblemNumbers};
ghost use Rattle.cb_cache.specs.Rows.{CostInSomeOrder};
ghost use Rattle.cb_matrix.specs.Coded.{AddsCodedProblems, AreGroupedAt, IsCodeFrom};
ghost use Rattle.cb_matrix.specs.Searched.{CostsWithin, IsSearcher};

use crate::coded::add_by_rows;
use crate::visited::code_of_visits;
use cb_breadth::{Order, Searches, tree};
use cb_cache::Rows;
use cb_codes::Grouping;
use cb_compact::CompactRow;
use cb_graph::Graph;
use cb_nodes::NodeId;
use cb_steps::Steps;
use cb_topo::{ColumnIndex, Topology};
use std::alloc::{AllocError, Global};
use std::sync::ledger::Ledger;

// Rows are made for the problems that are left once there were this many visits for each number of a node, and `VISITS_BESIDES` more. Up to
// there searches cost less.
const VISITS_EACH: usize = 8;

const VISITS_BESIDES: usize = 4_096;

/// What searches from one problem after the other share.
#[derive(Drop)]
pub(crate) struct Searcher {
    /// All nodes by their numbers.
    pub order: Order,
    /// What is known of successors.
    pub searches: Searches,
    /// A buffer for the columns of a code.
    pub list: Vec<u32>,
    /// How many visits are left until rows cost less.
    pub left: usize,
}

impl Searcher {
    /// Nothing is searched yet.
    pub fn new(alloc: Global, topology: &Topology) -> Result<Searcher, AllocError>
        ensures new { IfOk result (IsSearcher topology.now) }
        ensures whole { IsWhole topology.now }
    {
        let capacity = topology.node_capacity();
        let order = Order::by_number(alloc, capacity)?;
        let searches = Searches::new(alloc, &order)?;
        Ok(Searcher {
            order,
            searches,
            list: Vec::new(alloc),
            left: VISITS_EACH * capacity + VISITS_BESIDES,
        })
    }

    /// The code of a node over the columns, by a search from it.
    pub fn code_of<L: Ledger>(
        &mut self,
        alloc: Global,
        graph: &mut Graph,
        columns: &ColumnIndex,
        node: NodeId,
        steps: &mut Steps<L>,
    ) -> Result<CompactRow, AllocError>
        requires live { IsLiveNode graph.old node }
        requires searcher { IsSearcher graph.old self.old }
        ensures same { graph.new ≡ graph.old }
        ensures searcher { OnOk result (IsSearcher graph.old self.new) }
        ensures code { IfOk result (IsCodeFrom graph.old columns.now node) }
        ensures reached { CountsReached (EdgeAt graph.old) node.0 (length graph.old.nodes) steps.old steps.new }
    {
        // All numbers of nodes are below it, and it is not great.
        let _capacity = graph.topology().node_capacity();
        let visits = tree(alloc, graph, &self.order, &mut self.searches, node.0, steps)?;
        self.left = self.left.saturating_sub(visits.len());
        code_of_visits(alloc, columns, &self.order, &visits, &mut self.list)
    }
}

/// The problems of these numbers, which are all, in the groups of their codes over the columns.
pub(crate) fn search_groups<L: Ledger>(
    alloc: Global,
    graph: &mut Graph,
    columns: &ColumnIndex,
    nodes: &[NodeId],
    steps: &mut Steps<L>,
) -> Result<Grouping, AllocError>
    requires { AreProblemNumbers graph.old nodes.now }
    ensures same { graph.new ≡ graph.old }
    ensures groups { IfOk result (AreGroupedAt graph.old columns.now nodes.now) }
    ensures cost { (cost : ℕ) → IsOpenCost (topology_of graph.old) cost → steps.new ≤ steps.old + cost }
{
    // The topology is whole.
    let _capacity = graph.topology().node_capacity();
    let mut grouping = Grouping::of_quiet(alloc, columns.len())?;
    let done = add_searched(alloc, graph, columns, nodes, &mut grouping, steps)?;
    add_rest(alloc, graph, columns, &nodes[done..], &mut grouping, steps)?;
    Ok(grouping)
}

// Adds the first of these problems, as many as searches cost less for than rows do: how many is the answer.
fn add_searched<L: Ledger>(
    alloc: Global,
    graph: &mut Graph,
    columns: &ColumnIndex,
    nodes: &[NodeId],
    grouping: &mut Grouping,
    steps: &mut Steps<L>,
) -> Result<usize, AllocError>
    requires live { All (IsLiveNode graph.old) nodes.now }
    requires sound { FitsTogether (length columns.now) grouping.old }
    ensures same { graph.new ≡ graph.old }
    ensures within { IfOk result (λ done. done ≤ length nodes.now) }
    ensures adds { IfOk result (λ done. AddsCodedProblems graph.old columns.now (take done nodes.now) grouping.old grouping.new) }
    ensures sound { OnOk result (FitsTogether (length columns.now) grouping.new) }
    ensures cost { IfOk result (λ done. CostsWithin graph.old (take done nodes.now) steps.old steps.new) }
    ensures part { (count : ℕ) × CostsWithin graph.old (take count nodes.now) steps.old steps.new }
{
    let mut searcher = Searcher::new(alloc, graph.topology())?;
    let mut done = 0;
    while done < nodes.len() && searcher.left > 0 {
        let node = nodes[done];
        let name = graph.topology().copy_name(alloc, node)?;
        let code = searcher.code_of(alloc, graph, columns, node, steps)?;
        grouping.add(alloc, name, code)?;
        done += 1;
    }
    Ok(done)
}

// Adds the other problems, by rows.
fn add_rest<L: Ledger>(
    alloc: Global,
    graph: &mut Graph,
    columns: &ColumnIndex,
    nodes: &[NodeId],
    grouping: &mut Grouping,
    steps: &mut Steps<L>,
) -> Result<(), AllocError>
    requires live { All (IsLiveNode graph.old) nodes.now }
    requires once { AreOnce nodes.now }
    requires sound { FitsTogether (length columns.now) grouping.old }
    ensures same { graph.new ≡ graph.old }
    ensures adds { OnOk result (AddsCodedProblems graph.old columns.now nodes.now grouping.old grouping.new) }
    ensures cost { (steps.new ≡ steps.old) ⊎ CostInSomeOrder graph.old nodes.now steps.old steps.new }
{
    if nodes.is_empty() {
        return Ok(());
    }
    // All numbers of nodes are below it, and it is not great.
    let _capacity = graph.topology().node_capacity();
    let rows = Rows::of(alloc, graph, nodes, steps)?;
    add_by_rows(alloc, graph.topology(), &rows, columns, nodes, grouping)
}
