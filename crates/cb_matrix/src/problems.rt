//! The problems of a topology in their groups.
ghost use Rattle.std.specs.Prelude.{◌≡◌, ◌≤◌, ◌+◌, ℕ, IfOk};
ghost use Rattle.cb_change.specs.Costs.{IsOpenCost};
ghost use Rattle.cb_topo.specs.Columns.{AreAllColumns};
ghost use Rattle.cb_topo.specs.Numbered.{topology_of};
ghost use Rattle.cb_matrix.specs.Problems.{AreAllGrouped};

use crate::coded::add_by_rows;
use crate::searched::search_groups;
use cb_cache::Cache;
use cb_codes::Grouping;
use cb_graph::Graph;
use cb_model::List;
use cb_nodes::NodeId;
use cb_steps::Steps;
use cb_topo::ColumnIndex;
use std::alloc::{AllocError, Global};
use std::sync::ledger::Ledger;

/// The problems in order, by their numbers, and their groups by the codes over the columns.
#[derive(Drop)]
pub struct GroupedProblems {
    pub problems: List<NodeId>,
    pub grouping: Grouping,
}

impl GroupedProblems {
    /// Those of the cache's topology, by an index of its columns, each code taken from the problem's row.
    pub fn of(
        alloc: Global,
        cache: &Cache,
        columns: &ColumnIndex,
    ) -> Result<GroupedProblems, AllocError>
        requires { AreAllColumns cache.now.graph columns.now }
        ensures { IfOk result (AreAllGrouped cache.now.graph columns.now) }
    {
        let topology = cache.graph().topology();
        // All numbers of nodes are below it, and it is not great.
        let _capacity = topology.node_capacity();
        let problems = topology.problems(alloc)?;
        let nodes = problems.as_slice();
        let mut grouping = Grouping::of_quiet(alloc, columns.len())?;
        add_by_rows(alloc, topology, cache.rows(), columns, nodes, &mut grouping)?;
        Ok(GroupedProblems { problems, grouping })
    }

    /// Those of the graph's topology, by an index of its columns. Each problem is searched from once.
    pub fn search<L: Ledger>(
        alloc: Global,
        graph: &mut Graph,
        columns: &ColumnIndex,
        steps: &mut Steps<L>,
    ) -> Result<GroupedProblems, AllocError>
        requires { AreAllColumns graph.old columns.now }
        ensures same { graph.new ≡ graph.old }
        ensures problems { IfOk result (AreAllGrouped graph.old columns.now) }
        ensures cost { (cost : ℕ) → IsOpenCost (topology_of graph.old) cost → steps.new ≤ steps.old + cost }
    {
        let topology = graph.topology();
        // The topology is whole and sound.
        let _capacity = topology.node_capacity();
        let problems = topology.problems(alloc)?;
        let grouping = search_groups(alloc, graph, columns, problems.as_slice(), steps)?;
        Ok(GroupedProblems { problems, grouping })
    }
}
