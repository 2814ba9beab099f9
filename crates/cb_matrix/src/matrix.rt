//! The matrix of a topology.
ghost use Rattle.std.specs.Prelude.{◌≡◌, ◌<◌, ◌≤◌, ◌+◌, ℕ, length, IfOk, Some, slice_get};
ghost use Rattle.cb_coding.specs.Groups.{codes_of};
ghost use Rattle.cb_codes.specs.Groups.{named_of};
ghost use Rattle.cb_network.specs.Sound.{problem_limit, symptom_limit};
ghost use Rattle.cb_change.specs.Costs.{IsOpenCost};
ghost use Rattle.cb_topo.specs.Columns.{AreAllColumns};
ghost use Rattle.cb_topo.specs.Numbered.{topology_of};
ghost use Rattle.cb_codes.specs.Grouped.{FitsTogether, groups_in};
ghost use Rattle.cb_matrix.specs.Matrix.{IsMatrixOf};
ghost use Rattle.cb_matrix.specs.Parts.{codes_at, HaveCodePlaces};

use crate::problems::GroupedProblems;
use cb_cache::Cache;
use cb_codes::{Codes, Groups};
use cb_compact::CompactRow;
use cb_graph::Graph;
use cb_model::{List, NamedGroup};
use cb_nodes::NodeId;
use cb_steps::Steps;
use cb_topo::ColumnIndex;
use std::alloc::{AllocError, Global};
use std::marker::Model;
use std::sync::ledger::Ledger;

/// What each problem makes visible: the columns in order, the problems in order, each with its code over the columns, and the
/// groups of problems that no column tells apart, each with its code. The first group is the quiet one, whose problems no
/// column shows. A code is kept once, with its group. Columns and problems are known by the numbers that their nodes have in
/// the topology, which has their names.
#[derive(Drop)]
pub struct Matrix {
    columns: ColumnIndex,
    problems: List<NodeId>,
    // For each problem the position of its group.
    places: List<usize>,
    groups: Groups,
}

impl Model for Matrix {
    ghost use Rattle.cb_coding.specs.Groups.{codes_of};
    ghost use Rattle.cb_matrix.specs.Parts.{Parts, codes_at, AreParts};

    ghost Value = { Parts };

    ghost view = { λ m. record { columns = m.columns; problems = m.problems; codes = codes_at (codes_of m.groups.groups) m.places; groups = m.groups.groups } };

    ghost invariant = { λ m. AreParts m.columns m.problems m.places m.groups };
}

impl Matrix {
    /// The matrix of the cache's topology.
    pub fn of(alloc: Global, cache: &Cache) -> Result<Matrix, AllocError>
        ensures matrix { IfOk result (IsMatrixOf cache.now.graph) }
        ensures few_columns { IfOk result (λ matrix. length matrix.columns ≤ symptom_limit) }
        ensures few_groups { IfOk result (λ matrix. length matrix.groups ≤ problem_limit + 1) }
    {
        let columns = cache.graph().topology().column_index(alloc)?;
        Matrix::over(alloc, cache, columns)
    }

    /// As `of`, by an index of the topology's columns that was made before.
    pub fn over(alloc: Global, cache: &Cache, columns: ColumnIndex) -> Result<Matrix, AllocError>
        requires { AreAllColumns cache.now.graph columns }
        ensures matrix { IfOk result (IsMatrixOf cache.now.graph) }
        ensures columns { IfOk result (λ matrix. matrix.columns ≡ columns) }
        ensures few_columns { IfOk result (λ matrix. length matrix.columns ≤ symptom_limit) }
        ensures few_groups { IfOk result (λ matrix. length matrix.groups ≤ problem_limit + 1) }
    {
        let grouped = GroupedProblems::of(alloc, cache, &columns)?;
        Ok(matrix_of(alloc, columns, grouped))
    }

    /// The matrix of the graph's topology, for which each problem is searched from once. No rows stay in memory.
    pub fn search<L: Ledger>(
        alloc: Global,
        graph: &mut Graph,
        steps: &mut Steps<L>,
    ) -> Result<Matrix, AllocError>
        ensures same { graph.new ≡ graph.old }
        ensures matrix { IfOk result (IsMatrixOf graph.old) }
        ensures few_columns { IfOk result (λ matrix. length matrix.columns ≤ symptom_limit) }
        ensures few_groups { IfOk result (λ matrix. length matrix.groups ≤ problem_limit + 1) }
        ensures cost { (cost : ℕ) → IsOpenCost (topology_of graph.old) cost → steps.new ≤ steps.old + cost }
    {
        let columns = graph.topology().column_index(alloc)?;
        let grouped = GroupedProblems::search(alloc, graph, &columns, steps)?;
        Ok(matrix_of(alloc, columns, grouped))
    }

    /// The numbers of the columns, in the order of their names, with the position of each.
    pub fn columns(&self) -> &ColumnIndex
        ensures { result.now ≡ self.now.columns }
    {
        &self.columns
    }

    /// The numbers of the problems, in the order of their names.
    pub fn problems(&self) -> &List<NodeId>
        ensures { result.now ≡ self.now.problems }
    {
        &self.problems
    }

    /// The code of the problem at a position.
    pub fn row(&self, problem: usize) -> &CompactRow
        requires { problem < length self.now.problems }
        ensures { slice_get self.now.codes problem ≡ Some result.now }
    {
        self.groups.codes().row(*self.places.at(problem))
    }

    /// The groups by their members.
    pub fn groups(&self) -> &List<NamedGroup>
        ensures { result.now ≡ named_of self.now.groups }
    {
        self.groups.named()
    }

    /// The code of each group.
    pub fn codes(&self) -> &Codes
        ensures width { result.now.width ≡ length self.now.columns }
        ensures rows { result.now.rows ≡ codes_of self.now.groups }
    {
        self.groups.codes()
    }

    /// The groups with their codes.
    pub fn coded_groups(&self) -> &Groups
        ensures width { result.now.width ≡ length self.now.columns }
        ensures groups { result.now.groups ≡ self.now.groups }
    {
        &self.groups
    }

    /// The groups with their codes. All else is dropped.
    pub fn into_groups(self) -> Groups
        ensures width { result.width ≡ length self.columns }
        ensures groups { result.groups ≡ self.groups }
    {
        self.groups
    }
}

// The matrix of these columns, with the problems in their groups.
fn matrix_of(alloc: Global, columns: ColumnIndex, grouped: GroupedProblems) -> Matrix
    requires sound { FitsTogether (length columns) grouped.grouping }
    requires places { HaveCodePlaces grouped.problems grouped.grouping }
    ensures columns { result.columns ≡ columns }
    ensures problems { result.problems ≡ grouped.problems }
    ensures codes { result.codes ≡ codes_at grouped.grouping.codes.codes.rows grouped.grouping.places }
    ensures groups { result.groups ≡ groups_in grouped.grouping }
{
    let GroupedProblems { problems, grouping } = grouped;
    Matrix {
        columns,
        problems,
        places: grouping.places,
        groups: Groups::of(grouping.codes.into_codes(alloc), List::of(grouping.named)),
    }
}
