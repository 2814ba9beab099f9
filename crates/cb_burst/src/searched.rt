//! A topology that was searched from each of its problems.
ghost use Rattle.std.specs.Prelude.{List as Items, ◌≡◌, ◌≤◌, ◌+◌, ℕ, length, IfOk};
ghost use Rattle.cb_model.specs.declared.node.NodeName.{NodeName as Name};
ghost use Rattle.cb_model.specs.Order.{Rises};
ghost use Rattle.cb_model.specs.NodeOrder.{node_cmp};
ghost use Rattle.cb_network.specs.Nodes.{AreColumns};
ghost use Rattle.cb_network.specs.Sound.{problem_limit, symptom_limit};
ghost use Rattle.cb_change.specs.Costs.{IsOpenCost};
ghost use Rattle.cb_finding.specs.Finding.{IsBurst};
ghost use Rattle.cb_finding.specs.Matrix.{IsMatrix};
ghost use Rattle.cb_topo.specs.Numbered.{topology_of, AreNamed};
ghost use Rattle.cb_decode.specs.Found.{IsWordOf};
ghost use Rattle.cb_burst.specs.Searched.{IsSmallMatrixOf};

use crate::named::NamedMatrix;
use cb_codes::Groups;
use cb_decode::{RaisedWord, find};
use cb_finding::Finding;
use cb_graph::Graph;
use cb_matrix::{Matrix, names_of};
use cb_model::{List, NodeName};
use cb_reduce::whole_book;
use cb_steps::Steps;
use cb_topo::Topology;
use std::alloc::{AllocError, Global};
use std::marker::Model;
use std::sync::ledger::Ledger;

/// A topology that was searched from each of its problems: its matrix, and what is found in it for raised nodes.
#[derive(Drop)]
pub struct SearchedNetwork {
    graph: Graph,
    matrix: Matrix,
}

impl Model for SearchedNetwork {
    ghost use Rattle.cb_burst.specs.Searched.{SearchedParts, IsSmallMatrixOf};
    ghost use Rattle.cb_burst.specs.Encoding.{searched_encoding};

    ghost Value = { SearchedParts };

    ghost coded = { searched_encoding };

    ghost view = { λ s. record { network = s.graph; matrix = s.matrix } };

    ghost invariant = { λ s. IsSmallMatrixOf s.graph s.matrix };
}

impl SearchedNetwork {
    /// Searches the topology. Where memory runs out, the topology is dropped.
    pub fn of<L: Ledger>(
        alloc: Global,
        topology: Topology,
        steps: &mut Steps<L>,
    ) -> Result<SearchedNetwork, AllocError>
        ensures network { IfOk result (λ searched. searched.network ≡ topology) }
        ensures cost { (cost : ℕ) → IsOpenCost (topology_of topology) cost → steps.new ≤ steps.old + cost }
    {
        let mut graph = Graph::new(alloc, topology)?;
        match Matrix::search(alloc, &mut graph, steps) {
            Ok(matrix) => Ok(SearchedNetwork { graph, matrix }),
            Err(out_of_memory) => {
                drop(graph);
                Err(out_of_memory)
            }
        }
    }

    /// The matrix of the topology.
    pub fn matrix(&self) -> &Matrix
        ensures same { result.now ≡ self.now.matrix }
        ensures small { IsSmallMatrixOf self.now.network result.now }
    {
        &self.matrix
    }

    // The topology.
    fn topology(&self) -> &Topology
        ensures { result.now ≡ self.now.network }
    {
        self.graph.topology()
    }

    /// What the raised nodes are over the columns.
    pub fn raised_word(
        &self,
        alloc: Global,
        raised: &List<NodeName>,
    ) -> Result<RaisedWord, AllocError>
        requires { Rises node_cmp raised.now }
        ensures { IfOk result (λ word. (columns : Items Name) → AreColumns (topology_of self.now.network) columns → IsWordOf columns raised.now word) }
    {
        RaisedWord::of(alloc, self.topology(), self.matrix().columns(), raised)
    }

    /// The groups that are nearest to the raised nodes, over all columns.
    pub fn find(&self, alloc: Global, raised: &List<NodeName>) -> Result<Finding, AllocError>
        requires { Rises node_cmp raised.now }
        ensures { IfOk result (IsBurst (topology_of self.now.network) raised.now) }
    {
        let matrix = self.matrix();
        let book = whole_book(alloc, matrix.codes())?;
        let word = self.raised_word(alloc, raised)?;
        find(alloc, matrix.coded_groups(), &book, &word)
    }

    /// The graph of the topology. The matrix is dropped.
    pub fn into_graph(self) -> Graph
        ensures { result ≡ self.network }
    {
        let SearchedNetwork { graph, matrix } = self;
        drop(matrix);
        graph
    }

    /// What is written of the matrix. Only here are names copied. All else is dropped.
    pub fn into_named(self, alloc: Global) -> Result<NamedMatrix, AllocError>
        ensures matrix { IfOk result (λ named. IsMatrix (topology_of self.network) named.columns named.groups.groups) }
        ensures width { IfOk result (λ named. named.groups.width ≡ length named.columns) }
        ensures few_columns { IfOk result (λ named. length named.columns ≤ symptom_limit) }
        ensures few_groups { IfOk result (λ named. length named.groups.groups ≤ problem_limit + 1) }
    {
        let names = self.column_names(alloc);
        let groups = self.into_groups();
        match names {
            Ok(columns) => Ok(NamedMatrix { columns, groups }),
            Err(out_of_memory) => {
                drop(groups);
                Err(out_of_memory)
            }
        }
    }

    // The names of the columns.
    fn column_names(&self, alloc: Global) -> Result<List<NodeName>, AllocError>
        ensures { IfOk result (AreNamed self.now.network self.now.matrix.columns) }
    {
        names_of(alloc, self.topology(), self.matrix().columns().nodes())
    }

    // The groups with their codes. All else is dropped.
    fn into_groups(self) -> Groups
        ensures small { IsSmallMatrixOf self.network self.matrix }
        ensures width { result.width ≡ length self.matrix.columns }
        ensures groups { result.groups ≡ self.matrix.groups }
    {
        let SearchedNetwork { graph, matrix } = self;
        drop(graph);
        matrix.into_groups()
    }
}
