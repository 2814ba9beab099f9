//! The lines of a matrix, and of what is found for raised nodes.
ghost use Rattle.std.specs.Prelude.{◌≡◌, ◌≤◌, ◌+◌, ℕ, length, IfOk};
ghost use Rattle.cb_model.specs.Order.{Rises};
ghost use Rattle.cb_model.specs.NodeOrder.{node_cmp};
ghost use Rattle.cb_network.specs.Sound.{problem_limit, symptom_limit};
ghost use Rattle.cb_change.specs.Costs.{IsOpenCost};
ghost use Rattle.cb_finding.specs.declared.finding.Finding.{Finding};
ghost use Rattle.cb_finding.specs.Finding.{IsBurst};
ghost use Rattle.cb_topo.specs.Numbered.{topology_of};
ghost use Rattle.cb_report.specs.Lines.{burst_text as text_of_burst};
ghost use Rattle.cb_outcome.specs.Jobs.{MatrixGives};
ghost use Rattle.cb_outcome.specs.Outcome.{done};
ghost use Rattle.cb_network_commands.specs.Written.{IsMatrixText};

use cb_burst::{NamedMatrix, SearchedNetwork};
use cb_model::{List, NodeName};
use cb_reduce::least;
use cb_report::{MatrixLines, burst_text};
use cb_steps::Steps;
use cb_topo::Topology;
use std::alloc::{AllocError, Global};
use std::sync::ledger::Ledger;

/// The lines of what is found for the raised nodes.
pub(crate) fn lines_of_burst<L: Ledger>(
    alloc: Global,
    topology: Topology,
    raised: &List<NodeName>,
    steps: &mut Steps<L>,
) -> Result<Vec<u8>, AllocError>
    requires { Rises node_cmp raised.now }
    ensures found { IfOk result (λ bytes. (finding : Finding) × IsBurst (topology_of topology) raised.now finding × (bytes.items ≡ text_of_burst finding)) }
    ensures cost { (cost : ℕ) → IsOpenCost (topology_of topology) cost → steps.new ≤ steps.old + cost }
{
    let network = SearchedNetwork::of(alloc, topology, steps)?;
    let found = network.find(alloc, raised);
    drop(network);
    let finding = found?;
    burst_text(alloc, &finding)
}

/// The lines of the matrix, to be written.
pub(crate) fn lines_of_matrix<L: Ledger>(
    alloc: Global,
    topology: Topology,
    steps: &mut Steps<L>,
) -> Result<MatrixLines, AllocError>
    ensures gives { IfOk result (λ lines. (whole : ℕ) → MatrixGives (topology_of topology) whole (done lines whole)) }
    ensures cost { (cost : ℕ) → IsOpenCost (topology_of topology) cost → steps.new ≤ steps.old + cost }
{
    let network = SearchedNetwork::of(alloc, topology, steps)?;
    let matrix = network.into_named(alloc)?;
    matrix_lines(alloc, matrix)
}

// The lines of a matrix.
fn matrix_lines(alloc: Global, matrix: NamedMatrix) -> Result<MatrixLines, AllocError>
    requires width { matrix.groups.width ≡ length matrix.columns }
    requires few_columns { length matrix.columns ≤ symptom_limit }
    requires few_groups { length matrix.groups.groups ≤ problem_limit + 1 }
    ensures { IfOk result (IsMatrixText matrix.columns matrix.groups.groups) }
{
    let least = least(matrix.groups.codes());
    let NamedMatrix { columns, groups } = matrix;
    MatrixLines::of(alloc, columns, groups, least)
}
