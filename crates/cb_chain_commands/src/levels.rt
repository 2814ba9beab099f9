//! The command `levels`.
ghost use Rattle.std.specs.Prelude.{◌≡◌, ℕ, IfOk, IfSome, IfNone};
ghost use Rattle.cb_topo.specs.Numbered.{topology_of};
ghost use Rattle.cb_levels.specs.declared.levels.Levels.{Levels as CanonicalLevels};
ghost use Rattle.cb_levels.specs.Text.{levels_text};
ghost use Rattle.cb_span.specs.Made.{IsProblemId};
ghost use Rattle.cb_explain.specs.Explained.{CountsCaused};
ghost use Rattle.cb_explain.specs.Levelled.{AreLevelsAt};
ghost use Rattle.cb_outcome.specs.Commands.Levels.{levels as command};
ghost use Rattle.cb_outcome.specs.Costs.{CountsNamed};
ghost use Rattle.cb_outcome.specs.Jobs.{LevelsGives};
ghost use Rattle.cb_file_kinds.specs.Ending.{Comes, outcome_of};
ghost use Rattle.cb_chain_commands.specs.Named.{IsProblemNamed, NamesNoProblem};

use cb_explain::levels_of;
use cb_file_kinds::{Output, read_network};
use cb_graph::Graph;
use cb_io::Files;
use cb_levels::write_levels;
use cb_nodes::NodeId;
use cb_report::{Fault, Text};
use cb_request::{FileName, NodeWord};
use cb_steps::Steps;
use cb_topo::Topology;
use std::alloc::{AllocError, Global};
use std::sync::ledger::Ledger;

/// Reads the two files, and gives what `levels` prints, or that the topology has no such problem.
pub fn levels<'w, F: Files, L: Ledger>(
    alloc: Global,
    files: &mut F,
    model: FileName<'w>,
    topology: FileName<'w>,
    node: NodeWord<'w>,
    steps: &mut Steps<L>,
) -> Result<Output<'w>, Fault<'w>>
    ensures comes { Comes (command model.entry topology.entry node.entry) (F.tells files.old) (F.tells files.new) result }
    ensures steps { (command model.entry topology.entry node.entry).counts (F.tells files.old) (F.tells files.new) steps.old steps.new }
{
    let topology = read_network(alloc, files, model, topology)?;
    let output = levelling(alloc, topology, node, steps)?;
    Ok(output)
}

// The output for a topology.
fn levelling<'w, L: Ledger>(
    alloc: Global,
    topology: Topology,
    word: NodeWord<'w>,
    steps: &mut Steps<L>,
) -> Result<Output<'w>, AllocError>
    ensures gives { IfOk result (λ output. (whole : ℕ) → LevelsGives (topology_of topology) word.entry whole (outcome_of output whole)) }
    ensures cost { CountsNamed (topology_of topology) word.entry steps.old steps.new }
{
    let mut graph = Graph::new(alloc, topology)?;
    let output = levelled(alloc, &mut graph, word, steps);
    drop(graph);
    output
}

// The canonical levels of the problem that the word names, or that there is none.
fn levelled<'w, L: Ledger>(
    alloc: Global,
    graph: &mut Graph,
    word: NodeWord<'w>,
    steps: &mut Steps<L>,
) -> Result<Output<'w>, AllocError>
    ensures gives { IfOk result (λ output. (whole : ℕ) → LevelsGives (topology_of graph.old) word.entry whole (outcome_of output whole)) }
    ensures cost { CountsNamed (topology_of graph.old) word.entry steps.old steps.new }
{
    let Some(problem) = problem_named(graph.topology(), &word) else {
        return Ok(Output {
            text: Text::Bytes(Vec::new(alloc)),
            fault: Some(Fault::NoProblem { node: word }),
        });
    };
    let bytes = text_of_levels(alloc, graph, problem, steps)?;
    Ok(Output {
        text: Text::Bytes(bytes),
        fault: None,
    })
}

// The text of the canonical levels of a problem.
fn text_of_levels<L: Ledger>(
    alloc: Global,
    graph: &mut Graph,
    problem: NodeId,
    steps: &mut Steps<L>,
) -> Result<Vec<u8>, AllocError>
    requires { IsProblemId graph.old problem }
    ensures text { IfOk result (λ bytes. (levels : CanonicalLevels) × AreLevelsAt graph.old problem levels × (bytes.items ≡ levels_text levels)) }
    ensures cost { CountsCaused graph.old problem steps.old steps.new }
{
    let levels = levels_of(alloc, graph, problem, steps)?;
    let text = write_levels(alloc, &levels);
    drop(levels);
    text
}

// The number of the problem that the word names.
fn problem_named(topology: &Topology, word: &NodeWord<'_>) -> Option<NodeId>
    ensures some { IfSome result (IsProblemNamed topology.now word.now) }
    ensures none { IfNone result (NamesNoProblem (topology_of topology.now) word.now) }
{
    let Some((event, instance)) = word.parts() else {
        return None;
    };
    let Some(node) = topology.node_named(event, instance) else {
        return None;
    };
    if topology.is_problem(node) {
        Some(node)
    } else {
        None
    }
}
