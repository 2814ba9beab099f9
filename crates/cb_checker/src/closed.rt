//! Whether a span lists all successors.
ghost use Rattle.std.specs.Prelude.{◌≡◌, ◌<◌, ◌+◌, ℕ, length, IfOk};
ghost use Rattle.std.specs.List.{Contains};
ghost use Rattle.cb_topo.specs.Numbered.{IsLiveNode};
ghost use Rattle.cb_graph.specs.Edges.{number};
ghost use Rattle.cb_checker.specs.Known.{AreLive};
ghost use Rattle.cb_checker.specs.Listed.{AreMarked};
ghost use Rattle.cb_checker.specs.Missing.{IsLeastMissing, IsLeastUnlisted, IsLesser};
ghost use Rattle.cb_checker.specs.Spans.{JudgesClosed};

use crate::marks::SpanNodes;
use cb_bits::Row;
use cb_graph::Graph;
use cb_model::NodeName;
use cb_nodes::NodeId;
use cb_steps::Steps;
use cb_successors::Edges;
use cb_topo::Topology;
use cb_validity::Rejected;
use std::alloc::{AllocError, Global};
use std::sync::ledger::Ledger;

/// Checks that the successors of each listed node are listed, and gives the first entry that lacks one.
pub(crate) fn check_closed<L: Ledger>(
    alloc: Global,
    graph: &mut Graph,
    before: u32,
    marks: &mut SpanNodes,
    steps: &mut Steps<L>,
) -> Result<(), Rejected>
    requires live { AreLive graph.old marks.old.placed.items }
    requires few { before + length marks.old.placed.items < 4294967296 }
    requires marked { AreMarked graph.old marks.old }
    ensures same { graph.new ≡ graph.old }
    ensures judges { JudgesClosed graph.old marks.old.placed.items before result }
    ensures placed { marks.new.placed ≡ marks.old.placed }
    ensures listed { marks.new.listed ≡ marks.old.listed }
    ensures spare { length marks.new.found ≡ length marks.old.found }
{
    for place in 0..marks.placed.len() {
        let Ok(missing) = missing(alloc, graph, marks.placed[place], marks, steps) else {
            return Err(Rejected::NoMemory);
        };
        if let Some(successor) = missing {
            return Err(Rejected::NotClosed {
                entry: before + place as u32 + 1,
                successor,
            });
        }
    }
    Ok(())
}

// The least successor of the node that isn't listed.
fn missing<L: Ledger>(
    alloc: Global,
    graph: &mut Graph,
    node: NodeId,
    marks: &mut SpanNodes,
    steps: &mut Steps<L>,
) -> Result<Option<NodeName>, AllocError>
    requires node { IsLiveNode graph.old node }
    requires marked { AreMarked graph.old marks.old }
    ensures same { graph.new ≡ graph.old }
    ensures least { IfOk result (IsLeastMissing graph.old node.0 marks.old.listed) }
    ensures placed { marks.new.placed ≡ marks.old.placed }
    ensures listed { marks.new.listed ≡ marks.old.listed }
    ensures spare { length marks.new.found ≡ length marks.old.found }
{
    graph.list_successors(node.0 as usize, &mut marks.successors, steps)?;
    least_unlisted(alloc, graph.topology(), &marks.successors, &marks.listed)
}

// The least of these nodes that isn't listed.
fn least_unlisted(
    alloc: Global,
    topology: &Topology,
    nodes: &[usize],
    listed: &Row,
) -> Result<Option<NodeName>, AllocError>
    requires live { (k : ℕ) → Contains nodes.now k → IsLiveNode topology.now (number k) }
    requires listed { length listed.now ≡ length topology.now.nodes }
    ensures { IfOk result (IsLeastUnlisted topology.now nodes.now listed.now) }
{
    // Numbers of nodes are below it, and it is small.
    let _capacity = topology.node_capacity();
    let mut least = None;
    for place in 0..nodes.len() {
        let node = nodes[place];
        if !listed.get(node) {
            let name = topology.copy_name(alloc, NodeId(node as u32))?;
            least = Some(lesser(least, name));
        }
    }
    Ok(least)
}

// The lesser of two names, if there are two.
fn lesser(least: Option<NodeName>, name: NodeName) -> NodeName
    ensures { IsLesser least name result }
{
    match least {
        Some(least) => { if least < name { least } else { name } }
        None => name,
    }
}
