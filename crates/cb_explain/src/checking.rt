//! Levels, checked against a topology.
ghost use Rattle.std.specs.Prelude.{◌≡◌, ◌<◌, ◌≤◌, ◌+◌, ◌↔◌, length, IfOk, IfSome, IfNone, OnOk, IfErr, IsTrue};
ghost use Rattle.std.specs.List.{Contains};
ghost use Rattle.cb_model.specs.declared.node.NodeName.{NodeName as Name};
ghost use Rattle.cb_network.specs.Topology.{Topology as Instances};
ghost use Rattle.cb_topo.specs.Numbered.{topology_of, IsLiveNode};
ghost use Rattle.cb_graph.specs.Edges.{number};
ghost use Rattle.cb_levels.specs.declared.levels.LevelEntry.{LevelEntry as Entry};
ghost use Rattle.cb_levels.specs.Listed.{IsEntryAt};
ghost use Rattle.cb_levels.specs.Valid.{AreValidLevels, BeginsAtProblem};
ghost use Rattle.cb_levels.specs.Checks.{HasSmallNumbers, ShowsReach, TellsLevelFault, LevelEntryIs, HasEdgeFromParent, IsParentEarlier};
ghost use Rattle.cb_explain.specs.Checking.{AreGoodNodes, IsRootNumber, ListsNumber, AreListedNodes, HasEntryFault, FaultOf, IsFirstNotLed, AreMarkedLed, IsDeepest};
ghost use Rattle.cb_explain.specs.Surveyed.{ReportsWrong};

use crate::entries::{EntryFault, list_entries};
use crate::listed::{ListedNodes, first_bad_node, root_of};
use crate::survey::{SuccessorFault, WrongSuccessor, ask_all};
use cb_graph::Graph;
use cb_levels::{LevelFault, Levels, Proved};
use cb_nodes::NodeId;
use cb_steps::Steps;
use cb_successors::Edges;
use cb_topo::Topology;
use std::alloc::{AllocError, Global};
use std::sync::ledger::Ledger;

/// What the levels show of the graph's topology, where they are valid, and else the first of their checks that fails. It counts at most as many steps as there are
/// entries.
pub fn check_levels<L: Ledger>(
    alloc: Global,
    graph: &mut Graph,
    levels: &Levels,
    steps: &mut Steps<L>,
) -> Result<Proved, LevelFault>
    requires { HasSmallNumbers levels.now }
    ensures same { graph.new ≡ graph.old }
    ensures valid { OnOk result (AreValidLevels (topology_of graph.old) levels.now) }
    ensures shows { IfOk result (ShowsReach (topology_of graph.old) levels.now) }
    ensures why { IfErr result (TellsLevelFault (topology_of graph.old) levels.now) }
    ensures asked { steps.new ≤ steps.old + length levels.now.entries }
{
    if let Some(position) = first_bad_node(graph.topology(), levels.nodes.as_slice()) {
        return Err(LevelFault::BadNode {
            place: position as u32 + 1,
        });
    }
    let Some(root) = root_of(graph.topology(), levels) else {
        return Err(LevelFault::BadRoot { entry: 1 });
    };
    check_entries(alloc, graph, levels, root, steps)
}

// Checks the entries, where the nodes and the first entry are right.
fn check_entries<L: Ledger>(
    alloc: Global,
    graph: &mut Graph,
    levels: &Levels,
    root: NodeId,
    steps: &mut Steps<L>,
) -> Result<Proved, LevelFault>
    requires small { HasSmallNumbers levels.now }
    requires nodes { AreGoodNodes (topology_of graph.old) levels.now.nodes (length levels.now.nodes) }
    requires root { IsRootNumber graph.old levels.now root }
    ensures same { graph.new ≡ graph.old }
    ensures valid { OnOk result (AreValidLevels (topology_of graph.old) levels.now) }
    ensures shows { IfOk result (ShowsReach (topology_of graph.old) levels.now) }
    ensures why { IfErr result (TellsLevelFault (topology_of graph.old) levels.now) }
    ensures asked { steps.new ≤ steps.old + length levels.now.entries }
{
    let mut listed = ListedNodes::new(alloc, graph.topology().node_capacity())?;
    listed.add(root)?;
    let fault = list_entries(graph.topology(), levels, &mut listed)?;
    let survey = ask_all(alloc, graph, levels, &listed, steps)?;
    if let Some(position) = first_not_led(&survey.led) {
        return Err(LevelFault::NoEdge {
            entry: position as u32 + 1,
        });
    }
    if let Some(fault) = fault {
        return Err(entry_fault(alloc, graph, levels, &listed, fault, steps)?);
    }
    if let Some(wrong) = survey.wrong {
        return Err(wrong_fault(alloc, graph.topology(), wrong)?);
    }
    Ok(proved(alloc, levels)?)
}

// The first entry, but the root's, to which no edge leads from its parent.
fn first_not_led(led: &[bool]) -> Option<usize>
    ensures some { IfSome result (IsFirstNotLed led.now) }
    ensures none { IfNone result (AreMarkedLed led.now (length led.now)) }
{
    for position in 1..led.len() {
        if !led[position] {
            return Some(position);
        }
    }
    None
}

// What is reported of the first entry that isn't listed, with this fault. That no edge leads to it comes first, unless its parent is wrong.
fn entry_fault<L: Ledger>(
    alloc: Global,
    graph: &mut Graph,
    levels: &Levels,
    listed: &ListedNodes,
    fault: EntryFault,
    steps: &mut Steps<L>,
) -> Result<LevelFault, AllocError>
    requires listed { AreListedNodes graph.old levels.now listed.now }
    requires few { length listed.now.nodes.items + 1 < 4294967296 }
    requires fault { HasEntryFault graph.old levels.now (length listed.now.nodes.items) fault }
    ensures same { graph.new ≡ graph.old }
    ensures asked { steps.new ≤ steps.old + 1 }
    ensures reports { IfOk result (FaultOf (topology_of graph.old) levels.now (length listed.now.nodes.items) fault) }
{
    let entry = listed.nodes.len() as u32 + 1;
    match fault {
        EntryFault::Parent => Ok(LevelFault::BadParent { entry }),
        EntryFault::Node => Ok(LevelFault::NoEdge { entry }),
        EntryFault::Repeated(node) => {
            if is_led(alloc, graph, levels, listed, node, steps)? {
                Ok(LevelFault::Repeated { entry })
            } else {
                Ok(LevelFault::NoEdge { entry })
            }
        }
        EntryFault::Level(node) => {
            if is_led(alloc, graph, levels, listed, node, steps)? {
                Ok(LevelFault::BadLevel { entry })
            } else {
                Ok(LevelFault::NoEdge { entry })
            }
        }
    }
}

// Whether an edge leads to this node, which is that of the first entry that isn't listed, from the node of its parent.
fn is_led<L: Ledger>(
    alloc: Global,
    graph: &mut Graph,
    levels: &Levels,
    listed: &ListedNodes,
    node: NodeId,
    steps: &mut Steps<L>,
) -> Result<bool, AllocError>
    requires listed { AreListedNodes graph.old levels.now listed.now }
    requires parent { LevelEntryIs levels.now (length listed.now.nodes.items) (IsParentEarlier (length listed.now.nodes.items)) }
    requires node { ListsNumber graph.old levels.now (length listed.now.nodes.items) node }
    ensures same { graph.new ≡ graph.old }
    ensures asked { steps.new ≤ steps.old + 1 }
    ensures led { IfOk result (λ is. IsTrue is ↔ LevelEntryIs levels.now (length listed.now.nodes.items) (HasEdgeFromParent (topology_of graph.old) levels.now)) }
{
    let parent = levels.entries.at(listed.nodes.len()).parent as usize - 1;
    let mut successors = Vec::new(alloc);
    graph.list_successors(listed.nodes[parent].0 as usize, &mut successors, steps)?;
    Ok(has(&successors, node.0 as usize))
}

fn has(successors: &[usize], node: usize) -> bool
    ensures { IsTrue result ↔ Contains successors.now node }
{
    successors.contains(&node)
}

// What is reported of a wrong successor.
fn wrong_fault(
    alloc: Global,
    topology: &Topology,
    wrong: WrongSuccessor,
) -> Result<LevelFault, AllocError>
    requires live { IsLiveNode topology.now (number wrong.successor) }
    requires few { wrong.position + 1 < 4294967296 }
    ensures { IfOk result (ReportsWrong topology.now wrong) }
{
    // Numbers of nodes are below it, and it is small.
    let _capacity = topology.node_capacity();
    let successor = topology.copy_name(alloc, NodeId(wrong.successor as u32))?;
    let entry = wrong.position as u32 + 1;
    match wrong.fault {
        SuccessorFault::Unlisted => Ok(LevelFault::NotClosed { entry, successor }),
        SuccessorFault::Far => Ok(LevelFault::NotShort { entry, successor }),
    }
}

// What levels show that are valid.
fn proved(alloc: Global, levels: &Levels) -> Result<Proved, AllocError>
    requires first { (entry : Entry) × (root : Name) × IsEntryAt levels.now 0 entry root }
    requires few { length levels.now.entries < 4294967296 }
    ensures { IfOk result (λ p. (t : Instances) (root : Name) → BeginsAtProblem t levels.now root → ShowsReach t levels.now p) }
{
    let first = levels.entries.at(0);
    let root = levels.nodes.at(first.node as usize - 1).copy(alloc)?;
    Ok(Proved {
        root,
        reached: levels.entries.len() as u32,
        deepest: deepest(levels),
    })
}

// The greatest level of an entry.
fn deepest(levels: &Levels) -> u32
    requires { 0 < length levels.now.entries }
    ensures { IsDeepest levels.now result }
{
    let mut deepest = 0;
    for position in 0..levels.entries.len() {
        deepest = levels.entries.at(position).level.max(deepest);
    }
    deepest
}
