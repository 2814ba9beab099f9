//! Levels of small networks, made and checked: valid ones, and those with one wrong value, or with two, of which the one is reported that is checked first.
ghost use Rattle.std.specs.Prelude.{◌≡◌, ◌<◌, ◌≤◌, length, IsTrue, IfSome};
ghost use Rattle.cb_levels.specs.Checks.{HasSmallNumbers};
ghost use Rattle.cb_span.specs.Made.{IsProblemId};

use crate::worked::{CYCLE, LINK, SITES, THREE_NODES, TWO_PORTS, graph_of};
use cb_explain::{check_levels, levels_of};
use cb_graph::Graph;
use cb_levels::{LevelEntry, LevelFault, Levels, Proved};
use cb_model::{List, NodeName};
use cb_nodes::NodeId;
use cb_steps::{MayCount, Steps};
use cb_topo::Topology;
use std::alloc::{AllocError, Global};
use std::marker::Brand;
use std::process::Abort;
use std::sync::ledger::{Blank, Ledger};

const TRIANGLE: [&[u8]; 6] = [
    b"create n1 Node",
    b"create n2 Node",
    b"create n3 Node",
    b"link n1 near n2",
    b"link n2 near n3",
    b"link n1 near n3",
];

// The first node is near all others, which form a row.
const FAN: [&[u8]; 9] = [
    b"create n1 Node",
    b"create n2 Node",
    b"create n3 Node",
    b"create n4 Node",
    b"link n1 near n2",
    b"link n1 near n3",
    b"link n1 near n4",
    b"link n2 near n3",
    b"link n3 near n4",
];

const ITSELF: [&[u8]; 2] = [b"create n1 Node", b"link n1 near n1"];

const FED: [&[u8]; 6] = [
    b"create s1 Site",
    b"create s2 Site",
    b"create s3 Site",
    b"link s1 feeds s2",
    b"link s2 feeds s3",
    b"link s3 feeds s1",
];

// An event and an instance.
type Node = (&'static [u8], &'static [u8]);

// A node's number, its level and its parent.
type Entry = (u32, u32, u32);

const N1: Node = (b"Sick", b"n1");

const N2: Node = (b"Sick", b"n2");

const N3: Node = (b"Sick", b"n3");

const N4: Node = (b"Sick", b"n4");

// No network has it.
const N9: Node = (b"Sick", b"n9");

const CUT: Node = (b"Cut", b"L1");

const FAIL_A: Node = (b"Fail", b"a");

const SIGNAL_A: Node = (b"NoSignal", b"a");

// How a check ends.
#[derive(Clone, Copy)]
enum End {
    // The root, how many nodes it reaches, and the greatest level.
    Proved(Node, u32, u32),
    Node(u32),
    Root,
    Parent(u32),
    Edge(u32),
    Repeated(u32),
    Level(u32),
    NotClosed(u32, Node),
    NotShort(u32, Node),
}

// A model, and the edits that make a network of it.
type Network = (&'static [u8], &'static [&'static [u8]]);

// Entries of levels, and how their check ends.
type Case = (&'static [Entry], End);

// A network, nodes that levels over it have, and cases of these.
type Table = (Network, &'static [Node], &'static [Case]);

const IN_A_ROW: Network = (CYCLE, &THREE_NODES);

const IN_A_TRIANGLE: Network = (CYCLE, &TRIANGLE);

const IN_A_FAN: Network = (CYCLE, &FAN);

const NEAR_ITSELF: Network = (CYCLE, &ITSELF);

const A_LINK: Network = (LINK, &TWO_PORTS);

const IN_A_CIRCLE: Network = (SITES, &FED);

const OF_A_ROW: [Case; 25] = [
    // Valid ones.
    (&[(1, 0, 0), (2, 1, 1), (3, 2, 2)], End::Proved(N1, 3, 2)),
    (&[(2, 0, 0), (3, 1, 1), (1, 1, 1)], End::Proved(N2, 3, 1)),
    // One wrong value each.
    (&[], End::Root),
    (&[(0, 0, 0), (2, 1, 1), (3, 2, 2)], End::Root),
    (&[(4, 0, 0), (2, 1, 1), (3, 2, 2)], End::Root),
    (&[(1, 1, 0), (2, 1, 1), (3, 2, 2)], End::Root),
    (&[(1, 0, 1), (2, 1, 1), (3, 2, 2)], End::Root),
    (&[(1, 0, 0), (2, 1, 0), (3, 2, 2)], End::Parent(2)),
    (&[(1, 0, 0), (2, 1, 2), (3, 2, 2)], End::Parent(2)),
    (&[(1, 0, 0), (2, 1, 3), (3, 2, 2)], End::Parent(2)),
    (&[(1, 0, 0), (2, 1, 1), (3, 1, 1)], End::Edge(3)),
    (&[(1, 0, 0), (2, 1, 1), (0, 2, 2)], End::Edge(3)),
    (&[(1, 0, 0), (2, 1, 1), (4, 2, 2)], End::Edge(3)),
    (&[(1, 0, 0), (2, 1, 1), (1, 2, 2)], End::Repeated(3)),
    (&[(1, 0, 0), (2, 1, 1), (3, 3, 2)], End::Level(3)),
    (&[(1, 0, 0), (2, 1, 1), (3, 1, 2)], End::Level(3)),
    (&[(1, 0, 0), (2, 0, 1), (3, 1, 2)], End::Level(2)),
    (&[(1, 0, 0), (2, 1, 1)], End::NotClosed(2, N3)),
    // Two faults of one entry: the one that is checked first.
    (&[(1, 0, 0), (4, 7, 3), (3, 2, 2)], End::Parent(2)),
    (&[(1, 0, 0), (2, 1, 1), (1, 1, 1)], End::Edge(3)),
    (&[(1, 0, 0), (2, 1, 1), (3, 7, 1)], End::Edge(3)),
    (&[(1, 0, 0), (2, 1, 1), (1, 7, 2)], End::Repeated(3)),
    // Faults of two entries: that of the first one, although at one entry that of the other is checked before it.
    (&[(1, 0, 0), (2, 2, 1), (3, 3, 0)], End::Level(2)),
    (&[(1, 0, 0), (1, 1, 1), (3, 2, 7)], End::Edge(2)),
    // The root before entries.
    (&[(1, 1, 0), (2, 1, 0), (3, 2, 2)], End::Root),
];

const OF_A_TRIANGLE: [Case; 2] = [
    (&[(1, 0, 0), (3, 1, 1), (2, 1, 1)], End::Proved(N1, 3, 1)),
    (&[(1, 0, 0), (2, 1, 1), (3, 2, 2)], End::NotShort(1, N3)),
];

const OF_A_FAN: [Case; 5] = [
    // The least of several successors.
    (&[(1, 0, 0), (3, 1, 1)], End::NotClosed(1, N2)),
    (
        &[(1, 0, 0), (2, 1, 1), (3, 2, 2), (4, 3, 3)],
        End::NotShort(1, N3),
    ),
    // One successor isn't listed, and a lesser one is too far: that each is listed is checked first.
    (&[(1, 0, 0), (2, 1, 1), (3, 2, 2)], End::NotClosed(1, N4)),
    // One is too far from the first entry, and a successor of the second entry isn't listed.
    (&[(2, 0, 0), (1, 1, 1), (3, 2, 2)], End::NotShort(1, N3)),
    // Entries before their successors.
    (&[(1, 0, 0), (2, 1, 1), (3, 3, 2)], End::Level(3)),
];

const OF_ONE_NODE: [Case; 2] = [
    (&[(1, 0, 0)], End::Proved(N1, 1, 0)),
    (&[(1, 0, 0), (1, 1, 1), (1, 1, 0)], End::Repeated(2)),
];

const TABLES: [Table; 9] = [
    (IN_A_ROW, &[N1, N2, N3], &OF_A_ROW),
    (IN_A_TRIANGLE, &[N1, N2, N3], &OF_A_TRIANGLE),
    (IN_A_FAN, &[N1, N2, N3, N4], &OF_A_FAN),
    (NEAR_ITSELF, &[N1], &OF_ONE_NODE),
    // A node that isn't used may be among them.
    (
        A_LINK,
        &[CUT, FAIL_A, SIGNAL_A],
        &[(&[(2, 0, 0), (3, 1, 1)], End::Proved(FAIL_A, 2, 1))],
    ),
    // No problem.
    (A_LINK, &[SIGNAL_A], &[(&[(1, 0, 0)], End::Root)]),
    // Nodes that aren't in order, or aren't there, before a root that is wrong.
    (IN_A_ROW, &[N1, N9, N3], &[(&[(1, 1, 0)], End::Node(2))]),
    (IN_A_ROW, &[N1, N3, N2], &[(&[(1, 0, 0)], End::Node(3))]),
    (IN_A_ROW, &[N1, N2, N2], &[(&[(1, 0, 0)], End::Node(3))]),
];

// A network, one of its problems, how many nodes that one causes, and the greatest level.
const MADE: [(Network, Node, u32, u32); 9] = [
    (IN_A_ROW, N1, 3, 2),
    (IN_A_ROW, N2, 3, 1),
    (IN_A_TRIANGLE, N3, 3, 1),
    (IN_A_FAN, N1, 4, 1),
    (IN_A_FAN, N4, 4, 2),
    (NEAR_ITSELF, N1, 1, 0),
    (A_LINK, CUT, 4, 1),
    (A_LINK, FAIL_A, 2, 1),
    (IN_A_CIRCLE, (b"Power", b"s1"), 4, 1),
];

// The levels with these nodes and entries.
fn levels_with(alloc: Global, nodes: &[Node], entries: &[Entry]) -> Result<Levels, AllocError> {
    let mut levels = Levels {
        nodes: List::new(alloc),
        entries: List::new(alloc),
    };
    for (event, instance) in nodes {
        levels.nodes.push(NodeName::of(alloc, event, instance)?)?;
    }
    for (node, level, parent) in entries {
        levels.entries.push(LevelEntry {
            node: *node,
            level: *level,
            parent: *parent,
        })?;
    }
    Ok(levels)
}

fn are_small(levels: &Levels) -> bool
    ensures { IsTrue result → HasSmallNumbers levels.now }
{
    levels.nodes.len() < 1_000 && levels.entries.len() < 1_000
}

fn is_called(name: &NodeName, node: Node) -> bool {
    let (event, instance) = node;
    name.event.bytes() == event && name.instance.bytes() == instance
}

fn is_proof(proved: &Proved, end: End) -> bool {
    match end {
        End::Proved(root, reached, deepest) => {
            is_called(&proved.root, root) && proved.reached == reached && proved.deepest == deepest
        }
        _ => false,
    }
}

fn is_fault(fault: &LevelFault, end: End) -> bool {
    match end {
        End::Proved(..) => false,
        End::Node(at) => matches!(fault, LevelFault::BadNode { place } if *place == at),
        End::Root => matches!(fault, LevelFault::BadRoot { entry: 1 }),
        End::Parent(at) => matches!(fault, LevelFault::BadParent { entry } if *entry == at),
        End::Edge(at) => matches!(fault, LevelFault::NoEdge { entry } if *entry == at),
        End::Repeated(at) => matches!(fault, LevelFault::Repeated { entry } if *entry == at),
        End::Level(at) => matches!(fault, LevelFault::BadLevel { entry } if *entry == at),
        End::NotClosed(at, node) => {
            matches!(fault, LevelFault::NotClosed { entry, successor } if *entry == at && is_called(successor, node))
        }
        End::NotShort(at, node) => {
            matches!(fault, LevelFault::NotShort { entry, successor } if *entry == at && is_called(successor, node))
        }
    }
}

// Whether the check of the levels ends so.
fn comes_to<L: Ledger>(
    alloc: Global,
    graph: &mut Graph,
    levels: &Levels,
    end: End,
    steps: &mut Steps<L>,
) -> Result<bool, AllocError> {
    if !are_small(levels) {
        return Ok(false);
    }
    match check_levels(alloc, graph, levels, steps) {
        Ok(proved) => Ok(is_proof(&proved, end)),
        Err(LevelFault::NoMemory) => Err(AllocError),
        Err(fault) => Ok(is_fault(&fault, end)),
    }
}

// The number of the node, where it is a problem.
fn problem_named(topology: &Topology, node: Node) -> Option<NodeId>
    ensures { IfSome result (IsProblemId topology.now) }
{
    let (event, instance) = node;
    match topology.node_named(event, instance) {
        Some(node) if topology.is_problem(node) => Some(node),
        _ => None,
    }
}

// Whether the levels that are made of the problem are checked with this result.
fn are_right<L: Ledger>(
    alloc: Global,
    graph: &mut Graph,
    node: Node,
    end: End,
    steps: &mut Steps<L>,
) -> Result<bool, AllocError> {
    let Some(problem) = problem_named(graph.topology(), node) else {
        return Ok(false);
    };
    let levels = levels_of(alloc, graph, problem, steps)?;
    let right = comes_to(alloc, graph, &levels, end, steps);
    drop(levels);
    right
}

// Checks the levels of a case.
fn check_case<L: Ledger>(
    rt: &impl MayCount,
    alloc: Global,
    blank: Blank,
    graph: &mut Graph,
    nodes: &[Node],
    case: &Case,
) -> Result<bool, AllocError>
    requires name { blank.name ≡ L.name }
    requires parts { blank.parts ≡ L.parts }
    requires some { 0 < L.parts }
{
    let mut steps = Steps::<L>::new(rt, blank);
    let levels = levels_with(alloc, nodes, case.0)?;
    let right = comes_to(alloc, graph, &levels, case.1, &mut steps);
    drop(levels);
    right
}

// Makes the levels of a problem, and checks them.
fn make_and_check<L: Ledger>(
    rt: &impl MayCount,
    alloc: Global,
    blank: Blank,
    graph: &mut Graph,
    node: Node,
    end: End,
) -> Result<bool, AllocError>
    requires name { blank.name ≡ L.name }
    requires parts { blank.parts ≡ L.parts }
    requires some { 0 < L.parts }
{
    let mut steps = Steps::<L>::new(rt, blank);
    are_right(alloc, graph, node, end, &mut steps)
}

#[test]
fn levels_with_faults(rt: HostRuntime) -> Result<(), AllocError> {
    let alloc = rt.alloc();
    for (network, nodes, cases) in TABLES {
        for case in cases {
            let mut graph = graph_of(&rt, alloc, network.0, network.1)?;
            let right = check_case::<Brand>(&rt, alloc, Blank::new(1), &mut graph, nodes, case);
            drop(graph);
            assert!(rt; right?, "{:?}", case.0);
        }
    }
    Ok(())
}

#[test]
fn levels_that_are_made(rt: HostRuntime) -> Result<(), AllocError> {
    let alloc = rt.alloc();
    for (network, node, reached, deepest) in MADE {
        let mut graph = graph_of(&rt, alloc, network.0, network.1)?;
        let end = End::Proved(node, reached, deepest);
        let right = make_and_check::<Brand>(&rt, alloc, Blank::new(1), &mut graph, node, end);
        drop(graph);
        assert!(rt; right?, "{reached} {deepest}");
    }
    Ok(())
}
