//! Edits and undos in turn, at several depths: what the last topology has, how many edits can still be undone, and how many lines changed nothing.
ghost use Rattle.std.specs.Prelude.{◌≡◌, ◌<◌};

use crate::worked::{CYCLE, LINK, SITES, TWO_PORTS, edit_of, has_good_name, model_of};
use cb_cache::Cache;
use cb_graph::Graph;
use cb_model::RelId;
use cb_steps::{MayCount, Steps};
use cb_topo::Topology;
use cb_undo::{EditedTopology, History};
use std::alloc::{AllocError, Global};
use std::marker::Brand;
use std::process::Abort;
use std::sync::ledger::{Blank, Ledger};

// What is left after the lines of a case. Each direction of a link is counted.
#[derive(Clone, Copy, Debug, PartialEq, Eq)]
struct Outcome {
    unchanged: usize,
    kept: usize,
    nodes: usize,
    links: usize,
    muted: usize,
}

// A network, a depth, edits and undos in turn, and what is left.
struct Case {
    model: &'static [u8],
    first: &'static [&'static [u8]],
    depth: usize,
    lines: &'static [&'static [u8]],
    last: Outcome,
}

const ITSELF: [&[u8]; 2] = [b"create n1 Node", b"link n1 near n1"];

const FEEDS_ITSELF: [&[u8]; 2] = [b"create s1 Site", b"link s1 feeds s1"];

const CASES: [Case; 8] = [
    Case {
        model: LINK,
        first: &TWO_PORTS,
        depth: 4,
        lines: &[b"delete L1", b"undo"],
        last: Outcome {
            unchanged: 0,
            kept: 0,
            nodes: 6,
            links: 4,
            muted: 0,
        },
    },
    // The mute is forgotten, and comes back with its instance.
    Case {
        model: LINK,
        first: &TWO_PORTS,
        depth: 1,
        lines: &[b"mute NoSignal@a", b"delete a", b"undo", b"undo"],
        last: Outcome {
            unchanged: 1,
            kept: 0,
            nodes: 6,
            links: 4,
            muted: 1,
        },
    },
    Case {
        model: LINK,
        first: &TWO_PORTS,
        depth: 2,
        lines: &[b"mute NoSignal@a", b"delete a", b"undo", b"undo"],
        last: Outcome {
            unchanged: 0,
            kept: 0,
            nodes: 6,
            links: 4,
            muted: 0,
        },
    },
    // A relation that is its own inverse.
    Case {
        model: CYCLE,
        first: &ITSELF,
        depth: 1,
        lines: &[b"delete n1", b"undo"],
        last: Outcome {
            unchanged: 0,
            kept: 0,
            nodes: 1,
            links: 1,
            muted: 0,
        },
    },
    // A relation with another inverse.
    Case {
        model: SITES,
        first: &FEEDS_ITSELF,
        depth: 2,
        lines: &[b"delete s1", b"undo"],
        last: Outcome {
            unchanged: 0,
            kept: 0,
            nodes: 2,
            links: 2,
            muted: 0,
        },
    },
    // A refused edit is not undone.
    Case {
        model: LINK,
        first: &TWO_PORTS,
        depth: 4,
        lines: &[b"delete a", b"delete a", b"undo"],
        last: Outcome {
            unchanged: 1,
            kept: 0,
            nodes: 6,
            links: 4,
            muted: 0,
        },
    },
    // An edit of each kind but Delete, and the undo of each.
    Case {
        model: LINK,
        first: &TWO_PORTS,
        depth: 8,
        lines: &[
            b"create c Port",
            b"link L1 ends c",
            b"unlink L1 ends a",
            b"mute NoSignal@b",
            b"unmute NoSignal@b",
            b"undo",
            b"undo",
            b"undo",
            b"undo",
            b"undo",
        ],
        last: Outcome {
            unchanged: 0,
            kept: 0,
            nodes: 6,
            links: 4,
            muted: 0,
        },
    },
    // Of three edits two are kept.
    Case {
        model: LINK,
        first: &TWO_PORTS,
        depth: 2,
        lines: &[b"mute NoSignal@a", b"mute NoSignal@b", b"unlink L1 ends a"],
        last: Outcome {
            unchanged: 0,
            kept: 2,
            nodes: 6,
            links: 2,
            muted: 2,
        },
    },
];

const NAMES: [&[u8]; 6] = [b"L1", b"a", b"b", b"c", b"n1", b"s1"];

// Whether the line changes something.
fn changes<N: EditedTopology, L: Ledger>(
    alloc: Global,
    history: &mut History<N>,
    line: &[u8],
    steps: &mut Steps<L>,
) -> Result<bool, AllocError> {
    if line == b"undo".as_slice() {
        return Ok(history.undo(alloc, steps).is_ok());
    }
    let Some(edit) = edit_of(alloc, line)? else {
        return Ok(false);
    };
    let made = has_good_name(&edit) && history.edit(alloc, &edit, steps).is_ok();
    drop(edit);
    Ok(made)
}

// How many of the lines change nothing.
fn unchanged_after<N: EditedTopology, L: Ledger>(
    alloc: Global,
    history: &mut History<N>,
    lines: &[&[u8]],
    steps: &mut Steps<L>,
) -> Result<usize, AllocError> {
    let mut unchanged: usize = 0;
    for line in lines {
        if !changes(alloc, history, line, steps)? {
            unchanged = unchanged.saturating_add(1);
        }
    }
    Ok(unchanged)
}

// How many links the instance of this name has.
fn links_of(topology: &Topology, name: &[u8]) -> usize {
    match topology.instance_named(name) {
        Some(id) => {
            let first = topology.links(id, RelId(0)).len();
            first.saturating_add(topology.links(id, RelId(1)).len())
        }
        None => 0,
    }
}

fn is_muted(topology: &Topology, event: &[u8], name: &[u8]) -> bool {
    match topology.node_named(event, name) {
        Some(node) => topology.is_muted(node),
        None => false,
    }
}

// What the history has now.
fn outcome_of<N: EditedTopology>(history: &History<N>, unchanged: usize) -> Outcome {
    let topology = history.network().topology();
    let mut outcome = Outcome {
        unchanged,
        kept: history.kept(),
        nodes: topology.node_count(),
        links: 0,
        muted: 0,
    };
    for name in NAMES {
        outcome.links = outcome.links.saturating_add(links_of(topology, name));
        if is_muted(topology, b"NoSignal", name) {
            outcome.muted = outcome.muted.saturating_add(1);
        }
    }
    outcome
}

// Runs the lines of a case over its network.
fn run_over<N: EditedTopology, L: Ledger>(
    rt: &impl Abort,
    alloc: Global,
    network: N,
    case: &Case,
    steps: &mut Steps<L>,
) -> Result<(), AllocError> {
    let mut history = History::new(alloc, network, case.depth.clamp(1, 1024))?;
    let unchanged = unchanged_after(alloc, &mut history, case.lines, steps);
    let outcome = outcome_of(&history, unchanged.unwrap_or(usize::MAX));
    drop(history);
    assert_eq!(rt; outcome, case.last);
    Ok(())
}

// The topology that the first edits of a case make.
fn first_topology<L: Ledger>(
    alloc: Global,
    case: &Case,
    steps: &mut Steps<L>,
) -> Result<Topology, AllocError> {
    let Some(model) = model_of(alloc, case.model)? else {
        return Err(AllocError);
    };
    let mut history = History::new(alloc, Topology::new(alloc, model), 1)?;
    let unchanged = unchanged_after(alloc, &mut history, case.first, steps);
    let topology = history.into_network();
    match unchanged {
        Ok(0) => Ok(topology),
        _ => {
            drop(topology);
            Err(AllocError)
        }
    }
}

// Runs a case over a topology alone, which counts no step, and over a cache.
fn run_case<L: Ledger>(
    rt: &(impl Abort + MayCount),
    alloc: Global,
    blank: Blank,
    case: &Case,
) -> Result<(), AllocError>
    requires name { blank.name ≡ L.name }
    requires parts { blank.parts ≡ L.parts }
    requires some { 0 < L.parts }
{
    let mut steps = Steps::<L>::new(rt, blank);
    let topology = first_topology(alloc, case, &mut steps)?;
    run_over(rt, alloc, topology, case, &mut steps)?;
    assert_eq!(rt; steps.count(), 0);
    let graph = Graph::new(alloc, first_topology(alloc, case, &mut steps)?)?;
    let cache = Cache::open(alloc, graph, &mut steps)?;
    run_over(rt, alloc, cache, case, &mut steps)
}

#[test]
fn topologies_after_edits_and_undos(rt: HostRuntime) -> Result<(), AllocError> {
    let alloc = rt.alloc();
    for case in &CASES {
        run_case::<Brand>(&rt, alloc, Blank::new(1), case)?;
    }
    Ok(())
}
