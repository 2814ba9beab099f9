//! Worked networks, read from their texts: how many steps a cache counts when it is opened and at edits, which edits are refused, and what an
//! edit touches. Each search asks each node that it finds once for its successors, so that on a small network the number is what the nodes say.
ghost use Rattle.std.specs.Prelude.{◌≡◌, ◌<◌, IsTrue};
ghost use Rattle.cb_network.specs.Laws.{HasGoodName};

use crate::graph::{ask, has_just};
use cb_bits::Row;
use cb_cache::Cache;
use cb_check::check;
use cb_edits::{EditText, read_edit};
use cb_graph::Graph;
use cb_model::Model;
use cb_network::{Edit, EditRefusal};
use cb_steps::{MayCount, Steps};
use cb_syntax::parse;
use cb_text::is_instance;
use cb_topo::{EditFault, Topology};
use std::alloc::{AllocError, Global};
use std::marker::Brand;
use std::process::Abort;
use std::sync::ledger::{Blank, Ledger};

pub(crate) const LINK: &[u8] =
    b"class Link { problem Cut; symptom Loss; relation ends to Port many inverse on; rule here: Cut => Loss; rule far: Cut => ends.NoSignal; } class Port { problem Fail; symptom NoSignal; relation on to Link one inverse ends; rule down: Fail => NoSignal; }";

pub(crate) const CYCLE: &[u8] =
    b"class Node { problem symptom Sick; relation near to Node many inverse near; rule spread: Sick => near.Sick; }";

const PATH: &[u8] =
    b"class A { problem P; relation mid to B many inverse top; rule r: P => mid.low.S; } class B { relation top to A many inverse mid; relation low to C many inverse up; } class C { symptom S; relation up to B many inverse low; }";

pub(crate) const SITES: &[u8] =
    b"class Site { problem Power; symptom Dark; relation feeds to Site many inverse fed; relation fed to Site one inverse feeds; rule all: Power => feeds+.Dark; }";

pub(crate) const TWO_PORTS: [&[u8]; 5] = [
    b"create L1 Link",
    b"create a Port",
    b"create b Port",
    b"link L1 ends a",
    b"link b on L1",
];

pub(crate) const THREE_NODES: [&[u8]; 5] = [
    b"create n1 Node",
    b"create n2 Node",
    b"create n3 Node",
    b"link n1 near n2",
    b"link n2 near n3",
];

const THREE_SITES: [&[u8]; 5] = [
    b"create s1 Site",
    b"create s2 Site",
    b"create s3 Site",
    b"link s1 feeds s2",
    b"link s2 feeds s3",
];

const OPEN_PATH: [&[u8]; 4] = [
    b"create a1 A",
    b"create b1 B",
    b"create c1 C",
    b"link a1 mid b1",
];

// An edit, why it isn't made, if it isn't, and how many steps it counts.
type Counted = (&'static [u8], Option<EditRefusal>, u64);

// A network, how many steps its opening counts, and edits in turn; exactly that number, or at most.
struct Case {
    model: &'static [u8],
    first: &'static [&'static [u8]],
    opening: u64,
    then: &'static [Counted],
    exactly: bool,
}

const CASES: [Case; 4] = [
    // Four nodes of the cut, and two of each port's failure.
    Case {
        model: LINK,
        first: &TWO_PORTS,
        opening: 8,
        then: &[
            (b"create c Port", None, 2),
            // The cut, which is asked again, and the one node that is new.
            (b"link L1 ends c", None, 2),
            (b"link L1 ends c", Some(EditRefusal::Linked), 0),
            // What the cut still causes.
            (b"unlink L1 ends c", None, 4),
            (b"mute NoSignal@a", None, 0),
            (b"delete b", None, 3),
        ],
        exactly: true,
    },
    Case {
        model: LINK,
        first: &TWO_PORTS,
        opening: 8,
        then: &[
            (b"unlink L1 ends a", None, 3),
            (b"mute NoSignal@b", None, 0),
            (b"unmute NoSignal@b", None, 0),
            (b"delete a", None, 0),
            (b"delete L1", None, 0),
            (b"delete L1", Some(EditRefusal::NoInstance), 0),
        ],
        exactly: true,
    },
    // Each node of a cycle causes all: rows that are finished are taken over.
    Case {
        model: CYCLE,
        first: &THREE_NODES,
        opening: 9,
        then: &[(b"link n1 near n3", None, 6)],
        exactly: false,
    },
    // Each site causes itself and what it feeds, through the others too: three nodes, two and one. Without the last link
    // the rows of the first two sites have two and one.
    Case {
        model: SITES,
        first: &THREE_SITES,
        opening: 6,
        then: &[(b"unlink s2 feeds s3", None, 3)],
        exactly: true,
    },
];

/// The model of a text, where it has no fault.
pub(crate) fn model_of(alloc: Global, text: &[u8]) -> Result<Option<Model>, AllocError> {
    // None is longer.
    if 1_000 < text.len() {
        return Ok(None);
    }
    let Ok(tree) = parse(alloc, text) else {
        return Ok(None);
    };
    let model = check(alloc, &tree).ok();
    drop(tree);
    Ok(model)
}

/// The edit of a line, where it is one.
pub(crate) fn edit_of(alloc: Global, line: &[u8]) -> Result<Option<Edit>, AllocError> {
    match read_edit(alloc, line) {
        Ok(edit) => Ok(Some(edit)),
        Err(EditText::BadWords) => Ok(None),
        Err(EditText::NoMemory) => Err(AllocError),
    }
}

pub(crate) fn has_good_name(edit: &Edit) -> bool
    ensures { IsTrue result → HasGoodName edit.now }
{
    match edit {
        Edit::Create { name, .. } => is_instance(name.bytes()),
        _ => true,
    }
}

/// Whether the edit of a line is made.
pub(crate) fn is_made(alloc: Global, graph: &mut Graph, line: &[u8]) -> Result<bool, AllocError> {
    let Some(edit) = edit_of(alloc, line)? else {
        return Ok(false);
    };
    let made = has_good_name(&edit) && graph.apply(alloc, &edit).is_ok();
    drop(edit);
    Ok(made)
}

fn make_all(
    rt: &impl Abort,
    alloc: Global,
    graph: &mut Graph,
    lines: &[&[u8]],
) -> Result<(), AllocError> {
    for line in lines {
        let made = is_made(alloc, graph, line)?;
        assert!(rt; made, "{line:?}");
    }
    Ok(())
}

/// The graph of a model after these edits.
pub(crate) fn graph_of(
    rt: &impl Abort,
    alloc: Global,
    text: &[u8],
    lines: &[&[u8]],
) -> Result<Graph, AllocError> {
    let Some(model) = model_of(alloc, text)? else {
        return Err(AllocError);
    };
    let mut graph = Graph::new(alloc, Topology::new(alloc, model))?;
    match make_all(rt, alloc, &mut graph, lines) {
        Ok(()) => Ok(graph),
        Err(error) => {
            drop(graph);
            Err(error)
        }
    }
}

// Why the edit of a line isn't made through the cache.
fn fault_of<L: Ledger>(
    alloc: Global,
    cache: &mut Cache,
    line: &[u8],
    steps: &mut Steps<L>,
) -> Result<Option<EditFault>, AllocError> {
    let Some(edit) = edit_of(alloc, line)? else {
        return Ok(None);
    };
    let fault = if has_good_name(&edit) {
        cache.apply(alloc, &edit, steps).err()
    } else {
        None
    };
    drop(edit);
    Ok(fault)
}

// Whether that number of steps was counted, or no more.
fn is_right(counted: u64, wanted: u64, exactly: bool) -> bool {
    counted == wanted || (!exactly && counted < wanted)
}

// The edits of a case in turn.
fn count_edits<L: Ledger>(
    rt: &impl Abort,
    alloc: Global,
    cache: &mut Cache,
    case: &Case,
    steps: &mut Steps<L>,
) -> Result<(), AllocError> {
    for (line, wanted, most) in case.then {
        let before = steps.count();
        let fault = fault_of(alloc, cache, line, steps)?;
        let counted = steps.count().wrapping_sub(before);
        assert_eq!(rt; fault, wanted.map(EditFault::Refused), "{line:?}");
        assert!(rt;
            is_right(counted, *most, case.exactly),
            "{line:?} {counted}"
        );
    }
    Ok(())
}

// Opens a cache on the network of a case, and makes its edits.
fn count_case<L: Ledger>(
    rt: &(impl Abort + MayCount),
    alloc: Global,
    blank: Blank,
    graph: Graph,
    case: &Case,
) -> Result<(), AllocError>
    requires name { blank.name ≡ L.name }
    requires parts { blank.parts ≡ L.parts }
    requires some { 0 < L.parts }
{
    let mut steps = Steps::<L>::new(rt, blank);
    let mut cache = Cache::open(alloc, graph, &mut steps)?;
    let opening = steps.count();
    let done = count_edits(rt, alloc, &mut cache, case, &mut steps);
    drop(cache);
    assert!(rt; is_right(opening, case.opening, case.exactly), "{opening}");
    done
}

// Whether the edit of a line touches just the nodes of the event at these instances.
fn touches_just(
    alloc: Global,
    graph: &mut Graph,
    line: &[u8],
    event: &[u8],
    instances: &[&[u8]],
) -> Result<bool, AllocError> {
    let Some(edit) = edit_of(alloc, line)? else {
        return Ok(false);
    };
    let mut row = Row::zeroed(alloc, graph.topology().node_capacity())?;
    let accepted = ask(graph, &edit, &mut row);
    drop(edit);
    Ok(accepted && has_just(graph.topology(), &row, event, instances))
}

#[test]
fn steps_under_edits(rt: HostRuntime) -> Result<(), AllocError> {
    let alloc = rt.alloc();
    for case in &CASES {
        let graph = graph_of(&rt, alloc, case.model, case.first)?;
        count_case::<Brand>(&rt, alloc, Blank::new(1), graph, case)?;
    }
    Ok(())
}

#[test]
fn the_second_place_of_a_path_is_touched(rt: HostRuntime) -> Result<(), AllocError> {
    let alloc = rt.alloc();
    let mut graph = graph_of(&rt, alloc, PATH, &OPEN_PATH)?;
    let right = touches_just(alloc, &mut graph, b"link b1 low c1", b"P", &[b"a1"]);
    drop(graph);
    assert!(rt; right?);
    Ok(())
}

#[test]
fn all_that_a_run_of_links_comes_through_is_touched(rt: HostRuntime) -> Result<(), AllocError> {
    let alloc = rt.alloc();
    let mut graph = graph_of(&rt, alloc, SITES, &THREE_SITES)?;
    let right = touches_just(
        alloc,
        &mut graph,
        b"unlink s2 feeds s3",
        b"Power",
        &[b"s1", b"s2"],
    );
    drop(graph);
    assert!(rt; right?);
    Ok(())
}
