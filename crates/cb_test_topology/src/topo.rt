//! Edits in turn over the sample model: a base with many ports, each of which has one owner.
ghost use Rattle.std.specs.Prelude.{◌≡◌, IfOk, IsTrue};
ghost use Rattle.cb_network.specs.Laws.{HasGoodName};

use cb_model::Name;
use cb_network::{Edit, EditRefusal};
use cb_nodes::NodeId;
use cb_sample::sample_model;
use cb_text::is_instance;
use cb_topo::{EditFault, Topology};
use std::alloc::{AllocError, Global};
use std::process::Abort;

// Kinds of edits, by their words.
#[derive(Clone, Copy)]
pub enum EditKind {
    Create,
    Delete,
    Link,
    Unlink,
    Mute,
    Unmute,
}

// The words of an edit: one, two or three of these.
pub type Words = [&'static [u8]; 3];

pub(crate) fn edit_of(
    alloc: Global,
    kind: EditKind,
    words: [&[u8]; 3],
) -> Result<Edit, AllocError> {
    let [a, b, c] = words;
    let a = Name::of(alloc, a)?;
    let b = Name::of(alloc, b)?;
    Ok(match kind {
        EditKind::Create => Edit::Create { name: a, class: b },
        EditKind::Delete => Edit::Delete { name: a },
        EditKind::Link => Edit::Link {
            a,
            rel: b,
            b: Name::of(alloc, c)?,
        },
        EditKind::Unlink => Edit::Unlink {
            a,
            rel: b,
            b: Name::of(alloc, c)?,
        },
        EditKind::Mute => Edit::Mute { event: a, name: b },
        EditKind::Unmute => Edit::Unmute { event: a, name: b },
    })
}

fn has_good_name(edit: &Edit) -> bool
    ensures { IsTrue result → HasGoodName edit.now }
{
    match edit {
        Edit::Create { name, .. } => is_instance(name.bytes()),
        _ => true,
    }
}

// Why this edit isn't made, if it isn't.
fn try_edit(alloc: Global, topology: &mut Topology, edit: &Edit) -> Option<EditFault> {
    if !has_good_name(edit) {
        return None;
    }
    topology.apply(alloc, edit).err()
}

// Why the edit of these words isn't made, if it isn't.
pub(crate) fn fault_of(
    alloc: Global,
    topology: &mut Topology,
    kind: EditKind,
    words: [&[u8]; 3],
) -> Result<Option<EditFault>, AllocError> {
    let edit = edit_of(alloc, kind, words)?;
    let fault = try_edit(alloc, topology, &edit);
    drop(edit);
    Ok(fault)
}

// What is done in turn, and why it isn't done.
const STEPS: [(EditKind, Words, Option<EditRefusal>); 30] = [
    (
        EditKind::Create,
        [b"hub", b"Hub", b""],
        Some(EditRefusal::NoClass),
    ),
    (EditKind::Create, [b"hub", b"Base", b""], None),
    (
        EditKind::Create,
        [b"hub", b"Port", b""],
        Some(EditRefusal::Exists),
    ),
    (EditKind::Create, [b"p1", b"Port", b""], None),
    (EditKind::Create, [b"p2", b"Port", b""], None),
    (EditKind::Create, [b"other", b"Mid", b""], None),
    (
        EditKind::Link,
        [b"hub", b"ports", b"p3"],
        Some(EditRefusal::NoInstance),
    ),
    (
        EditKind::Link,
        [b"hub", b"links", b"p1"],
        Some(EditRefusal::NoRelation),
    ),
    (
        EditKind::Link,
        [b"hub", b"ports", b"other"],
        Some(EditRefusal::WrongKind),
    ),
    (EditKind::Link, [b"hub", b"ports", b"p1"], None),
    (
        EditKind::Link,
        [b"hub", b"ports", b"p1"],
        Some(EditRefusal::Linked),
    ),
    (
        EditKind::Link,
        [b"p1", b"owner", b"hub"],
        Some(EditRefusal::Linked),
    ),
    (
        EditKind::Link,
        [b"other", b"ports", b"p1"],
        Some(EditRefusal::Occupied),
    ),
    (EditKind::Link, [b"hub", b"ports", b"p2"], None),
    (
        EditKind::Unlink,
        [b"other", b"ports", b"p1"],
        Some(EditRefusal::NotLinked),
    ),
    // Unlinked from the other side.
    (EditKind::Unlink, [b"p1", b"owner", b"hub"], None),
    (EditKind::Link, [b"other", b"ports", b"p1"], None),
    (EditKind::Mute, [b"S", b"hub", b""], None),
    (
        EditKind::Mute,
        [b"S", b"hub", b""],
        Some(EditRefusal::AlreadyMuted),
    ),
    (
        EditKind::Mute,
        [b"P", b"hub", b""],
        Some(EditRefusal::NoSymptom),
    ),
    (
        EditKind::Mute,
        [b"S", b"p1", b""],
        Some(EditRefusal::NoSymptom),
    ),
    (
        EditKind::Unmute,
        [b"T", b"hub", b""],
        Some(EditRefusal::NotMuted),
    ),
    (EditKind::Unmute, [b"S", b"hub", b""], None),
    (EditKind::Mute, [b"T", b"hub", b""], None),
    (
        EditKind::Delete,
        [b"p3", b"", b""],
        Some(EditRefusal::NoInstance),
    ),
    (EditKind::Delete, [b"other", b"", b""], None),
    // Nothing is left of the link of an instance that is deleted.
    (EditKind::Link, [b"hub", b"ports", b"p1"], None),
    // T is hidden in Low.
    (EditKind::Create, [b"low", b"Low", b""], None),
    (
        EditKind::Mute,
        [b"T", b"low", b""],
        Some(EditRefusal::NoSymptom),
    ),
    (EditKind::Create, [b"alpha", b"Base", b""], None),
];

fn try_all(
    rt: &impl Abort,
    alloc: Global,
    topology: &mut Topology,
    steps: &[(EditKind, Words, Option<EditRefusal>)],
) -> Result<(), AllocError> {
    for (kind, words, wanted) in steps {
        let fault = fault_of(alloc, topology, *kind, *words)?;
        assert_eq!(rt; fault, wanted.map(EditFault::Refused), "{words:?}");
    }
    Ok(())
}

// Whether these are the nodes of these events and instances, in this order.
fn are_nodes(topology: &Topology, nodes: &[NodeId], names: &[(&[u8], &[u8])]) -> bool {
    nodes.len() == names.len()
        && nodes.iter().zip(names).all(|(node, (event, name))| topology.node_named(event, name)
            == Some(*node))
}

const COLUMNS: [(&[u8], &[u8]); 4] = [
    (b"S", b"alpha"),
    (b"T", b"alpha"),
    // T is muted at the hub.
    (b"S", b"hub"),
    (b"S", b"low"),
];

const PROBLEMS: [(&[u8], &[u8]); 3] = [(b"P", b"alpha"), (b"P", b"hub"), (b"P", b"low")];

// Once `low` is deleted and `new` created.
const LATER_PROBLEMS: [(&[u8], &[u8]); 3] = [(b"P", b"alpha"), (b"P", b"hub"), (b"P", b"new")];

// Whether the numbers stay while another instance comes and goes, whose numbers are used again.
fn keep_numbers(alloc: Global, topology: &mut Topology) -> Result<bool, AllocError> {
    let instance = topology.instance_named(b"hub");
    let node = topology.node_named(b"T", b"hub");
    let capacity = topology.node_capacity();
    fault_of(alloc, topology, EditKind::Delete, [b"low", b"", b""])?;
    fault_of(alloc, topology, EditKind::Create, [b"new", b"Mid", b""])?;
    Ok(
        topology.instance_named(b"hub") == instance
            && topology.node_named(b"T", b"hub") == node
            && node.is_some()
            && topology.node_named(b"P", b"new").is_some()
            && topology.node_capacity() == capacity,
    )
}

// All steps, over a topology without instances, and then what it has.
fn work_through(rt: &impl Abort, alloc: Global, topology: &mut Topology) -> Result<(), AllocError> {
    try_all(rt, alloc, topology, &STEPS)?;
    let columns = topology.columns(alloc)?;
    assert!(rt; are_nodes(topology, columns.as_slice(), &COLUMNS));
    let problems = topology.problems(alloc)?;
    assert!(rt; are_nodes(topology, problems.as_slice(), &PROBLEMS));
    assert_eq!(rt; topology.instance_count(), 5);
    assert_eq!(rt; topology.node_count(), 9);
    assert!(rt; keep_numbers(alloc, topology)?);
    let problems = topology.problems(alloc)?;
    assert!(rt; are_nodes(topology, problems.as_slice(), &LATER_PROBLEMS));
    Ok(())
}

#[test]
fn edits_in_turn(rt: HostRuntime) -> Result<(), AllocError> {
    let alloc = rt.alloc();
    let mut topology = Topology::new(alloc, sample_model(alloc)?);
    let done = work_through(&rt, alloc, &mut topology);
    drop(topology);
    done
}

// The steps again, over nodes that are kept in order from the start.
#[test]
fn settled_edits_in_turn(rt: HostRuntime) -> Result<(), AllocError> {
    let alloc = rt.alloc();
    let mut topology = Topology::new(alloc, sample_model(alloc)?);
    let settled = topology.settle(alloc);
    let done = work_through(&rt, alloc, &mut topology);
    drop(topology);
    settled?;
    done
}
