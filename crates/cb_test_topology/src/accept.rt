//! Which edits are accepted, of a small topology and of full ones.
use crate::topo::{EditKind, Words, edit_of, fault_of};
use cb_network::EditRefusal;
use cb_sample::sample_model;
use cb_topo::{EditFault, Topology};
use std::alloc::{AllocError, Global};
use std::process::Abort;

// A base with a port and a muted symptom, a low instance, and a port of nobody's.
const MADE: [(EditKind, Words); 6] = [
    (EditKind::Create, [b"hub", b"Base", b""]),
    (EditKind::Create, [b"low", b"Low", b""]),
    (EditKind::Create, [b"p1", b"Port", b""]),
    (EditKind::Create, [b"p2", b"Port", b""]),
    (EditKind::Link, [b"hub", b"ports", b"p1"]),
    (EditKind::Mute, [b"S", b"hub", b""]),
];

// Edits, and the refusal of each.
const EDITS: [(EditKind, Words, Option<EditRefusal>); 38] = [
    (
        EditKind::Create,
        [b"x", b"Nope", b""],
        Some(EditRefusal::NoClass),
    ),
    (
        EditKind::Create,
        [b"hub", b"Nope", b""],
        Some(EditRefusal::NoClass),
    ),
    (
        EditKind::Create,
        [b"hub", b"Port", b""],
        Some(EditRefusal::Exists),
    ),
    (EditKind::Create, [b"x", b"Port", b""], None),
    (
        EditKind::Delete,
        [b"x", b"", b""],
        Some(EditRefusal::NoInstance),
    ),
    (EditKind::Delete, [b"hub", b"", b""], None),
    (
        EditKind::Link,
        [b"hub", b"ports", b"x"],
        Some(EditRefusal::NoInstance),
    ),
    (
        EditKind::Link,
        [b"x", b"nope", b"p1"],
        Some(EditRefusal::NoInstance),
    ),
    (
        EditKind::Link,
        [b"hub", b"nope", b"p1"],
        Some(EditRefusal::NoRelation),
    ),
    (
        EditKind::Link,
        [b"p1", b"ports", b"p2"],
        Some(EditRefusal::NoRelation),
    ),
    (
        EditKind::Link,
        [b"hub", b"ports", b"low"],
        Some(EditRefusal::WrongKind),
    ),
    (
        EditKind::Link,
        [b"p1", b"owner", b"p2"],
        Some(EditRefusal::WrongKind),
    ),
    (
        EditKind::Link,
        [b"hub", b"ports", b"p1"],
        Some(EditRefusal::Linked),
    ),
    (
        EditKind::Link,
        [b"p1", b"owner", b"hub"],
        Some(EditRefusal::Linked),
    ),
    // A port has one owner, from whichever side the link is given.
    (
        EditKind::Link,
        [b"p1", b"owner", b"low"],
        Some(EditRefusal::Occupied),
    ),
    (
        EditKind::Link,
        [b"low", b"ports", b"p1"],
        Some(EditRefusal::Occupied),
    ),
    (EditKind::Link, [b"hub", b"ports", b"p2"], None),
    (EditKind::Link, [b"p2", b"owner", b"low"], None),
    (
        EditKind::Unlink,
        [b"x", b"owner", b"hub"],
        Some(EditRefusal::NoInstance),
    ),
    (
        EditKind::Unlink,
        [b"p1", b"owner", b"x"],
        Some(EditRefusal::NoInstance),
    ),
    (
        EditKind::Unlink,
        [b"p1", b"nope", b"hub"],
        Some(EditRefusal::NoRelation),
    ),
    (
        EditKind::Unlink,
        [b"p1", b"owner", b"low"],
        Some(EditRefusal::NotLinked),
    ),
    (
        EditKind::Unlink,
        [b"hub", b"ports", b"hub"],
        Some(EditRefusal::NotLinked),
    ),
    (EditKind::Unlink, [b"p1", b"owner", b"hub"], None),
    (EditKind::Unlink, [b"hub", b"ports", b"p1"], None),
    (
        EditKind::Mute,
        [b"S", b"x", b""],
        Some(EditRefusal::NoInstance),
    ),
    (
        EditKind::Mute,
        [b"P", b"hub", b""],
        Some(EditRefusal::NoSymptom),
    ),
    (
        EditKind::Mute,
        [b"nope", b"hub", b""],
        Some(EditRefusal::NoSymptom),
    ),
    (
        EditKind::Mute,
        [b"S", b"p1", b""],
        Some(EditRefusal::NoSymptom),
    ),
    // Hidden at this class.
    (
        EditKind::Mute,
        [b"T", b"low", b""],
        Some(EditRefusal::NoSymptom),
    ),
    (
        EditKind::Mute,
        [b"S", b"hub", b""],
        Some(EditRefusal::AlreadyMuted),
    ),
    (EditKind::Mute, [b"T", b"hub", b""], None),
    (EditKind::Mute, [b"S", b"low", b""], None),
    (
        EditKind::Unmute,
        [b"S", b"x", b""],
        Some(EditRefusal::NoInstance),
    ),
    (
        EditKind::Unmute,
        [b"T", b"low", b""],
        Some(EditRefusal::NoSymptom),
    ),
    (
        EditKind::Unmute,
        [b"T", b"hub", b""],
        Some(EditRefusal::NotMuted),
    ),
    (
        EditKind::Unmute,
        [b"S", b"low", b""],
        Some(EditRefusal::NotMuted),
    ),
    (EditKind::Unmute, [b"S", b"hub", b""], None),
];

fn try_edits(
    rt: &impl Abort,
    alloc: Global,
    topology: &Topology,
    edits: &[(EditKind, Words, Option<EditRefusal>)],
) -> Result<(), AllocError> {
    for (kind, words, wanted) in edits {
        let edit = edit_of(alloc, *kind, *words)?;
        let refusal = topology.allows(&edit).err();
        assert_eq!(rt; refusal, *wanted, "{words:?}");
    }
    Ok(())
}

fn make_small(rt: &impl Abort, alloc: Global, topology: &mut Topology) -> Result<(), AllocError> {
    for (kind, words) in &MADE {
        let fault = fault_of(alloc, topology, *kind, *words)?;
        assert!(rt; fault.is_none(), "{words:?}");
    }
    Ok(())
}

fn try_small(rt: &impl Abort, alloc: Global, topology: &mut Topology) -> Result<(), AllocError> {
    make_small(rt, alloc, topology)?;
    try_edits(rt, alloc, topology, &EDITS)?;
    let problems = topology.problems(alloc)?;
    // Without the muted one.
    let columns = topology.columns(alloc)?;
    assert_eq!(rt; topology.node_count(), 6);
    assert_eq!(rt; problems.len(), 2);
    assert_eq!(rt; columns.len(), 2);
    Ok(())
}

#[test]
fn refusals(rt: HostRuntime) -> Result<(), AllocError> {
    let alloc = rt.alloc();
    let mut topology = Topology::new(alloc, sample_model(alloc)?);
    let done = try_small(&rt, alloc, &mut topology);
    drop(topology);
    done
}

// One of sixteen letters.
fn letter(number: u16) -> u8 {
    b'a'.wrapping_add((number % 16) as u8)
}

// Four letters, other ones for each number.
fn name_of(number: u16) -> [u8; 4] {
    [
        letter(number / 4096),
        letter(number / 256),
        letter(number / 16),
        letter(number),
    ]
}

fn create<'w>(
    alloc: Global,
    topology: &mut Topology,
    name: &'w [u8],
    class: &'w [u8],
) -> Result<Option<EditFault>, AllocError> {
    fault_of(alloc, topology, EditKind::Create, [name, class, b""])
}

// Instances of the class, as many as there are numbers.
fn create_numbered(
    rt: &impl Abort,
    alloc: Global,
    topology: &mut Topology,
    class: &[u8],
    numbers: u16,
) -> Result<(), AllocError> {
    for number in 0..numbers {
        let fault = create(alloc, topology, &name_of(number), class)?;
        assert!(rt; fault.is_none(), "{number}");
    }
    Ok(())
}

// That one more isn't created, and why, where these instances of the class are.
fn try_full(
    rt: &impl Abort,
    alloc: Global,
    class: &[u8],
    numbers: u16,
    words: Words,
    wanted: EditRefusal,
) -> Result<(), AllocError> {
    let mut topology = Topology::new(alloc, sample_model(alloc)?);
    create_numbered(rt, alloc, &mut topology, class, numbers)?;
    try_edits(
        rt,
        alloc,
        &topology,
        &[(EditKind::Create, words, Some(wanted))],
    )
}

// As many instances as there may be, and as many symptom nodes, and then one more.
#[test]
fn limits(rt: HostRuntime) -> Result<(), AllocError> {
    let alloc = rt.alloc();
    let port: Words = [b"new", b"Port", b""];
    try_full(
        &rt,
        alloc,
        b"Port",
        16_384,
        port,
        EditRefusal::InstanceLimit,
    )?;
    let low: Words = [b"new", b"Low", b""];
    try_full(&rt, alloc, b"Base", 4_096, low, EditRefusal::SymptomLimit)
}
