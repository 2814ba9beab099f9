//! Files line by line, over the model of cb_sample.
ghost use Rattle.std.specs.Prelude.{◌≡◌, IfOk};

use cb_line_files::{LineFault, SymptomStop, TopologyStop, read_symptoms, read_topology};
use cb_model::RelId;
use cb_network::EditRefusal;
use cb_sample::sample_model;
use cb_topo::Topology;
use std::alloc::{AllocError, Global};
use std::process::Abort;
use std::test::Fail;

// A beginning, spaces and an end, with what is wanted of them.
type Spaced<T> = ((&'static [u8], usize, &'static [u8]), T);

// An instance's name of 63 bytes, the longest one, and one byte more.
const LONGEST: &[u8] = b"a@x23456789012345678901234567890123456789012345678901234567890123";

const TOO_LONG: &[u8] = b"a@x234567890123456789012345678901234567890123456789012345678901234";

// Texts with a number of spaces in the middle, whose longest line has 4,096 bytes.
const SHORT_SYMPTOMS: [Spaced<Result<(usize, &[u8], &[u8]), SymptomStop>>; 4] = [
    ((b"Heat@p1", 4_089, b""), Ok((1, b"Heat", b"Heat"))),
    ((b"Heat@p1", 4_089, b"\nA@q\n"), Ok((2, b"Heat", b"A"))),
    ((b"Heat@p1", 4_088, b"\r\n"), Ok((1, b"Heat", b"Heat"))),
    (
        (b"\nHeat\n", 4_096, b"\nNoise\n"),
        Err(SymptomStop::BadName { line: 2 }),
    ),
];

// Texts with a number of spaces in the middle, and the line that has 4,097 bytes.
const LONG_SYMPTOMS: [Spaced<u64>; 5] = [
    ((b"Heat@p1", 4_090, b""), 1),
    ((b"Heat@p1", 4_090, b"\n"), 1),
    ((b"Heat@p1", 4_089, b"\r\n"), 1),
    ((b"Heat\n\n#", 4_096, b"\nNoise\n"), 3),
    ((b"\nHeat@p1\n", 4_097, b"\nNoise"), 3),
];

const SHORT_LINES: [Spaced<Result<(usize, usize, usize), TopologyStop>>; 2] = [
    ((b"create b Base", 4_083, b"\n"), Ok((1, 2, 0))),
    (
        (b"\ncreate b\n", 4_096, b"\n"),
        Err(TopologyStop::BadLine {
            line: 2,
            fault: LineFault::BadWords,
        }),
    ),
];

const LONG_LINES: [Spaced<u64>; 4] = [
    ((b"create b Base", 4_084, b"\n"), 1),
    ((b"create b Base\n#", 4_096, b""), 2),
    ((b"create b\n\n", 4_097, b"\ndelete b\n"), 3),
    ((b"create b Base\ncreate b Base\n", 4_097, b"\n"), 3),
];

// A text with `spaces` spaces in the middle.
fn spaced(
    alloc: Global,
    before: &[u8],
    spaces: usize,
    after: &[u8],
) -> Result<Vec<u8>, AllocError> {
    let mut text = Vec::from_slice(alloc, before)?;
    for _space in 0..spaces {
        text.push(b' ')?;
    }
    text.extend_from_slice(after)?;
    Ok(text)
}

// How many nodes the text lists, with the events of the first and the last one, or why it lists none.
fn check_symptoms(
    rt: &impl Abort,
    alloc: Global,
    text: &[u8],
    wanted: Result<(usize, &[u8], &[u8]), SymptomStop>,
) {
    match (read_symptoms(alloc, text), wanted) {
        (Ok(nodes), Ok((count, first, last))) => {
            let first_event = nodes.as_slice().first().map(|node| node.event.bytes());
            let last_event = nodes.as_slice().last().map(|node| node.event.bytes());
            assert_eq!(rt; nodes.len(), count, "{text:?}");
            assert_eq!(rt; first_event.unwrap_or(b""), first, "{text:?}");
            assert_eq!(rt; last_event.unwrap_or(b""), last, "{text:?}");
        }
        (Err(stop), Err(expected)) => assert_eq!(rt; stop, expected, "{text:?}"),
        _ => assert!(rt; false, "{text:?}"),
    }
}

#[test]
fn symptom_lines(rt: HostRuntime) {
    let table: [(&[u8], (usize, &[u8], &[u8])); 15] = [
        (b"", (0, b"", b"")),
        (b"\n \t\r\n", (0, b"", b"")),
        (b"Heat@p1", (1, b"Heat", b"Heat")),
        (b"Heat@p1\n", (1, b"Heat", b"Heat")),
        (b"Heat@p1\r\n", (1, b"Heat", b"Heat")),
        (b"\tHeat@p1 \r\n\r\n# A@p1\n\t#\n", (1, b"Heat", b"Heat")),
        (b"Noise@p1\nHeat@p1\nNoise@p1\n", (2, b"Heat", b"Noise")),
        (b"Noise@p1\nHeat@p2", (2, b"Noise", b"Heat")),
        (b"Heat@p2\nNoise@p1\n", (2, b"Noise", b"Heat")),
        (b"#\n\nB@q\nA@q\n#\nC@p", (3, b"C", b"B")),
        (b"E@10.0.0.1:80/x\n", (1, b"E", b"E")),
        (b"E@class\n", (1, b"E", b"E")),
        (b"#\xff\n", (0, b"", b"")),
        (b"#Heat\n # Heat@p1@p2", (0, b"", b"")),
        (LONGEST, (1, b"a", b"a")),
    ];
    for (text, wanted) in table {
        check_symptoms(&rt, rt.alloc(), text, Ok(wanted));
    }
}

#[test]
fn bad_symptom_lines(rt: HostRuntime) {
    let table: [(&[u8], u64); 14] = [
        (b"Heat", 1),
        (b"Heat@\n", 1),
        (b"@p1\n", 1),
        (b"Heat@p1@p2\n", 1),
        (b"Heat@@p1\n", 1),
        (b"class@p1\n", 1),
        (b"9@p1\n", 1),
        (b"Heat@p1 Noise@p1\n", 1),
        (b"Heat @p1\n", 1),
        (b"Heat@p1#\n", 1),
        (b"Heat@p1\n\n# x\nHeat\nNoise\n", 4),
        (b"Heat@p1\r\nHeat@p1\r\nHeat@p\xc3\xa9\r\n", 3),
        (b"\n\x0b", 2),
        (TOO_LONG, 1),
    ];
    for (text, line) in table {
        check_symptoms(&rt, rt.alloc(), text, Err(SymptomStop::BadName { line }));
    }
}

// Checks what is read of a symptom text with spaces in the middle.
fn check_spaced_symptoms(
    rt: &impl Abort,
    alloc: Global,
    (before, spaces, after): (&[u8], usize, &[u8]),
    wanted: Result<(usize, &[u8], &[u8]), SymptomStop>,
) -> Result<(), AllocError> {
    let text = spaced(alloc, before, spaces, after)?;
    check_symptoms(rt, alloc, &text, wanted);
    Ok(())
}

#[test]
fn long_symptom_lines(rt: HostRuntime) -> Result<(), Fail> {
    for (parts, wanted) in SHORT_SYMPTOMS {
        check_spaced_symptoms(&rt, rt.alloc(), parts, wanted)?;
    }
    for (parts, line) in LONG_SYMPTOMS {
        let stop = SymptomStop::LongLine { line };
        check_spaced_symptoms(&rt, rt.alloc(), parts, Err(stop))?;
    }
    Ok(())
}

// How many ports the instance named `b` has.
fn ports_of_b(topology: &Topology) -> usize {
    match topology.instance_named(b"b") {
        Some(id) => topology.links(id, RelId(0)).len(),
        None => 0,
    }
}

// How many instances and columns the text makes, and how many ports of `b`; or why it makes no topology.
fn made(alloc: Global, text: &[u8]) -> Result<(usize, usize, usize), TopologyStop> {
    let Ok(model) = sample_model(alloc) else {
        return Err(TopologyStop::NoMemory);
    };
    let topology = read_topology(alloc, model, text)?;
    let Ok(columns) = topology.columns(alloc) else {
        return Err(TopologyStop::NoMemory);
    };
    Ok((
        topology.instance_count(),
        columns.len(),
        ports_of_b(&topology),
    ))
}

fn check_topology(
    rt: &impl Abort,
    alloc: Global,
    text: &[u8],
    wanted: Result<(usize, usize, usize), TopologyStop>,
) {
    assert_eq!(rt; made(alloc, text), wanted, "{text:?}");
}

#[test]
fn topology_lines(rt: HostRuntime) {
    let table: [(&[u8], (usize, usize, usize)); 13] = [
        (b"", (0, 0, 0)),
        (b"\r\n# create b Base\n \t#\n", (0, 0, 0)),
        (b"create b Base", (1, 2, 0)),
        (b"\tcreate b Base\r\n\r\n", (1, 2, 0)),
        (b"create b Low\ncreate class Mid\n", (2, 3, 0)),
        (b"create b Base\ndelete b\n", (0, 0, 0)),
        (b"create b Base\ndelete b\ncreate b Low", (1, 1, 0)),
        (b"create b Base\ncreate p Port\nlink b ports p\n", (2, 2, 1)),
        (b"create b Mid\ncreate p Port\nlink p owner b\n", (2, 2, 1)),
        (
            b"create b Base\ncreate p Port\nlink b ports p\nunlink p owner b",
            (2, 2, 0),
        ),
        (
            b"create b Base\ncreate p Port\nlink b ports p\ndelete p\n",
            (1, 2, 0),
        ),
        (b"create b Base\nmute S@b\n", (1, 1, 0)),
        (
            b"create b Base\nmute S@b\nmute T@b\nunmute S@b\n",
            (1, 1, 0),
        ),
    ];
    for (text, wanted) in table {
        check_topology(&rt, rt.alloc(), text, Ok(wanted));
    }
}

#[test]
fn bad_words(rt: HostRuntime) {
    let table: [(&[u8], u64); 9] = [
        (b"create", 1),
        (b"create b", 1),
        (b"create b Base # new", 1),
        (b"Create b Base\n", 1),
        (b"create b@1 Base\n", 1),
        (b"\n#\ncreate b Base\ndelete\n", 4),
        (b"create b Base\r\nmute S b\r\n", 2),
        (b"create b Base\nlink b ports\ndelete x\n", 2),
        (b"create b Base\n\x0b\n", 2),
    ];
    for (text, line) in table {
        let fault = LineFault::BadWords;
        check_topology(
            &rt,
            rt.alloc(),
            text,
            Err(TopologyStop::BadLine { line, fault }),
        );
    }
}

#[test]
fn refused_lines(rt: HostRuntime) {
    let table: [(&[u8], u64, EditRefusal); 14] = [
        (b"create b Foo\n", 1, EditRefusal::NoClass),
        (b"create b Base\n\ncreate b Port\n", 3, EditRefusal::Exists),
        (b"create b Base\n#\ncreate b Foo\n", 3, EditRefusal::NoClass),
        (b"delete b", 1, EditRefusal::NoInstance),
        (b"create b Base\nlink b foo p\n", 2, EditRefusal::NoInstance),
        (b"create b Base\nmute S@p\nx\n", 2, EditRefusal::NoInstance),
        (
            b"create b Base\nlink b owner b\n",
            2,
            EditRefusal::NoRelation,
        ),
        (
            b"create b Base\nlink b ports b\n",
            2,
            EditRefusal::WrongKind,
        ),
        (
            b"create b Base\ncreate p Port\nlink b ports p\nlink p owner b\n",
            4,
            EditRefusal::Linked,
        ),
        (
            b"create b Base\ncreate c Low\ncreate p Port\nlink b ports p\nlink c ports p\n",
            5,
            EditRefusal::Occupied,
        ),
        (
            b"create b Base\ncreate p Port\nunlink b ports p\n",
            3,
            EditRefusal::NotLinked,
        ),
        (
            b"create b Low\nmute S@b\nmute T@b\n",
            3,
            EditRefusal::NoSymptom,
        ),
        (
            b"create b Low\nmute S@b\nmute S@b\n",
            3,
            EditRefusal::AlreadyMuted,
        ),
        (b"create b Low\nunmute S@b\n", 2, EditRefusal::NotMuted),
    ];
    for (text, line, why) in table {
        let fault = LineFault::Refused(why);
        check_topology(
            &rt,
            rt.alloc(),
            text,
            Err(TopologyStop::BadLine { line, fault }),
        );
    }
}

// Checks what is read of a topology text with spaces in the middle.
fn check_spaced_topology(
    rt: &impl Abort,
    alloc: Global,
    (before, spaces, after): (&[u8], usize, &[u8]),
    wanted: Result<(usize, usize, usize), TopologyStop>,
) -> Result<(), AllocError> {
    let text = spaced(alloc, before, spaces, after)?;
    check_topology(rt, alloc, &text, wanted);
    Ok(())
}

#[test]
fn long_lines(rt: HostRuntime) -> Result<(), Fail> {
    for (parts, wanted) in SHORT_LINES {
        check_spaced_topology(&rt, rt.alloc(), parts, wanted)?;
    }
    for (parts, line) in LONG_LINES {
        let stop = TopologyStop::LongLine { line };
        check_spaced_topology(&rt, rt.alloc(), parts, Err(stop))?;
    }
    Ok(())
}
