//! A log of raises, clears and ticks, with the windows that each record closes.
use cb_model::{List, Name, NodeName};
use cb_window::{Closed, Windows};
use std::alloc::{AllocError, Global};
use std::process::Abort;
use std::test::Fail;

// What a record says: a raise or a clear by its source and the instance of its node, or neither.
#[derive(Clone, Copy)]
enum Said {
    Raise(&'static [u8], &'static [u8]),
    Clear(&'static [u8], &'static [u8]),
    Neither,
}

// A window that closes: its source, its two times, and the instances of its nodes.
type Wanted = (&'static [u8], u64, u64, &'static [&'static [u8]]);

const LENGTH: u64 = 10;

const LOG: [(u64, Said, &[Wanted]); 11] = [
    (0, Said::Raise(b"c1", b"p1"), &[]),
    (3, Said::Raise(b"c2", b"p1"), &[]),
    (5, Said::Raise(b"c1", b"p3"), &[]),
    (5, Said::Raise(b"c1", b"p2"), &[]),
    (6, Said::Clear(b"c1", b"p1"), &[]),
    (7, Said::Clear(b"c3", b"p1"), &[]),
    (4, Said::Neither, &[]),
    (
        10,
        Said::Raise(b"c1", b"p4"),
        &[(b"c1", 0, 10, &[b"p2", b"p3"])],
    ),
    (13, Said::Neither, &[(b"c2", 3, 13, &[b"p1"])]),
    (25, Said::Raise(b"c2", b"p5"), &[(b"c1", 10, 25, &[b"p4"])]),
    (9, Said::Raise(b"c0", b"p6"), &[]),
];

const REST: [Wanted; 2] = [(b"c0", 25, 25, &[b"p6"]), (b"c2", 25, 25, &[b"p5"])];

fn node_of(alloc: Global, instance: &[u8]) -> Result<NodeName, AllocError> {
    NodeName::of(alloc, b"E", instance)
}

// The windows that the record closes, after which the log goes on by it.
fn go_on(
    alloc: Global,
    windows: &mut Windows,
    at: u64,
    said: Said,
) -> Result<List<Closed>, AllocError> {
    let closing = windows.due(alloc, at)?;
    match said {
        Said::Raise(from, instance) => {
            windows.raise(
                alloc,
                at,
                &Name::of(alloc, from)?,
                &node_of(alloc, instance)?,
            )?;
        }
        Said::Clear(from, instance) => {
            windows.clear(at, &Name::of(alloc, from)?, &node_of(alloc, instance)?);
        }
        Said::Neither => windows.pass(at),
    }
    Ok(closing)
}

fn check(rt: &impl Abort, closing: &List<Closed>, wanted: &[Wanted]) {
    assert_eq!(rt; closing.as_slice().len(), wanted.len());
    for (closed, (from, opened, at, nodes)) in closing.as_slice().iter().zip(wanted) {
        assert_eq!(rt;
            (closed.from.bytes(), closed.opened, closed.closed),
            (*from, *opened, *at)
        );
        assert_eq!(rt; closed.nodes.as_slice().len(), nodes.len());
        for (node, instance) in closed.nodes.as_slice().iter().zip(*nodes) {
            assert_eq!(rt; node.instance.bytes(), *instance);
        }
    }
}

fn check_log(rt: &impl Abort, alloc: Global, windows: &mut Windows) -> Result<(), AllocError> {
    for (at, said, wanted) in LOG {
        let closing = go_on(alloc, windows, at, said)?;
        check(rt, &closing, wanted);
    }
    check(rt, &windows.rest(alloc)?, &REST);
    Ok(())
}

#[test]
fn windows_close(rt: HostRuntime) -> Result<(), Fail> {
    let alloc = rt.alloc();
    let mut windows = Windows::new(alloc, LENGTH);
    check_log(&rt, alloc, &mut windows)?;
    assert_eq!(rt; windows.now(), 25);
    Ok(())
}
