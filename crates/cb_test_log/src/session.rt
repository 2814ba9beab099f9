//! A log over the sample model, with the texts of what results from each line.
ghost use Rattle.std.specs.Prelude.{◌≡◌, ◌<◌};
ghost use Rattle.cb_session.specs.State.{IsFitting};

use cb_cache::Cache;
use cb_graph::Graph;
use cb_log::Event;
use cb_model::{GroupName, List, NamedGroup, NodeName};
use cb_sample::sample_model;
use cb_session::{LogLine, Session};
use cb_steps::{MayCount, Steps};
use cb_topo::Topology;
use std::alloc::{AllocError, Global};
use std::marker::Brand;
use std::process::Abort;
use std::sync::ledger::{Blank, Ledger};
use std::test::Fail;

// The lines of a log, of which `None` has too many bytes, each with what results from it.
const LOG: [(Option<&str>, &str); 18] = [
    (Some("{\"at\":0,\"edit\":\"create a Base\"}"), ""),
    (Some("{\"at\":0,\"edit\":\"create b Base\"}"), ""),
    (Some(" \t"), ""),
    (Some("{\"at\":1,\"from\":\"c1\",\"raise\":\"S@a\"}"), ""),
    (Some("{\"at\":2,\"from\":\"c2\",\"raise\":\"S@b\"}"), ""),
    (
        Some("{\"at\":1000,\"raise\":\"S@a\"}"),
        "skipped 6 Bad(BadSource)\n",
    ),
    (Some("{\"at\":3,\"from\":\"c1\",\"raise\":\"T@a\"}"), ""),
    (Some("{\"at\":4,\"from\":\"c2\",\"raise\":\"T@b\"}"), ""),
    (
        Some("{\"at\":5,\"edit\":\"create a Base\"}"),
        "refused 9 Edit(Exists)\n",
    ),
    // It closes the window of c1, which is diagnosed without the new instance.
    (
        Some("{\"at\":11,\"edit\":\"create c Mid\"}"),
        "thin 3 quiet P@a 2\nbook 4 of 4 distance 2 radius 0 groups 3\nc1 1 11 raised 2 unknown 0 distance 0 radius 0 true P@a\n",
    ),
    // The window of c2, with the new instance.
    (
        Some("{\"at\":12,\"tick\":true}"),
        "thin 3 quiet P@a 2\nbook 3 of 6 distance 1 radius 0 groups 4\nc2 2 12 raised 2 unknown 0 distance 0 radius 0 true P@b\n",
    ),
    (Some("{\"at\":20,\"from\":\"c1\",\"raise\":\"S@c\"}"), ""),
    (None, "skipped 13 Long\n"),
    (
        Some("{\"at\":21,\"edit\":\"delete z\"}"),
        "refused 14 Edit(NoInstance)\n",
    ),
    (Some("{\"at\":25,\"from\":\"c2\",\"raise\":\"X@y\"}"), ""),
    // The codebook is still in use, as the edit before was refused.
    (
        Some("{\"at\":30,\"from\":\"c1\",\"raise\":\"S@a\"}"),
        "c1 20 30 raised 1 unknown 0 distance 0 radius 0 true P@c\n",
    ),
    (Some("{\"at\":31,\"from\":\"c1\",\"raise\":\"T@a\"}"), ""),
    (Some("{\"at\":32,\"from\":\"c1\",\"clear\":\"T@b\"}"), ""),
];

const END: &str =
    "c2 25 32 raised 1 unknown 1 distance 0 radius 0 true quiet\nc1 30 32 raised 2 unknown 0 distance 0 radius 0 true P@a\n";

fn put(out: &mut String, bytes: &[u8]) -> Result<(), AllocError> {
    for byte in bytes {
        out.push(char::from(*byte))?;
    }
    Ok(())
}

fn put_node(out: &mut String, node: &NodeName) -> Result<(), AllocError> {
    put(out, node.event.bytes())?;
    put(out, b"@")?;
    put(out, node.instance.bytes())
}

fn put_called(out: &mut String, group: &GroupName) -> Result<(), AllocError> {
    match group {
        GroupName::Quiet => put(out, b"quiet"),
        GroupName::Least(node) => put_node(out, node),
    }
}

fn put_groups(out: &mut String, groups: &List<NamedGroup>) -> Result<(), AllocError> {
    for group in groups.as_slice() {
        put(out, b" ")?;
        if group.quiet {
            put(out, b"quiet")?;
        }
        for node in group.members.as_slice() {
            put_node(out, node)?;
        }
    }
    Ok(())
}

fn put_event(alloc: Global, out: &mut String, event: &Event) -> Result<(), AllocError> {
    match event {
        Event::Skipped { line, why } => {
            out.push_str(format!(in alloc; "skipped {line} {why:?}")?.as_str())
        }
        Event::Refused { line, why } => {
            out.push_str(format!(in alloc; "refused {line} {why:?}")?.as_str())
        }
        Event::Thin {
            wanted,
            first,
            second,
            distance,
        } => {
            out.push_str(format!(in alloc; "thin {wanted} ")?.as_str())?;
            put_called(out, first)?;
            put(out, b" ")?;
            put_called(out, second)?;
            out.push_str(format!(in alloc; " {distance}")?.as_str())
        }
        Event::BookMade {
            columns,
            of,
            distance,
            radius,
            groups,
        } => {
            out.push_str(format!(in alloc;
                "book {columns} of {of} distance {distance} radius {radius} groups {groups}"
            )?.as_str())
        }
        Event::CapMade {
            columns,
            of,
            cap,
            least,
            greatest,
            groups,
        } => {
            out.push_str(format!(in alloc;
                "book {columns} of {of} cap {cap} radius {least} to {greatest} groups {groups}"
            )?.as_str())
        }
        Event::Diagnosis {
            from,
            opened,
            closed,
            finding,
        } => {
            put(out, from.bytes())?;
            out.push_str(format!(in alloc;
                " {opened} {closed} raised {} unknown {} distance {} radius {} {}",
                finding.raised, finding.unknown, finding.distance, finding.radius, finding.sure
            )?
            .as_str())?;
            put_groups(out, &finding.groups)
        }
    }
}

/// The lines of events.
pub(crate) fn text_of(alloc: Global, events: &List<Event>) -> Result<String, AllocError> {
    let mut out = String::new(alloc);
    for event in events.as_slice() {
        put_event(alloc, &mut out, event)?;
        put(&mut out, b"\n")?;
    }
    Ok(out)
}

/// The line, without its bytes where there are none or too many.
pub(crate) fn line_of(number: u64, text: Option<&'static str>) -> LogLine<'static>
    ensures { IsFitting result }
{
    match text {
        None => LogLine::Long { number },
        Some(text) => {
            let bytes = text.as_bytes();
            if bytes.len() > 65_536 {
                return LogLine::Long { number };
            }
            LogLine::Text { number, bytes }
        }
    }
}

fn opened<L: Ledger>(alloc: Global, steps: &mut Steps<L>) -> Result<Session, AllocError> {
    let graph = Graph::new(alloc, Topology::new(alloc, sample_model(alloc)?))?;
    Session::open(alloc, Cache::open(alloc, graph, steps)?, 3, 10)
}

fn check_log<L: Ledger>(
    rt: &impl Abort,
    alloc: Global,
    session: &mut Session,
    steps: &mut Steps<L>,
) -> Result<(), AllocError> {
    let mut number: u64 = 0;
    for (text, wanted) in LOG {
        number = u64::saturating_add(number, 1);
        let events = session.step(alloc, line_of(number, text), steps)?;
        assert_eq!(rt; text_of(alloc, &events)?.as_str(), wanted);
    }
    let ends = session.finish(alloc)?;
    assert_eq!(rt; text_of(alloc, &ends)?.as_str(), END);
    Ok(())
}

fn ran<L: Ledger>(
    rt: &(impl Abort + MayCount),
    alloc: Global,
    blank: Blank,
) -> Result<(), AllocError>
    requires name { blank.name ≡ L.name }
    requires parts { blank.parts ≡ L.parts }
    requires some { 0 < L.parts }
{
    let mut steps = Steps::<L>::new(rt, blank);
    let mut session = opened(alloc, &mut steps)?;
    let done = check_log(rt, alloc, &mut session, &mut steps);
    drop(session);
    done
}

#[test]
fn events_come_line_by_line(rt: HostRuntime) -> Result<(), Fail> {
    ran::<Brand>(&rt, rt.alloc(), Blank::new(1))?;
    Ok(())
}
