//! The lines of findings, events and sums, as an operator reads them.
use cb_finding::Finding;
use cb_log::{Event, RefusedWhy, SkipKind, SkipWhy};
use cb_model::{GroupName, List, Name, NamedGroup, NodeName};
use cb_network::EditRefusal;
use cb_report::{Summary, burst_text, event_text, events_text, grow_text};
use std::alloc::{AllocError, Global};
use std::test::Fail;

fn node(alloc: Global, event: &[u8], instance: &[u8]) -> Result<NodeName, AllocError> {
    Ok(NodeName {
        event: Name::of(alloc, event)?,
        instance: Name::of(alloc, instance)?,
    })
}

#[test]
fn a_tie_lists_quiet_and_the_others(rt: HostRuntime) -> Result<(), Fail> {
    let alloc = rt.alloc();
    let mut members = List::new(alloc);
    members.push(node(alloc, b"Dry", b"p1")?)?;
    members.push(node(alloc, b"Worn", b"p1")?)?;
    let mut groups = List::new(alloc);
    groups.push(NamedGroup {
        quiet: true,
        members: List::new(alloc),
    })?;
    groups.push(NamedGroup {
        quiet: false,
        members,
    })?;
    let finding = Finding {
        raised: 18446744073709551615,
        unknown: 0,
        distance: 1,
        radius: 12,
        sure: false,
        groups,
    };
    let text = burst_text(alloc, &finding)?;
    assert_eq!(rt;
        text.as_slice(),
        b"burst raised 18446744073709551615 unknown 0 distance 1 radius 12 unsure groups 2\n  group quiet\n  group Dry@p1 Worn@p1\n".as_slice()
    );
    Ok(())
}

// A finding that names the quiet group alone.
fn quiet_finding(alloc: Global) -> Result<Finding, AllocError> {
    let mut groups = List::new(alloc);
    groups.push(NamedGroup {
        quiet: true,
        members: List::new(alloc),
    })?;
    Ok(Finding {
        raised: 1,
        unknown: 0,
        distance: 1,
        radius: 1,
        sure: true,
        groups,
    })
}

// Adds an event of each kind.
fn add_events(alloc: Global, events: &mut List<Event>) -> Result<(), AllocError> {
    events.push(Event::Skipped {
        line: 1,
        why: SkipWhy::Long,
    })?;
    events.push(Event::Skipped {
        line: 22,
        why: SkipWhy::Bad(SkipKind::BadAt),
    })?;
    events.push(Event::Refused {
        line: 23,
        why: RefusedWhy::Edit(EditRefusal::Exists),
    })?;
    events.push(Event::Refused {
        line: 24,
        why: RefusedWhy::Fixed,
    })?;
    events.push(Event::Thin {
        wanted: 3,
        first: GroupName::Quiet,
        second: GroupName::Least(node(alloc, b"Dry", b"p1")?),
        distance: 2,
    })?;
    events.push(Event::BookMade {
        columns: 7,
        of: 9,
        distance: 3,
        radius: 1,
        groups: 5,
    })?;
    events.push(Event::Diagnosis {
        from: Name::of(alloc, b"probe")?,
        opened: 10,
        closed: 70,
        finding: quiet_finding(alloc)?,
    })
}

const EVENT_LINES: &str =
    "skipped 1 long\nskipped 22 bad-at\nrefused 23 exists\nrefused 24 fixed\nthin wanted 3 first quiet second Dry@p1 distance 2\nbook columns 7 of 9 distance 3 radius 1 groups 5\ndiagnosis probe 10 70 raised 1 unknown 0 distance 1 radius 1 sure groups 1\n  group quiet\n";

#[test]
fn each_event_has_its_lines(rt: HostRuntime) -> Result<(), Fail> {
    let alloc = rt.alloc();
    let mut events = List::new(alloc);
    add_events(alloc, &mut events)?;
    let text = events_text(alloc, &events)?;
    assert_eq!(rt; text.as_slice(), EVENT_LINES.as_bytes());
    let first = event_text(alloc, &events.as_slice()[0])?;
    assert_eq!(rt; first.as_slice(), b"skipped 1 long\n".as_slice());
    Ok(())
}

const SUMMARY_LINES: &str =
    "grow sites 4 start 7\ninstances 19 nodes 46 problems 19 symptoms 18 groups 18\nrecords 3020 skipped 0 refused 508\ndiagnoses 228 sure 44 unknown 256 thin 20 books 20\n";

#[test]
fn a_summary_has_four_lines(rt: HostRuntime) -> Result<(), Fail> {
    let summary = Summary {
        sites: 4,
        start: 7,
        instances: 19,
        nodes: 46,
        problems: 19,
        symptoms: 18,
        groups: 18,
        records: 3020,
        skipped: 0,
        refused: 508,
        diagnoses: 228,
        sure: 44,
        unknown: 256,
        thin: 20,
        books: 20,
    };
    let text = grow_text(rt.alloc(), &summary)?;
    assert_eq!(rt; text.as_slice(), SUMMARY_LINES.as_bytes());
    Ok(())
}

// Counts a record, each of the events, and one diagnosis more, which isn't sure.
fn count_all(alloc: Global, summary: &mut Summary, events: &List<Event>) -> Result<(), AllocError> {
    summary.count_record()?;
    for event in events.as_slice() {
        summary.count(event)?;
    }
    let mut finding = quiet_finding(alloc)?;
    finding.sure = false;
    finding.unknown = 3;
    summary.count(&Event::Diagnosis {
        from: Name::of(alloc, b"probe")?,
        opened: 70,
        closed: 90,
        finding,
    })
}

const COUNTED_LINES: &str =
    "grow sites 4 start 7\ninstances 0 nodes 0 problems 0 symptoms 0 groups 0\nrecords 1 skipped 2 refused 2\ndiagnoses 2 sure 1 unknown 3 thin 1 books 1\n";

#[test]
fn a_summary_counts_events(rt: HostRuntime) -> Result<(), Fail> {
    let alloc = rt.alloc();
    let mut events = List::new(alloc);
    add_events(alloc, &mut events)?;
    let mut summary = Summary::new(4, 7);
    count_all(alloc, &mut summary, &events)?;
    let text = grow_text(alloc, &summary)?;
    assert_eq!(rt; text.as_slice(), COUNTED_LINES.as_bytes());
    Ok(())
}
