//! Numbers that are given, looked up and taken away in turn.
use crate::{Node, NodeTable};
use cb_instances::InstanceId;
use cb_model::EventId;
use std::alloc::{AllocError, Global};
use std::process::Abort;

#[derive(Clone, Copy)]
enum Step {
    // Numbers for the event and the one ten above it, which comes first, and for no other event of the instance.
    Add,
    // No number for any event of the instance.
    Remove,
    // Nothing.
    Look,
}

// Whether there are as many numbers afterwards as were expected.
fn add(
    alloc: Global,
    nodes: &mut NodeTable,
    instance: InstanceId,
    event: u32,
) -> Result<bool, AllocError> {
    nodes.remove(instance);
    if event > 1000 || nodes.count() > 1000 || nodes.capacity() > 1000 {
        return Ok(false);
    }
    let foretold = nodes.capacity_with(2);
    let events = [EventId(event + 10), EventId(event)];
    nodes.add(alloc, instance, &events)?;
    Ok(nodes.capacity() == foretold)
}

// Whether the step could be done.
fn try_step(
    alloc: Global,
    nodes: &mut NodeTable,
    step: Step,
    instance: InstanceId,
    event: u32,
) -> Result<bool, AllocError> {
    match step {
        Step::Add => add(alloc, nodes, instance, event),
        Step::Remove => {
            nodes.remove(instance);
            Ok(true)
        }
        Step::Look => Ok(true),
    }
}

// The number of the event, if the table has the same node under that number.
fn number_of(nodes: &NodeTable, instance: InstanceId, event: EventId) -> Option<u32> {
    let id = nodes.node_at(instance, event)?;
    let node = nodes.node(id)?;
    if node == (Node { instance, event }) {
        Some(id.0)
    } else {
        None
    }
}

// A step for an instance and an event, and then the event's number, how many nodes there are, and how many numbers.
const STEPS: [(Step, usize, u32, Option<u32>, usize, usize); 16] = [
    (Step::Look, 3, 0, None, 0, 0),
    (Step::Add, 3, 0, Some(1), 2, 2),
    (Step::Look, 3, 10, Some(0), 2, 2),
    (Step::Add, 0, 5, Some(3), 4, 4),
    (Step::Look, 0, 15, Some(2), 4, 4),
    (Step::Look, 3, 5, None, 4, 4),
    (Step::Look, 1, 5, None, 4, 4),
    (Step::Look, 9, 0, None, 4, 4),
    // Numbers that are free are given again.
    (Step::Remove, 3, 10, None, 2, 4),
    (Step::Look, 0, 5, Some(3), 2, 4),
    (Step::Add, 7, 2, Some(0), 4, 4),
    (Step::Look, 7, 12, Some(1), 4, 4),
    (Step::Add, 3, 0, Some(5), 6, 6),
    // Nothing is there to be taken away.
    (Step::Remove, 20, 0, None, 6, 6),
    (Step::Remove, 0, 15, None, 4, 6),
    (Step::Add, 1, 4, Some(2), 6, 6),
];

fn try_all(
    rt: &impl Abort,
    alloc: Global,
    nodes: &mut NodeTable,
    steps: &[(Step, usize, u32, Option<u32>, usize, usize)],
) -> Result<(), AllocError> {
    for (step, instance, event, number, count, capacity) in steps {
        let instance = InstanceId(*instance);
        let done = try_step(alloc, nodes, *step, instance, *event)?;
        assert!(rt; done);
        let found = number_of(nodes, instance, EventId(*event));
        assert_eq!(rt; found, *number, "{instance:?} {event}");
        assert_eq!(rt; nodes.count(), *count);
        assert_eq!(rt; nodes.capacity(), *capacity);
    }
    Ok(())
}

// The numbers in use after the steps.
fn capacity_after_steps(rt: &impl Abort, alloc: Global) -> Result<usize, AllocError> {
    let mut nodes = NodeTable::new(alloc);
    try_all(rt, alloc, &mut nodes, &STEPS)?;
    Ok(nodes.capacity())
}

#[test]
fn steps_in_turn(rt: HostRuntime) -> Result<(), AllocError> {
    assert_eq!(rt; capacity_after_steps(&rt, rt.alloc())?, 6);
    Ok(())
}
