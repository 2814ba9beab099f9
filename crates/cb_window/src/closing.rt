//! What is reported of windows.
ghost use Rattle.std.specs.Prelude.{◌≡◌, ◌++◌, [], ◌∷◌, IfOk, OnOk};
ghost use Rattle.std.specs.List.Sorted.{IsStrictlySortedBy};
ghost use Rattle.cb_model.specs.NodeOrder.{node_cmp};
ghost use Rattle.cb_window.specs.Kept.{IsWindowOpen, IsReportedSo, IsQueued, AreReportedUpTo, AreReportedAll};

use crate::turn::Turn;
use crate::windows::Open;
use cb_log::Closed;
use cb_model::{List, Name, NodeName};
use std::alloc::{AllocError, Global};
use std::collections::{BTreeMap, BTreeSet};

// The nodes of a set, in order.
pub(crate) fn copies(
    alloc: Global,
    nodes: &BTreeSet<NodeName, Global>,
) -> Result<List<NodeName>, AllocError>
    ensures all { IfOk result (λ copies. copies ≡ nodes.now.keys) }
    ensures sorted { OnOk result (IsStrictlySortedBy node_cmp nodes.now.keys) }
{
    let mut copies = List::new(alloc);
    for node in nodes.iter() {
        copies.push(node.copy(alloc)?)?;
    }
    Ok(copies)
}

// What is reported of the window of a turn that closes at that time.
pub(crate) fn closing_of(
    alloc: Global,
    live: &BTreeMap<Name, Open, Global>,
    turn: &Turn,
    time: u64,
) -> Result<Closed, AllocError>
    requires live { IsWindowOpen live.now turn.now }
    ensures { IfOk result (IsReportedSo live.now turn.now time) }
{
    let nodes = match live.get(&turn.from) {
        Some(window) => copies(alloc, &window.nodes)?,
        None => List::new(alloc),
    };
    Ok(Closed {
        from: Name::of(alloc, turn.from.bytes())?,
        opened: turn.opened,
        closed: time,
        nodes,
    })
}

// What is reported of the windows that opened by then, which close at that time.
pub(crate) fn close_up_to(
    alloc: Global,
    live: &BTreeMap<Name, Open, Global>,
    queue: &BTreeSet<Turn, Global>,
    last: u64,
    time: u64,
) -> Result<List<Closed>, AllocError>
    requires queued { IsQueued live.now queue.now }
    ensures { IfOk result (AreReportedUpTo live.now queue.now last time) }
{
    let mut closing = List::new(alloc);
    for turn in queue.iter() {
        if last < turn.opened {
            return Ok(closing);
        }
        closing.push(closing_of(alloc, live, turn, time)?)?;
    }
    Ok(closing)
}

// What is reported of all open windows, which close at that time.
pub(crate) fn close_all(
    alloc: Global,
    live: &BTreeMap<Name, Open, Global>,
    queue: &BTreeSet<Turn, Global>,
    time: u64,
) -> Result<List<Closed>, AllocError>
    requires queued { IsQueued live.now queue.now }
    ensures { IfOk result (AreReportedAll live.now queue.now time) }
{
    let mut closing = List::new(alloc);
    for turn in queue.iter() {
        closing.push(closing_of(alloc, live, turn, time)?)?;
    }
    Ok(closing)
}
