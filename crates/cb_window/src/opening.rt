//! Windows that open.
ghost use Rattle.std.specs.Prelude.{◌≡◌, ◌↔◌, [], ◌∷◌, IsTrue, IfOk, OnOk, OnErr};
ghost use Rattle.cb_window.specs.Kept.{IsQueued, IsOpenStill, OpensIn, OpenedBefore};

use crate::turn::Turn;
use crate::windows::Open;
use cb_model::{Name, NodeName};
use std::alloc::{AllocError, Global};
use std::collections::{BTreeMap, BTreeSet};

// Whether the source has a window that isn't due by that time.
pub(crate) fn is_open_still(
    live: &BTreeMap<Name, Open, Global>,
    from: &Name,
    length: u64,
    time: u64,
) -> bool
    ensures { IsTrue result ↔ IsOpenStill live.now from.now length time }
{
    match live.get(from) {
        None => false,
        Some(window) => time < window.opened || time - window.opened < length,
    }
}

// A window that opens at that time, with the node.
fn window_with(alloc: Global, time: u64, node: &NodeName) -> Result<Open, AllocError>
    ensures opened { IfOk result (λ window. window.opened ≡ time) }
    ensures nodes { IfOk result (λ window. window.nodes.keys ≡ node.now ∷ []) }
{
    let mut nodes = BTreeSet::new(alloc);
    nodes.insert(node.copy(alloc)?)?;
    Ok(Open {
        opened: time,
        nodes,
    })
}

// The turn of a window of the source that opens at that time.
fn turn_at(alloc: Global, time: u64, from: &Name) -> Result<Turn, AllocError>
    ensures opened { IfOk result (λ turn. turn.opened ≡ time) }
    ensures from { IfOk result (λ turn. turn.from ≡ from.now) }
{
    Ok(Turn {
        opened: time,
        from: Name::of(alloc, from.bytes())?,
    })
}

// Opens a window of the source at that time, with the node, in place of the one that it has.
pub(crate) fn open_window(
    alloc: Global,
    live: &mut BTreeMap<Name, Open, Global>,
    queue: &mut BTreeSet<Turn, Global>,
    time: u64,
    from: &Name,
    node: &NodeName,
) -> Result<(), AllocError>
    requires queued { IsQueued live.old queue.old }
    requires before { OpenedBefore live.old from.now time }
    ensures queued { IsQueued live.new queue.new }
    ensures opens { OnOk result (OpensIn live.old live.new from.now time node.now) }
    ensures same { OnErr result (live.new.entries ≡ live.old.entries) }
{
    let window = window_with(alloc, time, node)?;
    let name = Name::of(alloc, from.bytes())?;
    let turn = turn_at(alloc, time, from)?;
    let mut gone = turn_at(alloc, time, from)?;
    queue.insert(turn)?;
    match live.insert(name, window) {
        Ok(None) => Ok(()),
        Ok(Some(old)) => {
            gone.opened = old.opened;
            queue.remove(&gone);
            Ok(())
        }
        Err(_) => {
            queue.remove(&gone);
            Err(AllocError)
        }
    }
}
