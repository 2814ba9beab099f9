//! The nodes of open windows.
ghost use Rattle.std.specs.Prelude.{OnOk, OnErr};
ghost use Rattle.cb_window.specs.Kept.{ClearsIn, GainsIn, LooksSame, OpenedSame};

use crate::windows::Open;
use cb_model::{Name, NodeName};
use std::alloc::{AllocError, Global};
use std::collections::BTreeMap;

// Takes the node out of the source's window, if it has one.
pub(crate) fn clear_node(live: &mut BTreeMap<Name, Open, Global>, from: &Name, node: &NodeName)
    ensures { ClearsIn live.old live.new from.now node.now }
{
    if let Some(window) = live.get_mut(from) {
        window.nodes.remove(node);
    }
}

// Puts the node into the source's window, if it has one.
pub(crate) fn add_node(
    alloc: Global,
    live: &mut BTreeMap<Name, Open, Global>,
    from: &Name,
    node: &NodeName,
) -> Result<(), AllocError>
    ensures gains { OnOk result (GainsIn live.old live.new from.now node.now) }
    ensures opened { OpenedSame live.old live.new }
    ensures same { OnErr result (LooksSame live.old live.new) }
{
    let node = node.copy(alloc)?;
    if let Some(window) = live.get_mut(from) {
        window.nodes.insert(node)?;
    }
    Ok(())
}
