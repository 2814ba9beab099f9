//! Sets of nodes.
ghost use Rattle.std.specs.Prelude.{◌≡◌, OnOk, IfOk};
ghost use Rattle.cb_model.specs.declared.node.NodeName.{NodeName as Node};
ghost use Rattle.cb_model.specs.Order.{Rises};
ghost use Rattle.cb_model.specs.NodeOrder.{node_cmp};
ghost use Rattle.cb_line_files.specs.Steps.{AddsNodes};

use cb_model::{List, NodeName};
use std::alloc::{AllocError, Global};
use std::collections::BTreeSet;

/// Adds a node, where it is not there yet.
pub(crate) fn add(nodes: &mut BTreeSet<NodeName>, node: NodeName) -> Result<(), AllocError>
    ensures { OnOk result (AddsNodes (λ (n : Node). n ≡ node) nodes.old.keys nodes.new.keys) }
{
    nodes.insert(node)?;
    Ok(())
}

/// The nodes in order.
pub(crate) fn in_order(
    alloc: Global,
    nodes: BTreeSet<NodeName>,
) -> Result<List<NodeName>, AllocError>
    ensures list { IfOk result (λ list. list ≡ nodes.keys) }
    ensures rise { IfOk result (Rises node_cmp) }
{
    Ok(List::of(nodes.into_iter().collect(alloc)?))
}
