//! What the sides of a thin certificate are called.
ghost use Rattle.std.specs.Prelude.{IfOk};
ghost use Rattle.cb_model.specs.declared.node.NodeName.{NodeName as Name};
ghost use Rattle.cb_validity.specs.Spans.{BeginsWithRoot};
ghost use Rattle.cb_validity.specs.Verdicts.{IsSideName};
ghost use Rattle.cb_checker.specs.Thin.{IsBegun};

use cb_cert::{Side, Span};
use cb_model::{GroupName, NodeName};
use std::alloc::{AllocError, Global};

/// What a side is called: quiet, or by its root.
pub(crate) fn side_name(
    alloc: Global,
    nodes: &[NodeName],
    side: &Side,
) -> Result<GroupName, AllocError>
    requires { IsBegun nodes.now side.now }
    ensures { IfOk result (IsSideName nodes.now side.now) }
{
    match side {
        Side::Quiet => Ok(GroupName::Quiet),
        Side::Root(span) => Ok(GroupName::Least(root_name(alloc, nodes, span)?)),
    }
}

/// The name of the root that a span begins with.
pub(crate) fn root_name(
    alloc: Global,
    nodes: &[NodeName],
    span: &Span,
) -> Result<NodeName, AllocError>
    requires { (root : Name) × BeginsWithRoot nodes.now span.now root }
    ensures { IfOk result (BeginsWithRoot nodes.now span.now) }
{
    let first = *span.entries.at(0);
    nodes[first.node as usize - 1].copy(alloc)
}
