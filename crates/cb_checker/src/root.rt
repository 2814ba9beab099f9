//! The first entry of a span.
ghost use Rattle.std.specs.Prelude.{◌<◌, ◌+◌, ◌↔◌, [], ◌∷◌, IfOk, IfSome, IfNone, IsTrue};
ghost use Rattle.cb_nodes.specs.declared.id.NodeId.{NodeId as Id};
ghost use Rattle.cb_validity.specs.Checks.{root_check};
ghost use Rattle.cb_topo.specs.Numbered.{IsLiveNode};
ghost use Rattle.cb_checker.specs.Known.{AreLive, verdict_of};
ghost use Rattle.cb_checker.specs.Listed.{IsPlaced};
ghost use Rattle.cb_checker.specs.Spans.{IsAskedAt, IsRootAt, JudgesSpan};

use crate::known::id_at;
use cb_cert::Span;
use cb_nodes::NodeId;
use cb_topo::Topology;
use cb_validity::Rejected;

/// Checks that the span begins with the root that is asked for, or with any problem, and finds it.
pub(crate) fn check_root(
    topology: &Topology,
    ids: &[NodeId],
    root: Option<NodeId>,
    span: &Span,
    before: u32,
) -> Result<NodeId, Rejected>
    requires live { AreLive topology.now ids.now }
    requires few { before + 1 < 4294967296 }
    ensures judges { JudgesSpan topology.now ids.now root before span.now (λ a. root_check a ∷ []) (verdict_of result) }
    ensures first { IfOk result (IsPlaced ids.now span.now 0) }
{
    match root_of(topology, ids, root, span) {
        Some(node) => Ok(node),
        None => Err(Rejected::BadRoot { entry: before + 1 }),
    }
}

// The node that the span begins with, where it is right.
fn root_of(topology: &Topology, ids: &[NodeId], root: Option<NodeId>, span: &Span) -> Option<NodeId>
    requires { AreLive topology.now ids.now }
    ensures found { IfSome result (IsRootAt topology.now ids.now root span.now) }
    ensures none { IfNone result ((id : Id) → ¬ IsRootAt topology.now ids.now root span.now id) }
{
    if span.entries.len() == 0 {
        return None;
    }
    let first = *span.entries.at(0);
    if first.parent != 0 {
        return None;
    }
    match id_at(ids, first.node) {
        Some(node) if is_asked_for(topology, root, node) => Some(node),
        _ => None,
    }
}

fn is_asked_for(topology: &Topology, root: Option<NodeId>, node: NodeId) -> bool
    requires { IsLiveNode topology.now node }
    ensures { IsTrue result ↔ IsAskedAt topology.now root node }
{
    match root {
        Some(root) => node == root,
        None => topology.is_problem(node),
    }
}
