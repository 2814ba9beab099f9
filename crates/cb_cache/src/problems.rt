//! The problems of a topology by their numbers.
ghost use Rattle.std.specs.Prelude.{◌≡◌, ◌≤◌, ◌↔◌, [], length, IsTrue, vec_capacity};
ghost use Rattle.cb_model.specs.WellTyped.{WellTyped};
ghost use Rattle.cb_network.specs.Nodes.{IsProblem, IsCount};
ghost use Rattle.cb_network.specs.Sound.{problem_limit};
ghost use Rattle.cb_topo.specs.Accepted.{IsDecided};
ghost use Rattle.cb_topo.specs.Numbered.{topology_of, IsWhole};
ghost use Rattle.cb_cache.specs.Numbers.{IsProblemNumber, AreProblemNumbers};
ghost use Rattle.cb_cache.specs.Most.{HasEventsWithin};

use crate::order::scatter;
use cb_nodes::NodeId;
use cb_topo::{AcceptedEdit, NumberedEdit, Topology};

/// How many problems there are. Each number of a node is looked at.
pub(crate) fn problem_count(topology: &Topology) -> usize
    ensures count { IsCount (IsProblem (topology_of topology.now)) result }
    ensures few { result ≤ problem_limit }
{
    let mut count = 0;
    for place in 0..topology.node_capacity() {
        if is_problem_number(topology, NodeId(place as u32)) {
            count += 1;
        }
    }
    count
}

/// How many events the class of a further instance has.
pub(crate) fn events_within(topology: &Topology, accepted: &AcceptedEdit<'_>) -> usize
    requires { IsDecided topology.now accepted.now }
    ensures events { HasEventsWithin (topology_of topology.now).model accepted.now.edit.now result }
    ensures few { result ≤ 256 }
    ensures typed { WellTyped (topology_of topology.now).model }
{
    let model = topology.model();
    match accepted.numbered {
        NumberedEdit::Create { class } => model.events_of(class).len(),
        _ => 0,
    }
}

/// Lists the numbers of all problems, in an order in which a search along a chain, whichever way it runs, soon meets a node that
/// was searched from before. It takes no memory.
pub(crate) fn list_problems(topology: &Topology, list: &mut Vec<NodeId>)
    requires empty { list.old.items ≡ [] }
    requires capacity { length topology.now.nodes ≤ vec_capacity list.old }
    ensures problems { AreProblemNumbers topology.now list.new.items }
    ensures whole { IsWhole topology.now }
    ensures capacity { vec_capacity list.new ≡ vec_capacity list.old }
{
    push_problems(topology, list);
    scatter(list);
}

// Lists the numbers of all problems as they rise.
fn push_problems(topology: &Topology, list: &mut Vec<NodeId>)
    requires empty { list.old.items ≡ [] }
    requires capacity { length topology.now.nodes ≤ vec_capacity list.old }
    ensures problems { AreProblemNumbers topology.now list.new.items }
    ensures whole { IsWhole topology.now }
    ensures capacity { vec_capacity list.new ≡ vec_capacity list.old }
{
    for place in 0..topology.node_capacity() {
        let node = NodeId(place as u32);
        if is_problem_number(topology, node) {
            list.push_reserved(node);
        }
    }
}

// Whether the number is that of a problem.
fn is_problem_number(topology: &Topology, node: NodeId) -> bool
    ensures { IsTrue result ↔ IsProblemNumber topology.now node }
{
    topology.is_live(node) && topology.is_problem(node)
}
