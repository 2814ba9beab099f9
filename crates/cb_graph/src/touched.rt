//! The nodes that an edit touches: walks back along the paths of rules, from the links that the edit moves.
ghost use Rattle.std.specs.Prelude.{◌≡◌, ◌<◌, ◌≤◌, ◌↔◌, ◌⊎◌, ℕ, length, IsTrue};
ghost use Rattle.std.specs.List.{All};
ghost use Rattle.cb_model.specs.WellTyped.{IsRelation, IsPlace};
ghost use Rattle.cb_network.specs.declared.edit.Edit.{Edit as AnyEdit};
ghost use Rattle.cb_network.specs.Topology.{Topology as Instances};
ghost use Rattle.cb_change.specs.Laws.{IsStep};
ghost use Rattle.cb_instances.specs.Net.{IsLiveInstance};
ghost use Rattle.cb_successors.specs.Rows.{Has};
ghost use Rattle.cb_topo.specs.Numbered.{topology_of};
ghost use Rattle.cb_graph.specs.Instances.{RowGains};
ghost use Rattle.cb_graph.specs.Walks.{CoversInstances, AllLive, instance};
ghost use Rattle.cb_graph.specs.Touched.{IsTouchedNumber, AreMovedBy, HaveEnds, StartsAt, IsWhereComes, RemainsWith, IsCauseNumber, TouchesBy};

use crate::instances::InstanceSet;
use crate::moves::{Moves, back_of};
use crate::rules::add_event;
use crate::walk::{add_all, add_links};
use cb_bits::Row;
use cb_instances::InstanceId;
use cb_model::{EventId, List, Place, RelId};
use cb_topo::Topology;

// Adds the instance, where its link by one relation is looked for by the other and the two are one.
fn add_start(start: InstanceId, by: RelId, rel: RelId, out: &mut InstanceSet)
    requires { start.0 < length out.old }
    ensures length { length out.new ≡ length out.old }
    ensures each { (k : ℕ) → Has out.new k ↔ (Has out.old k ⊎ ((rel ≡ by) × (instance k ≡ start))) }
{
    if rel == by {
        out.add(start);
    }
}

// Adds the instances from which one of the links leads by the relation. Of an instance that goes those at the other end
// are enough, since a path comes to it by a link that goes, too.
fn add_starts(topology: &Topology, moves: Moves, rel: RelId, out: &mut InstanceSet)
    requires moves { HaveEnds topology.now.net moves }
    requires rel { IsRelation (topology_of topology.now).model rel }
    requires out { CoversInstances topology.now.net out.old }
    ensures length { length out.new ≡ length out.old }
    ensures each { (k : ℕ) → Has out.new k ↔ (Has out.old k ⊎ StartsAt topology.now.net moves rel (instance k)) }
{
    match moves {
        Moves::Pair {
            from,
            rel: there,
            to,
            back,
        } => {
            add_start(from, there, rel, out);
            add_start(to, back, rel, out);
        }
        Moves::AllOf { id } => {
            let back = back_of(topology, rel);
            add_all(topology.links(id, back), out);
        }
    }
}

// Makes `here` the set of the instances from which the path comes to one of the links.
fn come_to(
    topology: &Topology,
    moves: Moves,
    path: &List<Place>,
    here: &mut InstanceSet,
    spare: &mut InstanceSet,
)
    requires moves { HaveEnds topology.now.net moves }
    requires path { All (IsPlace (topology_of topology.now).model) path.now }
    requires here { CoversInstances topology.now.net here.old }
    requires spare { CoversInstances topology.now.net spare.old }
    ensures here { CoversInstances topology.now.net here.new }
    ensures spare { CoversInstances topology.now.net spare.new }
    ensures exactly { IsWhereComes topology.now.net moves path.now here.new }
{
    here.clear();
    for depth in (0..path.len()).rev() {
        let place = *path.at(depth);
        let back = back_of(topology, place.rel);
        spare.clear();
        add_links(topology, here.members(), back, spare);
        add_starts(topology, moves, place.rel, spare);
        spare.run_on(topology, back, place.plus);
        std::mem::swap(here, spare);
    }
}

// Whether the class of the instance has the rule, and the instance stays.
fn remains_with(topology: &Topology, moves: Moves, rule: usize, id: InstanceId) -> bool
    requires rule { rule < length (topology_of topology.now).model.rules }
    requires id { IsLiveInstance topology.now.net id }
    ensures { IsTrue result ↔ RemainsWith topology.now.net moves rule id }
{
    topology.model().has_rule(topology.class_of(id), rule) && moves.leaves(id)
}

// Adds the nodes of the cause at those of the listed instances that stay, and of which the class has the rule.
fn add_causes(
    topology: &Topology,
    moves: Moves,
    list: &[InstanceId],
    rule: usize,
    cause: EventId,
    out: &mut Row,
)
    requires live { AllLive topology.now.net list.now }
    requires rule { rule < length (topology_of topology.now).model.rules }
    requires out { length topology.now.nodes ≤ length out.old }
    ensures length { length out.new ≡ length out.old }
    ensures each { RowGains out.old out.new list.now (IsCauseNumber topology.now moves rule cause) }
{
    for id in list {
        if remains_with(topology, moves, rule, *id) {
            add_event(topology, *id, cause, out);
        }
    }
}

// Adds what is touched by the rule of the row at this position, at instances of whatever class.
fn add_rule(
    topology: &Topology,
    moves: Moves,
    rule: usize,
    here: &mut InstanceSet,
    spare: &mut InstanceSet,
    out: &mut Row,
)
    requires moves { HaveEnds topology.now.net moves }
    requires rule { rule < length (topology_of topology.now).model.rules }
    requires here { CoversInstances topology.now.net here.old }
    requires spare { CoversInstances topology.now.net spare.old }
    requires out { length topology.now.nodes ≤ length out.old }
    ensures here { CoversInstances topology.now.net here.new }
    ensures spare { CoversInstances topology.now.net spare.new }
    ensures length { length out.new ≡ length out.old }
    ensures each { (k : ℕ) → Has out.new k ↔ (Has out.old k ⊎ TouchesBy topology.now moves rule k) }
{
    let row = topology.model().tables().rules.at(rule);
    come_to(topology, moves, &row.path, here, spare);
    add_causes(topology, moves, here.members(), rule, row.cause, out);
}

/// Adds the nodes that an edit touches which moves these links. The edit isn't made yet.
pub(crate) fn add_touched(
    topology: &Topology,
    moves: Moves,
    here: &mut InstanceSet,
    spare: &mut InstanceSet,
    out: &mut Row,
)
    requires moves { HaveEnds topology.now.net moves }
    requires here { CoversInstances topology.now.net here.old }
    requires spare { CoversInstances topology.now.net spare.old }
    requires out { length topology.now.nodes ≤ length out.old }
    ensures here { CoversInstances topology.now.net here.new }
    ensures spare { CoversInstances topology.now.net spare.new }
    ensures length { length out.new ≡ length out.old }
    ensures exactly { (edit : AnyEdit) (new : Instances) → AreMovedBy topology.now.net edit moves → IsStep (topology_of topology.now) edit new
        → (k : ℕ) → Has out.new k ↔ (Has out.old k ⊎ IsTouchedNumber topology.now new k) }
{
    for rule in 0..topology.model().tables().rules.len() {
        add_rule(topology, moves, rule, here, spare, out);
    }
}
