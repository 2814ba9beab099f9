//! Walks along links.
ghost use Rattle.std.specs.Prelude.{◌≡◌, ◌<◌, length};
ghost use Rattle.std.specs.List.{Contains};
ghost use Rattle.cb_instances.specs.declared.id.InstanceId.{InstanceId as Id};
ghost use Rattle.cb_instances.specs.Net.{IsLiveInstance};
ghost use Rattle.cb_graph.specs.Instances.{RowGains, IsNumber};
ghost use Rattle.cb_graph.specs.Walks.{LeadsAt, IsWhereLeads, CoversInstances, AllLive, IsLinked};

use crate::instances::InstanceSet;
use cb_instances::InstanceId;
use cb_model::{Place, RelId};
use cb_topo::Topology;

/// Adds the listed instances to the set.
pub(crate) fn add_all(list: &[InstanceId], out: &mut InstanceSet)
    requires { (id : Id) → Contains list.now id → id.0 < length out.old }
    ensures length { length out.new ≡ length out.old }
    ensures each { RowGains out.old out.new list.now IsNumber }
{
    for id in list {
        out.add(*id);
    }
}

/// Adds what the relation leads to from the listed instances.
pub(crate) fn add_links(topology: &Topology, list: &[InstanceId], rel: RelId, out: &mut InstanceSet)
    requires live { AllLive topology.now.net list.now }
    requires out { CoversInstances topology.now.net out.old }
    ensures length { length out.new ≡ length out.old }
    ensures each { RowGains out.old out.new list.now (IsLinked topology.now.net rel) }
{
    for id in list {
        add_all(topology.links(*id, rel), out);
    }
}

/// Makes `here` the set of the instances that the path leads to. At each place of the path an instance is followed at
/// most twice.
pub(crate) fn follow(
    topology: &Topology,
    from: InstanceId,
    path: &[Place],
    here: &mut InstanceSet,
    spare: &mut InstanceSet,
)
    requires from { IsLiveInstance topology.now.net from }
    requires here { CoversInstances topology.now.net here.old }
    requires spare { CoversInstances topology.now.net spare.old }
    ensures here { CoversInstances topology.now.net here.new }
    ensures spare { CoversInstances topology.now.net spare.new }
    ensures exactly { IsWhereLeads topology.now.net from path.now here.new }
{
    here.clear();
    here.add(from);
    for place in path {
        spare.clear();
        add_links(topology, here.members(), place.rel, spare);
        spare.run_on(topology, place.rel, place.plus);
        std::mem::swap(here, spare);
    }
}
