//! The mutes of an instance, as edits.
ghost use Rattle.std.specs.Prelude.{◌≡◌, ◌↔◌, IfOk, IsTrue, OnOk};
ghost use Rattle.cb_instances.specs.Net.{IsLiveInstance, HasEventAt, IsMutedAt, name_at, node_at};
ghost use Rattle.cb_inverse.specs.Listed.{AddsMute, AreAllMuted, AreMuteEdits, AreClassEvents};
ghost use Rattle.cb_history.specs.Inverse.{MutesAgain};
ghost use Rattle.cb_topo.specs.Numbered.{topology_of};

use cb_instances::InstanceId;
use cb_model::{EventId, Name};
use cb_network::Edit;
use cb_topo::Topology;
use std::alloc::{AllocError, Global};

/// A Mute for each muted event of the instance.
pub fn mute_edits(
    alloc: Global,
    topology: &Topology,
    id: InstanceId,
) -> Result<Vec<Edit>, AllocError>
    requires { IsLiveInstance topology.now.net id }
    ensures { IfOk result (λ edits. AreAllMuted (topology_of topology.now) (name_at topology.now.net id) edits.items) }
{
    let events = topology.model().events_of(topology.class_of(id));
    mute_each(alloc, topology, id, events.as_slice())
}

// A Mute for each of these events that is muted.
fn mute_each(
    alloc: Global,
    topology: &Topology,
    id: InstanceId,
    events: &[EventId],
) -> Result<Vec<Edit>, AllocError>
    requires live { IsLiveInstance topology.now.net id }
    requires events { AreClassEvents (topology_of topology.now) (name_at topology.now.net id) events.now }
    ensures { IfOk result (λ edits. AreMuteEdits (topology_of topology.now) (name_at topology.now.net id) events.now edits.items) }
{
    // The topology is sound.
    let _model = topology.model();
    let mut edits = Vec::new(alloc);
    for event in events {
        add_mute(alloc, topology, id, *event, &mut edits)?;
    }
    Ok(edits)
}

// Adds a Mute, where the event is muted.
fn add_mute(
    alloc: Global,
    topology: &Topology,
    id: InstanceId,
    event: EventId,
    edits: &mut Vec<Edit>,
) -> Result<(), AllocError>
    requires live { IsLiveInstance topology.now.net id }
    requires event { HasEventAt topology.now.net id event }
    ensures { OnOk result (AddsMute topology.now.net id event edits.old.items edits.new.items) }
{
    if !is_muted(topology, id, event) {
        return Ok(());
    }
    let edit = mute(alloc, topology, id, event)?;
    edits.push(edit)?;
    Ok(())
}

// Whether the event is muted at the instance.
fn is_muted(topology: &Topology, id: InstanceId, event: EventId) -> bool
    requires live { IsLiveInstance topology.now.net id }
    requires event { HasEventAt topology.now.net id event }
    ensures { IsTrue result ↔ IsMutedAt topology.now.net id event }
{
    match topology.node_at(id, event) {
        Some(node) => topology.is_muted(node),
        None => false,
    }
}

fn mute(
    alloc: Global,
    topology: &Topology,
    id: InstanceId,
    event: EventId,
) -> Result<Edit, AllocError>
    requires live { IsLiveInstance topology.now.net id }
    requires event { HasEventAt topology.now.net id event }
    ensures { IfOk result (MutesAgain (node_at topology.now.net id event)) }
{
    let row = topology.model().tables().events.at(event.0 as usize);
    Ok(Edit::Mute {
        event: Name::of(alloc, row.name.bytes())?,
        name: Name::of(alloc, topology.instance_name(id))?,
    })
}
