//! The edits that make a deleted instance again.
ghost use Rattle.std.specs.Prelude.{◌≡◌, IfOk};
ghost use Rattle.cb_history.specs.Inverse.{Rebuilds, CreatesAgain};
ghost use Rattle.cb_instances.specs.Net.{IsLiveInstance, name_at};
ghost use Rattle.cb_inverse.specs.Inverses.{rebuild_edits};
ghost use Rattle.cb_topo.specs.Numbered.{topology_of};

use crate::copy::copy_of;
use crate::links::link_edits;
use crate::mutes::mute_edits;
use cb_instances::InstanceId;
use cb_model::Name;
use cb_network::Edit;
use cb_topo::Topology;
use std::alloc::{AllocError, Global};

/// The edits that make a deleted instance again, in the order in which they are made. `again` is a copy of the edit that deleted it: where
/// memory runs out in the middle, it is made again, and no name can be copied then.
#[derive(Drop)]
pub struct Rebuild {
    pub create: Edit,
    pub links: Vec<Edit>,
    pub mutes: Vec<Edit>,
    pub again: Edit,
}

/// The inverse of an edit that deletes the instance: a Create of it, then an edit for each of its links and each of its mutes.
pub fn rebuild_of(
    alloc: Global,
    topology: &Topology,
    id: InstanceId,
    edit: &Edit,
) -> Result<Rebuild, AllocError>
    requires { IsLiveInstance topology.now.net id }
    ensures rebuilds { IfOk result (λ edits. Rebuilds (topology_of topology.now) (name_at topology.now.net id) (rebuild_edits edits)) }
    ensures again { IfOk result (λ edits. edits.again ≡ edit.now) }
{
    let create = create_again(alloc, topology, id)?;
    let links = link_edits(alloc, topology, id)?;
    let mutes = mute_edits(alloc, topology, id)?;
    let again = copy_of(alloc, edit)?;
    Ok(Rebuild {
        create,
        links,
        mutes,
        again,
    })
}

// A Create of the instance, by the name of its class.
fn create_again(alloc: Global, topology: &Topology, id: InstanceId) -> Result<Edit, AllocError>
    requires { IsLiveInstance topology.now.net id }
    ensures { IfOk result (CreatesAgain (topology_of topology.now) (name_at topology.now.net id)) }
{
    let class = topology.class_of(id);
    let row = topology.model().tables().classes.at(class.0 as usize);
    Ok(Edit::Create {
        name: Name::of(alloc, topology.instance_name(id))?,
        class: Name::of(alloc, row.name.bytes())?,
    })
}
