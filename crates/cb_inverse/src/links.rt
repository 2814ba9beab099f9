//! The links of an instance, as edits.
ghost use Rattle.std.specs.Prelude.{◌≡◌, ◌<◌, ◌+◌, length, IfOk, OnOk};
ghost use Rattle.cb_instances.specs.Net.{IsLiveInstance, LinkAt, name_at};
ghost use Rattle.cb_inverse.specs.Listed.{AddsFirstSide, AreAllLinked, AreLinkEdits, IsBeforePosition};
ghost use Rattle.cb_model.specs.WellTyped.{IsRelation};
ghost use Rattle.cb_network.specs.declared.edit.Edit.TheVariants.{Link};
ghost use Rattle.cb_topo.specs.Numbered.{topology_of};

use cb_instances::InstanceId;
use cb_model::{Name, RelId};
use cb_network::Edit;
use cb_topo::Topology;
use std::alloc::{AllocError, Global};

/// A Link for each link of the instance, one for a link and the one back.
pub fn link_edits(
    alloc: Global,
    topology: &Topology,
    id: InstanceId,
) -> Result<Vec<Edit>, AllocError>
    requires { IsLiveInstance topology.now.net id }
    ensures { IfOk result (λ edits. AreAllLinked (topology_of topology.now) (name_at topology.now.net id) edits.items) }
{
    let mut edits = Vec::new(alloc);
    for position in 0..topology.model().tables().relations.len() {
        let rel = relation_at(topology, position);
        add_links(alloc, topology, id, rel, &mut edits)?;
    }
    Ok(edits)
}

// The relation of the row at a position: the inverse of its inverse.
fn relation_at(topology: &Topology, position: usize) -> RelId
    requires { position < length (topology_of topology.now).model.relations }
    ensures { result.0 ≡ position }
{
    let tables = topology.model().tables();
    let row = tables.relations.at(position);
    tables.relations.at(row.inverse.0 as usize).inverse
}

// Adds the links by the relation.
fn add_links(
    alloc: Global,
    topology: &Topology,
    id: InstanceId,
    rel: RelId,
    edits: &mut Vec<Edit>,
) -> Result<(), AllocError>
    requires live { IsLiveInstance topology.now.net id }
    requires rel { IsRelation (topology_of topology.now).model rel }
    requires before { AreLinkEdits (topology_of topology.now) (name_at topology.now.net id) (IsBeforePosition rel.0) edits.old.items }
    ensures { OnOk result (AreLinkEdits (topology_of topology.now) (name_at topology.now.net id) (IsBeforePosition (rel.0 + 1)) edits.new.items) }
{
    let ids = topology.links(id, rel);
    // Names tell instances apart.
    let _model = topology.model();
    for to in ids {
        add_link(alloc, topology, id, rel, *to, edits)?;
    }
    Ok(())
}

// Adds the link. Of a link of the instance to itself and the one back, the one of lesser relation is added.
fn add_link(
    alloc: Global,
    topology: &Topology,
    id: InstanceId,
    rel: RelId,
    to: InstanceId,
    edits: &mut Vec<Edit>,
) -> Result<(), AllocError>
    requires link { LinkAt topology.now.net id rel to }
    requires rel { IsRelation (topology_of topology.now).model rel }
    ensures { OnOk result (AddsFirstSide topology.now.net id rel to edits.old.items edits.new.items) }
{
    let row = topology.model().tables().relations.at(rel.0 as usize);
    if to == id && row.inverse.0 < rel.0 {
        return Ok(());
    }
    let edit = link_to(alloc, topology, id, row.name.bytes(), to)?;
    edits.push(edit)?;
    Ok(())
}

fn link_to(
    alloc: Global,
    topology: &Topology,
    id: InstanceId,
    rel: &[u8],
    to: InstanceId,
) -> Result<Edit, AllocError>
    requires id { IsLiveInstance topology.now.net id }
    requires to { IsLiveInstance topology.now.net to }
    ensures { IfOk result (λ edit. edit ≡ Link (name_at topology.now.net id) rel.now (name_at topology.now.net to)) }
{
    Ok(Edit::Link {
        a: Name::of(alloc, topology.instance_name(id))?,
        rel: Name::of(alloc, rel)?,
        b: Name::of(alloc, topology.instance_name(to))?,
    })
}
