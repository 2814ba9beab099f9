//! Instances that come and go, with the numbers of their events.
ghost use Rattle.std.specs.Prelude.{◌≡◌, ℕ, List, IfOk, OnErr};
ghost use Rattle.cb_network.specs.declared.edit.Edit.TheVariants.{Create, Delete};
ghost use Rattle.cb_network.specs.Edits.{IsAccepted};
ghost use Rattle.cb_network.specs.Laws.{HasGoodName};
ghost use Rattle.cb_instances.specs.Net.{IsLiveInstance, name_at};
ghost use Rattle.cb_accept.specs.NumberedEdits.{IsNumberedEdit};
ghost use Rattle.cb_accept.specs.declared.numbered.NumberedEdit.TheVariants as numbered;
ghost use Rattle.cb_topo.specs.Kept.{IsTopologyOf};
ghost use Rattle.cb_topo.specs.Made.{Makes};

use cb_accept::NodeCounts;
use cb_instances::{InstanceId, Net};
use cb_model::ClassId;
use cb_network::Edit;
use cb_nodes::NodeTable;
use std::alloc::{AllocError, Global};

// The new instance of the edit, which is of the class; the counts are those with it.
pub(crate) fn create(
    alloc: Global,
    net: &mut Net,
    nodes: &mut NodeTable,
    counts: NodeCounts,
    edit: &Edit,
    class: ClassId,
) -> Result<NodeCounts, AllocError>
    requires kept { IsTopologyOf net.old nodes.old counts }
    requires name { HasGoodName edit.now }
    requires accepted { IsAccepted net.old.topology edit.now }
    requires numbered { IsNumberedEdit net.old edit.now (numbered.Create class) }
    ensures ok { IfOk result (Makes net.old nodes.old edit.now net.new nodes.new) }
    ensures net { OnErr result (net.new ≡ net.old) }
    ensures nodes { OnErr result (nodes.new ≡ nodes.old) }
{
    nodes.create(alloc, net, new_name(edit), class)?;
    Ok(counts.with(net.model(), class))
}

// What a new instance is called; other edits name none.
fn new_name(edit: &Edit) -> &[u8]
    ensures { (name class : List ℕ) → edit.now ≡ Create name class → result.now ≡ name }
{
    match edit {
        Edit::Create { name, .. } => name.bytes(),
        _ => b"",
    }
}

// The instance is gone; the counts are those without it.
pub(crate) fn delete(
    net: &mut Net,
    nodes: &mut NodeTable,
    counts: NodeCounts,
    id: InstanceId,
) -> NodeCounts
    requires kept { IsTopologyOf net.old nodes.old counts }
    requires live { IsLiveInstance net.old id }
    requires accepted { IsAccepted net.old.topology (Delete (name_at net.old id)) }
    ensures { Makes net.old nodes.old (Delete (name_at net.old id)) net.new nodes.new result }
{
    let class = net.class_of(id);
    net.delete(id);
    nodes.remove(id);
    counts.without(net.model(), class)
}
