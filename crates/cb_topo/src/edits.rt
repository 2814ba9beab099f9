//! The topology under edits.
ghost use Rattle.std.specs.Prelude.{◌≡◌, [], OnOk, OnErr, IfOk, IfErr};
ghost use Rattle.cb_network.specs.Edits.{IsAccepted, IsRefused};
ghost use Rattle.cb_network.specs.Laws.{HasGoodName};
ghost use Rattle.cb_accept.specs.NumberedEdits.{IsNumberedEdit};
ghost use Rattle.cb_instances.specs.Net.{empty_net};
ghost use Rattle.cb_topo.specs.Numbered.{topology_of, IsWhole};
ghost use Rattle.cb_topo.specs.Accepted.{IsDecided};
ghost use Rattle.cb_topo.specs.Applied.{Applies, Prevents, MayGrow, IsNodeCapacityAfter, IsInstanceCapacityAfter};
ghost use Rattle.cb_topo.specs.Kept.{IsTopologyOf};
ghost use Rattle.cb_topo.specs.Made.{Makes};

use crate::accepted::AcceptedEdit;
use crate::fault::EditFault;
use crate::instances::{create, delete};
use crate::topology::Topology;
use cb_accept::{NodeCounts, NumberedEdit, decide};
use cb_instances::Net;
use cb_model::Model;
use cb_network::{Edit, EditRefusal};
use cb_nodes::NodeTable;
use std::alloc::{AllocError, Global};

impl Topology {
    /// No instance of any class of the model.
    pub fn new(alloc: Global, model: Model) -> Topology
        ensures net { result.net ≡ empty_net model }
        ensures nodes { result.nodes ≡ [] }
    {
        let _typed = model.tables();
        Topology {
            net: Net::new(alloc, model),
            nodes: NodeTable::new(alloc),
            counts: NodeCounts::none(),
            order: None,
        }
    }

    /// What `node_capacity` is once the accepted edit is made.
    pub fn node_capacity_after(&self, accepted: &AcceptedEdit<'_>) -> usize
        requires { IsDecided self.now accepted.now }
        ensures { IsNodeCapacityAfter self.now accepted.now.edit.now result }
    {
        match accepted.numbered {
            NumberedEdit::Create { class } => {
                let events = self.net.model().events_of(class);
                self.nodes.capacity_with(events.len())
            }
            _ => self.nodes.capacity(),
        }
    }

    /// What `instance_capacity` is once an accepted edit is made.
    pub fn instance_capacity_after(&self, edit: &Edit) -> usize
        ensures { IsInstanceCapacityAfter self.now edit.now result }
    {
        match edit {
            Edit::Create { .. } => self.net.capacity_with_one(),
            _ => self.net.capacity(),
        }
    }

    /// The edit with the numbers of what it names, if it is accepted, and else the refusal that stands first among those that
    /// hold.
    pub fn decide<'a>(&self, edit: &'a Edit) -> Result<AcceptedEdit<'a>, EditRefusal>
        ensures decided { IfOk result (IsDecided self.now) }
        ensures edit { IfOk result (λ accepted. accepted.edit.now ≡ edit.now) }
        ensures refused { IfErr result (IsRefused (topology_of self.now) edit.now) }
    {
        let numbered = decide(&self.net, self.counts, edit)?;
        Ok(AcceptedEdit { edit, numbered })
    }

    /// Whether the edit is accepted, and else the refusal that stands first among those that hold.
    pub fn allows(&self, edit: &Edit) -> Result<(), EditRefusal>
        ensures allowed { OnOk result (IsAccepted (topology_of self.now) edit.now) }
        ensures refused { IfErr result (IsRefused (topology_of self.now) edit.now) }
    {
        self.decide(edit)?;
        Ok(())
    }

    /// Makes the edit. Where it is refused, or memory runs out, nothing is changed.
    pub fn apply(&mut self, alloc: Global, edit: &Edit) -> Result<(), EditFault>
        requires { HasGoodName edit.now }
        ensures made { OnOk result (Applies self.old edit.now self.new) }
        ensures fault { IfErr result (Prevents self.old edit.now) }
        ensures kept { OnErr result (self.new ≡ self.old) }
    {
        let accepted = self.decide(edit)?;
        self.apply_accepted(alloc, &accepted)?;
        Ok(())
    }

    /// Makes an edit that was decided for this topology, as it is. Where memory runs out, nothing is changed.
    pub fn apply_accepted(
        &mut self,
        alloc: Global,
        accepted: &AcceptedEdit<'_>,
    ) -> Result<(), AllocError>
        requires name { HasGoodName accepted.now.edit.now }
        requires decided { IsDecided self.old accepted.now }
        ensures made { OnOk result (Applies self.old accepted.now.edit.now self.new) }
        ensures grows { OnErr result (MayGrow accepted.now.edit.now) }
        ensures kept { OnErr result (self.new ≡ self.old) }
    {
        let order = self.take_order();
        match self.change(alloc, accepted) {
            Ok(()) => {
                let order = self.order_after(accepted.edit, order);
                self.put_order(order);
                Ok(())
            }
            Err(none) => {
                self.put_order(order);
                Err(none)
            }
        }
    }

    // Makes the edit, after which the nodes aren't settled.
    fn change(&mut self, alloc: Global, accepted: &AcceptedEdit<'_>) -> Result<(), AllocError>
        requires name { HasGoodName accepted.now.edit.now }
        requires decided { IsDecided self.old accepted.now }
        ensures made { OnOk result (Applies self.old accepted.now.edit.now self.new) }
        ensures grows { OnErr result (MayGrow accepted.now.edit.now) }
        ensures kept { OnErr result (self.new ≡ self.old) }
        ensures whole { IsWhole self.new }
    {
        self.counts = make(
            alloc,
            &mut self.net,
            &mut self.nodes,
            self.counts,
            accepted.edit,
            accepted.numbered,
        )?;
        self.order = None;
        Ok(())
    }
}

// Makes an edit that is accepted, by what was found of it; the counts are those after it.
fn make(
    alloc: Global,
    net: &mut Net,
    nodes: &mut NodeTable,
    counts: NodeCounts,
    edit: &Edit,
    numbered: NumberedEdit,
) -> Result<NodeCounts, AllocError>
    requires kept { IsTopologyOf net.old nodes.old counts }
    requires name { HasGoodName edit.now }
    requires accepted { IsAccepted net.old.topology edit.now }
    requires numbered { IsNumberedEdit net.old edit.now numbered }
    ensures ok { IfOk result (Makes net.old nodes.old edit.now net.new nodes.new) }
    ensures grows { OnErr result (MayGrow edit.now) }
    ensures net { OnErr result (net.new ≡ net.old) }
    ensures nodes { OnErr result (nodes.new ≡ nodes.old) }
{
    match numbered {
        NumberedEdit::Create { class } => create(alloc, net, nodes, counts, edit, class),
        NumberedEdit::Delete { id } => Ok(delete(net, nodes, counts, id)),
        NumberedEdit::Link { from, rel, to } => {
            net.link(alloc, from, rel, to)?;
            Ok(counts)
        }
        NumberedEdit::Unlink { from, rel, to } => {
            net.unlink(from, rel, to);
            Ok(counts)
        }
        NumberedEdit::Mute { id, event } => {
            net.mute(id, event);
            Ok(counts)
        }
        NumberedEdit::Unmute { id, event } => {
            net.unmute(id, event);
            Ok(counts)
        }
    }
}
