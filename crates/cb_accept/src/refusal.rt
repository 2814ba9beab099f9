//! What an edit is by numbers, or why it is refused.
ghost use Rattle.std.specs.Prelude.{OnOk, IfOk, IfErr};
ghost use Rattle.cb_network.specs.Edits.{IsAccepted, IsRefused};
ghost use Rattle.cb_accept.specs.Counts.{AreCounts, AreWithin};
ghost use Rattle.cb_accept.specs.NumberedEdits.{IsNumberedEdit};

use crate::counts::NodeCounts;
use crate::create::{may_create, may_delete};
use crate::link::{may_link, may_unlink};
use crate::mute::{may_mute, may_unmute};
use crate::numbered::NumberedEdit;
use cb_instances::Net;
use cb_network::{Edit, EditRefusal};

/// What was found of an edit that is accepted, and else the refusal that stands first among those that hold.
pub fn decide(net: &Net, counts: NodeCounts, edit: &Edit) -> Result<NumberedEdit, EditRefusal>
    requires counts { AreCounts net.now.topology counts }
    requires few { AreWithin counts }
    ensures accepted { OnOk result (IsAccepted net.now.topology edit.now) }
    ensures numbered { IfOk result (IsNumberedEdit net.now edit.now) }
    ensures refused { IfErr result (IsRefused net.now.topology edit.now) }
{
    match edit {
        Edit::Create { name, class } => may_create(net, counts, name.bytes(), class.bytes()),
        Edit::Delete { name } => may_delete(net, name.bytes()),
        Edit::Link { a, rel, b } => may_link(net, a.bytes(), rel.bytes(), b.bytes()),
        Edit::Unlink { a, rel, b } => may_unlink(net, a.bytes(), rel.bytes(), b.bytes()),
        Edit::Mute { event, name } => may_mute(net, event.bytes(), name.bytes()),
        Edit::Unmute { event, name } => may_unmute(net, event.bytes(), name.bytes()),
    }
}
