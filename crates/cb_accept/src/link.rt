//! Whether a link may be added or removed.
ghost use Rattle.std.specs.Prelude.{OnOk, IfOk, IfErr};
ghost use Rattle.cb_network.specs.declared.edit.EditRefusal.{EditRefusal as Refusal};
ghost use Rattle.cb_network.specs.declared.edit.Edit.TheVariants.{Link, Unlink};
ghost use Rattle.cb_model.specs.WellTyped.{WellTyped};
ghost use Rattle.cb_instances.specs.Net.{IsWholeNet};
ghost use Rattle.cb_network.specs.Edits.{IsAccepted, IsRefused};
ghost use Rattle.cb_accept.specs.Refusals.{AreEnds};
ghost use Rattle.cb_accept.specs.NumberedEdits.{IsNumberedEdit};

use crate::lookup::{is_of_kind, is_taken, relation_at};
use crate::numbered::NumberedEdit;
use cb_instances::{InstanceId, Net};
use cb_model::RelId;
use cb_network::EditRefusal;

// A link, by numbers.
#[derive(Clone, Copy)]
struct Ends {
    from: InstanceId,
    rel: RelId,
    to: InstanceId,
}

impl Ends {
    // Those that an edit names. What refuses one edit of the link for want of them refuses the other.
    fn of(net: &Net, a: &[u8], rel: &[u8], b: &[u8]) -> Result<Ends, EditRefusal>
        ensures found { IfOk result (AreEnds net.now a.now rel.now b.now) }
        ensures link { IfErr result (IsRefused net.now.topology (Link a.now rel.now b.now)) }
        ensures unlink { IfErr result (IsRefused net.now.topology (Unlink a.now rel.now b.now)) }
        ensures whole { IsWholeNet net.now }
        ensures typed { WellTyped net.now.topology.model }
    {
        let _typed = net.model().tables();
        let from = net.instance_named(a).ok_or(EditRefusal::NoInstance)?;
        let to = net.instance_named(b).ok_or(EditRefusal::NoInstance)?;
        let rel = relation_at(net, from, rel).ok_or(EditRefusal::NoRelation)?;
        Ok(Ends { from, rel, to })
    }
}

/// Whether the link may be added.
pub(crate) fn may_link(
    net: &Net,
    a: &[u8],
    rel: &[u8],
    b: &[u8],
) -> Result<NumberedEdit, EditRefusal>
    ensures allowed { OnOk result (IsAccepted net.now.topology (Link a.now rel.now b.now)) }
    ensures numbered { IfOk result (IsNumberedEdit net.now (Link a.now rel.now b.now)) }
    ensures refused { IfErr result (IsRefused net.now.topology (Link a.now rel.now b.now)) }
{
    let Ends { from, rel, to } = Ends::of(net, a, rel, b)?;
    let back = net.model().tables().relations.at(rel.0 as usize).inverse;
    if !is_of_kind(net, to, rel) {
        Err(EditRefusal::WrongKind)
    } else if net.is_linked(from, rel, to) {
        Err(EditRefusal::Linked)
    } else if is_taken(net, from, rel) || is_taken(net, to, back) {
        Err(EditRefusal::Occupied)
    } else {
        Ok(NumberedEdit::Link { from, rel, to })
    }
}

/// Whether the link may be removed.
pub(crate) fn may_unlink(
    net: &Net,
    a: &[u8],
    rel: &[u8],
    b: &[u8],
) -> Result<NumberedEdit, EditRefusal>
    ensures allowed { OnOk result (IsAccepted net.now.topology (Unlink a.now rel.now b.now)) }
    ensures numbered { IfOk result (IsNumberedEdit net.now (Unlink a.now rel.now b.now)) }
    ensures refused { IfErr result (IsRefused net.now.topology (Unlink a.now rel.now b.now)) }
{
    let Ends { from, rel, to } = Ends::of(net, a, rel, b)?;
    if net.is_linked(from, rel, to) {
        Ok(NumberedEdit::Unlink { from, rel, to })
    } else {
        Err(EditRefusal::NotLinked)
    }
}
