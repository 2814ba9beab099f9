//! Whether a symptom may be muted, or observed again.
ghost use Rattle.std.specs.Prelude.{OnOk, IfOk, IfErr};
ghost use Rattle.cb_network.specs.declared.edit.Edit.TheVariants.{Mute, Unmute};
ghost use Rattle.cb_network.specs.Edits.{IsAccepted, IsRefused};
ghost use Rattle.cb_instances.specs.Net.{IsWholeNet};
ghost use Rattle.cb_accept.specs.Refusals.{NamesSymptom};
ghost use Rattle.cb_accept.specs.NumberedEdits.{IsNumberedEdit};

use crate::lookup::symptom_at;
use crate::numbered::NumberedEdit;
use cb_instances::{InstanceId, Net};
use cb_model::EventId;
use cb_network::EditRefusal;

// A symptom of an instance, by numbers.
#[derive(Clone, Copy)]
struct Symptom {
    id: InstanceId,
    event: EventId,
}

impl Symptom {
    // The one that an edit names. What refuses one edit of a mute for want of it refuses the other.
    fn of(net: &Net, event: &[u8], name: &[u8]) -> Result<Symptom, EditRefusal>
        ensures found { IfOk result (NamesSymptom net.now event.now name.now) }
        ensures mute { IfErr result (IsRefused net.now.topology (Mute event.now name.now)) }
        ensures unmute { IfErr result (IsRefused net.now.topology (Unmute event.now name.now)) }
        ensures whole { IsWholeNet net.now }
    {
        let id = net.instance_named(name).ok_or(EditRefusal::NoInstance)?;
        let event = symptom_at(net, id, event).ok_or(EditRefusal::NoSymptom)?;
        Ok(Symptom { id, event })
    }
}

/// Whether the symptom may be muted.
pub(crate) fn may_mute(net: &Net, event: &[u8], name: &[u8]) -> Result<NumberedEdit, EditRefusal>
    ensures allowed { OnOk result (IsAccepted net.now.topology (Mute event.now name.now)) }
    ensures numbered { IfOk result (IsNumberedEdit net.now (Mute event.now name.now)) }
    ensures refused { IfErr result (IsRefused net.now.topology (Mute event.now name.now)) }
{
    let Symptom { id, event } = Symptom::of(net, event, name)?;
    if net.is_muted(id, event) {
        Err(EditRefusal::AlreadyMuted)
    } else {
        Ok(NumberedEdit::Mute { id, event })
    }
}

/// Whether the symptom may be observed again.
pub(crate) fn may_unmute(net: &Net, event: &[u8], name: &[u8]) -> Result<NumberedEdit, EditRefusal>
    ensures allowed { OnOk result (IsAccepted net.now.topology (Unmute event.now name.now)) }
    ensures numbered { IfOk result (IsNumberedEdit net.now (Unmute event.now name.now)) }
    ensures refused { IfErr result (IsRefused net.now.topology (Unmute event.now name.now)) }
{
    let Symptom { id, event } = Symptom::of(net, event, name)?;
    if net.is_muted(id, event) {
        Ok(NumberedEdit::Unmute { id, event })
    } else {
        Err(EditRefusal::NotMuted)
    }
}
