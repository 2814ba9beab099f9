//! Whether an instance may be created or deleted.
ghost use Rattle.std.specs.Prelude.{OnOk, IfOk, IfErr};
ghost use Rattle.cb_network.specs.declared.edit.Edit.TheVariants.{Create, Delete};
ghost use Rattle.cb_accept.specs.Counts.{AreCounts, AreWithin};
ghost use Rattle.cb_network.specs.Edits.{IsAccepted, IsRefused};
ghost use Rattle.cb_accept.specs.Refusals.{IsFirstLimit};
ghost use Rattle.cb_accept.specs.NumberedEdits.{IsNumberedEdit};

use crate::counts::NodeCounts;
use crate::limits::{MOST_INSTANCES, MOST_NODES, MOST_PROBLEMS, MOST_SYMPTOMS};
use crate::numbered::NumberedEdit;
use cb_instances::Net;
use cb_network::EditRefusal;

/// Whether no number is above its limit, and else the first one that is.
pub(crate) fn are_within(counts: NodeCounts) -> Result<(), EditRefusal>
    ensures within { OnOk result (AreWithin counts) }
    ensures beyond { IfErr result (IsFirstLimit counts) }
{
    if counts.nodes > MOST_NODES {
        Err(EditRefusal::NodeLimit)
    } else if counts.problems > MOST_PROBLEMS {
        Err(EditRefusal::ProblemLimit)
    } else if counts.symptoms > MOST_SYMPTOMS {
        Err(EditRefusal::SymptomLimit)
    } else {
        Ok(())
    }
}

/// Whether an instance of this name and class may be created.
pub(crate) fn may_create(
    net: &Net,
    counts: NodeCounts,
    name: &[u8],
    class: &[u8],
) -> Result<NumberedEdit, EditRefusal>
    requires counts { AreCounts net.now.topology counts }
    requires few { AreWithin counts }
    ensures allowed { OnOk result (IsAccepted net.now.topology (Create name.now class.now)) }
    ensures numbered { IfOk result (IsNumberedEdit net.now (Create name.now class.now)) }
    ensures refused { IfErr result (IsRefused net.now.topology (Create name.now class.now)) }
{
    let model = net.model();
    let _typed = model.tables();
    let class = model.class_named(class).ok_or(EditRefusal::NoClass)?;
    if net.instance_named(name).is_some() {
        return Err(EditRefusal::Exists);
    }
    if net.count() >= MOST_INSTANCES {
        return Err(EditRefusal::InstanceLimit);
    }
    are_within(counts.with(model, class))?;
    Ok(NumberedEdit::Create { class })
}

/// Whether the instance may be deleted.
pub(crate) fn may_delete(net: &Net, name: &[u8]) -> Result<NumberedEdit, EditRefusal>
    ensures allowed { OnOk result (IsAccepted net.now.topology (Delete name.now)) }
    ensures numbered { IfOk result (IsNumberedEdit net.now (Delete name.now)) }
    ensures refused { IfErr result (IsRefused net.now.topology (Delete name.now)) }
{
    match net.instance_named(name) {
        Some(id) => Ok(NumberedEdit::Delete { id }),
        None => Err(EditRefusal::NoInstance),
    }
}
