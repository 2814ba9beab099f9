//! Events that are muted at an instance.
ghost use Rattle.std.specs.Prelude.{◌≡◌};
ghost use Rattle.cb_instances.specs.Items.{Gains, Loses};
ghost use Rattle.cb_instances.specs.Muted.{Remutes, HasSpareToMute};

use crate::id::InstanceId;
use crate::instance::Instance;
use crate::items::take_out;
use cb_model::EventId;
use slab::Slab;

/// Mutes the event at the instance. It takes no memory.
pub(crate) fn mute(slots: &mut Slab<Instance>, id: InstanceId, event: EventId)
    requires { HasSpareToMute slots.old.slots id }
    ensures remutes { Remutes slots.old.slots slots.new.slots id (Gains event) }
    ensures next { slots.new.vacant_key ≡ slots.old.vacant_key }
{
    if let Some(x) = slots.get_mut(id.0) {
        x.muted.push_reserved(event);
    }
}

/// The event is muted at the instance no more.
pub(crate) fn unmute(slots: &mut Slab<Instance>, id: InstanceId, event: EventId)
    ensures remutes { Remutes slots.old.slots slots.new.slots id (Loses event) }
    ensures next { slots.new.vacant_key ≡ slots.old.vacant_key }
{
    if let Some(x) = slots.get_mut(id.0) {
        take_out(&mut x.muted, event);
    }
}
