//! Links between two instances.
ghost use Rattle.std.specs.Prelude.{◌≡◌, OnOk, OnErr};
ghost use Rattle.cb_instances.specs.Items.{Gains, Loses};
ghost use Rattle.cb_model.specs.WellTyped.{IsRelation};
ghost use Rattle.cb_instances.specs.declared.instance.Instance.{Instance as TheInstance};
ghost use Rattle.cb_instances.specs.Net.{inverse_of};
ghost use Rattle.cb_instances.specs.Slots.{At};
ghost use Rattle.cb_instances.specs.Joined.{Rewires, Stays, HasSpareAt, SameLinks, JoinsInstances, PartsInstances};

use crate::id::InstanceId;
use crate::instance::Instance;
use cb_model::{Model, RelId};
use slab::Slab;
use std::alloc::{AllocError, Global};

/// The inverse of the relation.
pub(crate) fn inverse(model: &Model, rel: RelId) -> RelId
    requires { IsRelation model.now rel }
    ensures { result ≡ inverse_of model.now rel }
{
    model.tables().relations.at(rel.0 as usize).inverse
}

/// Adds the link, and its inverse by the relation `back`. A link that is its own inverse is added once.
pub(crate) fn join(
    alloc: Global,
    slots: &mut Slab<Instance>,
    from: InstanceId,
    rel: RelId,
    to: InstanceId,
    back: RelId,
) -> Result<(), AllocError>
    requires from { (x : TheInstance) × At slots.old.slots from x }
    requires to { (x : TheInstance) × At slots.old.slots to x }
    ensures ok { OnOk result (JoinsInstances slots.old.slots slots.new.slots from rel to back) }
    ensures err { OnErr result (SameLinks slots.old.slots slots.new.slots) }
    ensures next { slots.new.vacant_key ≡ slots.old.vacant_key }
{
    reserve(alloc, slots, from, rel)?;
    if from == to && rel == back {
        add(slots, from, rel, to);
    } else {
        reserve(alloc, slots, to, back)?;
        add(slots, from, rel, to);
        add(slots, to, back, from);
    }
    Ok(())
}

/// Takes the link away, and its inverse by the relation `back`.
pub(crate) fn part(
    slots: &mut Slab<Instance>,
    from: InstanceId,
    rel: RelId,
    to: InstanceId,
    back: RelId,
)
    requires from { (x : TheInstance) × At slots.old.slots from x }
    requires to { (x : TheInstance) × At slots.old.slots to x }
    ensures parts { PartsInstances slots.old.slots slots.new.slots from rel to back }
    ensures next { slots.new.vacant_key ≡ slots.old.vacant_key }
{
    take_away(slots, from, rel, to);
    take_away(slots, to, back, from);
}

/// The instance lists the other under the relation no more.
pub(crate) fn take_away(slots: &mut Slab<Instance>, at: InstanceId, rel: RelId, to: InstanceId)
    ensures rewires { Rewires slots.old.slots slots.new.slots at rel (Loses to) }
    ensures next { slots.new.vacant_key ≡ slots.old.vacant_key }
{
    if let Some(x) = slots.get_mut(at.0) {
        x.links.remove(rel, to);
    }
}

fn reserve(
    alloc: Global,
    slots: &mut Slab<Instance>,
    at: InstanceId,
    rel: RelId,
) -> Result<(), AllocError>
    ensures same { Rewires slots.old.slots slots.new.slots at rel Stays }
    ensures spare { OnOk result (HasSpareAt slots.new.slots at rel) }
    ensures next { slots.new.vacant_key ≡ slots.old.vacant_key }
{
    match slots.get_mut(at.0) {
        Some(x) => x.links.reserve(alloc, rel),
        None => Ok(()),
    }
}

fn add(slots: &mut Slab<Instance>, at: InstanceId, rel: RelId, to: InstanceId)
    requires { HasSpareAt slots.old.slots at rel }
    ensures rewires { Rewires slots.old.slots slots.new.slots at rel (Gains to) }
    ensures next { slots.new.vacant_key ≡ slots.old.vacant_key }
{
    if let Some(x) = slots.get_mut(at.0) {
        x.links.add(rel, to);
    }
}
