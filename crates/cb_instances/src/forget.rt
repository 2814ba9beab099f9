//! The links that lead to an instance which is gone.
ghost use Rattle.std.specs.Prelude.{◌≡◌};
ghost use Rattle.std.specs.List.{Contains};
ghost use Rattle.cb_model.specs.WellTyped.{IsRelation};
ghost use Rattle.cb_instances.specs.declared.id.InstanceId.{InstanceId as Id};
ghost use Rattle.cb_instances.specs.declared.links.LinkRow.{LinkRow as TheRow};
ghost use Rattle.cb_instances.specs.Forgotten.{ForgetsRow, ForgetsAll};
ghost use Rattle.cb_instances.specs.Net.{inverse_of};

use crate::id::InstanceId;
use crate::instance::Instance;
use crate::join::{inverse, take_away};
use crate::links::Links;
use cb_model::{Model, RelId};
use slab::Slab;

/// Those that were listed by an instance list it no more.
pub(crate) fn forget(model: &Model, slots: &mut Slab<Instance>, id: InstanceId, links: &Links)
    requires { (row : TheRow) (at : Id) → Contains links.now.rows.items row → Contains row.to.items at → IsRelation model.now row.rel }
    ensures forgets { ForgetsAll model.now slots.old.slots slots.new.slots id links.now.rows.items }
    ensures next { slots.new.vacant_key ≡ slots.old.vacant_key }
{
    for row in &links.rows {
        forget_row(model, slots, id, row.rel, &row.to);
    }
}

// Those of one row.
fn forget_row(
    model: &Model,
    slots: &mut Slab<Instance>,
    id: InstanceId,
    rel: RelId,
    list: &[InstanceId],
)
    requires { (at : Id) → Contains list.now at → IsRelation model.now rel }
    ensures forgets { ForgetsRow slots.old.slots slots.new.slots id (inverse_of model.now rel) list.now }
    ensures next { slots.new.vacant_key ≡ slots.old.vacant_key }
{
    for at in list {
        let back = inverse(model, rel);
        take_away(slots, *at, back, id);
    }
}
