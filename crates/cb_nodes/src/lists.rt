//! The events of each instance, with their numbers.
ghost use Rattle.std.specs.Prelude.{◌≡◌, ◌≢◌, ◌+◌, ◌<◌, ◌≤◌, ◌^◌, length, OnOk, IfSome, IfNone, vec_len, vec_capacity};
ghost use Rattle.std.specs.List.{Contains};
ghost use Rattle.cb_model.specs.declared.id.EventId.{EventId as Event};
ghost use Rattle.cb_instances.specs.Net.{Once};
ghost use Rattle.cb_nodes.specs.declared.listed.Listed.{Listed as Item};
ghost use Rattle.cb_nodes.specs.Kept.{AreKept, HasSpareFor, HasSpareIn, SameLists, ListsEvents, HaveNumbers, AreDistinct, NumbersEvents, Frees};
ghost use Rattle.cb_nodes.specs.Table.{NumbersEvent, IsOne, capacity_with};

use crate::id::NodeId;
use crate::listed::Listed;
use crate::node::Node;
use crate::numbers::Numbers;
use cb_instances::InstanceId;
use cb_model::EventId;
use std::alloc::{AllocError, Global};

/// Reserves capacity in the instance's list for `more` further events.
pub(crate) fn reserve(
    alloc: Global,
    lists: &mut Vec<Vec<Listed>>,
    instance: InstanceId,
    more: usize,
) -> Result<(), AllocError>
    ensures same { SameLists lists.old.items lists.new.items }
    ensures spare { OnOk result (HasSpareIn lists.new.items instance more) }
{
    grow(alloc, lists, instance)?;
    lists[instance.0].reserve(more)
}

// Makes a list for the instance, and for each of a lower number.
fn grow(alloc: Global, lists: &mut Vec<Vec<Listed>>, instance: InstanceId) -> Result<(), AllocError>
    ensures same { SameLists lists.old.items lists.new.items }
    ensures listed { OnOk result (instance.0 < vec_len lists.new) }
{
    while lists.len() <= instance.0 {
        lists.push(Vec::new(alloc))?;
    }
    Ok(())
}

/// Gives each of the events a number, and lists it.
pub(crate) fn number_events(
    numbers: &mut Numbers,
    list: &mut Vec<Listed>,
    instance: InstanceId,
    events: &[EventId],
)
    requires kept { AreKept numbers.old }
    requires one { IsOne numbers.old.slots.items }
    requires listed { ListsEvents numbers.old.slots.items instance list.old.items }
    requires new { (e : Event) → ¬ NumbersEvent numbers.old.slots.items instance e }
    requires once { Once events.now }
    requires spare { HasSpareFor numbers.old (length events.now) }
    requires list_spare { vec_len list.old + length events.now ≤ vec_capacity list.old }
    requires few { capacity_with numbers.old.slots.items (length events.now) ≤ 2 ^ 32 }
    ensures { NumbersEvents numbers.old numbers.new instance list.new.items events.now }
{
    for event in events {
        let id = numbers.take(Node {
            instance,
            event: *event,
        });
        list.push_reserved(Listed { event: *event, id });
    }
}

/// The number that the event is listed with.
pub(crate) fn number_of(list: &[Listed], event: EventId) -> Option<NodeId>
    ensures found { IfSome result (λ id. Contains list.now (record { event = event; id = id })) }
    ensures absent { IfNone result ((x : Item) → Contains list.now x → x.event ≢ event) }
{
    let listed = list.iter().find(|listed| listed.event == event)?;
    Some(listed.id)
}

/// The numbers of the list are free again.
pub(crate) fn free_all(numbers: &mut Numbers, list: &[Listed])
    requires kept { AreKept numbers.old }
    requires had { HaveNumbers numbers.old.slots.items list.now }
    requires apart { AreDistinct list.now }
    ensures { Frees numbers.old numbers.new list.now }
{
    for listed in list {
        numbers.give_back(listed.id);
    }
}
