//! Live instances under numbers that stay.
ghost use Rattle.std.specs.Prelude.{◌≡◌, ◌<◌, ◌+◌, ◌↔◌, ℕ, List, max, IfOk, OnOk, OnErr, IfSome, IfNone, IsTrue, Some, None};
ghost use Rattle.std.specs.FinMap as fin_map;
ghost use Rattle.std.specs.List.{Contains};
ghost use Rattle.cb_model.specs.WellTyped.{IsClass, IsRelation};
ghost use Rattle.cb_network.specs.Topology.{IsLive as IsLiveName, HasClass};
ghost use Rattle.cb_instances.specs.declared.id.InstanceId.{InstanceId as Id};
ghost use Rattle.cb_instances.specs.Net.{empty_net, IsNamed, IsLiveInstance, LinkAt, Creates, Once, inverse_of, linked, unlinked, net_without, muted, unmuted, HasEventAt, IsMutedAt, IsWholeNet};

use crate::forget::forget;
use crate::id::InstanceId;
use crate::instance::Instance;
use crate::join::{inverse, join, part};
use crate::links::Links;
use crate::mutes::{mute, unmute};
use cb_model::{ClassId, EventId, Model, Name, RelId};
use indexmap::IndexMap;
use slab::Slab;
use std::alloc::{AllocError, Global};

/// A model, and live instances of its classes, each under a number that it keeps.
#[derive(Drop)]
pub struct Net {
    model: Model,
    slots: Slab<Instance>,
    places: IndexMap<Vec<u8>, usize>,
    // Above the number of each instance.
    capacity: usize,
}

impl std::marker::Model for Net {
    ghost use Rattle.cb_instances.specs.Net.{Net};
    ghost use Rattle.cb_instances.specs.Encoding.{net_encoding};

    ghost Value = { Net };

    ghost coded = { net_encoding };

    ghost use Rattle.cb_instances.specs.Shown.{seen, next_of};
    ghost use Rattle.cb_instances.specs.Sound.{IsNetOf};

    ghost view = { λ s. seen s.model s.slots.slots s.capacity (next_of s.slots.vacant_key) };

    ghost invariant = { λ s. IsNetOf s.model s.slots.slots s.places.entries s.capacity };
}

impl Net {
    /// A net of the model without any instance.
    pub fn new(alloc: Global, model: Model) -> Net
        ensures { result ≡ empty_net model }
    {
        let _typed = model.tables();
        Net {
            model,
            slots: Slab::new(alloc),
            places: IndexMap::new(alloc),
            capacity: 0,
        }
    }

    /// The model whose classes the instances are of.
    pub fn model(&self) -> &Model
        ensures value { result.now ≡ self.now.topology.model }
        ensures whole { IsWholeNet self.now }
    {
        &self.model
    }

    /// The number of the instance of this name.
    pub fn instance_named(&self, name: &[u8]) -> Option<InstanceId>
        ensures found { IfSome result (λ id. IsNamed self.now id name.now) }
        ensures absent { IfNone result (¬ IsLiveName self.now.topology name.now) }
        ensures whole { IsWholeNet self.now }
    {
        match self.places.get(name) {
            Some(place) => Some(InstanceId(*place)),
            None => None,
        }
    }

    /// Whether the number is that of an instance.
    pub fn has_instance(&self, id: InstanceId) -> bool
        ensures { IsTrue result ↔ IsLiveInstance self.now id }
    {
        self.slots.contains(id.0)
    }

    /// The name of the instance.
    pub fn name_of(&self, id: InstanceId) -> &[u8]
        requires { IsLiveInstance self.now id }
        ensures { IsNamed self.now id result.now }
    {
        self.slots[id.0].name.bytes()
    }

    /// The class of the instance, by its number in the model.
    pub fn class_of(&self, id: InstanceId) -> ClassId
        requires { IsLiveInstance self.now id }
        ensures { (name : List ℕ) → IsNamed self.now id name → HasClass self.now.topology name result }
    {
        self.slots[id.0].class
    }

    /// The instances that the relation leads to from this one.
    pub fn links(&self, id: InstanceId, rel: RelId) -> &[InstanceId]
        requires { IsLiveInstance self.now id }
        ensures exactly { (to : Id) → Contains result.now to ↔ LinkAt self.now id rel to }
        ensures once { Once result.now }
    {
        self.slots[id.0].links.to(rel)
    }

    /// Whether the link stands. Of the two lists that tell it, the shorter is looked through.
    pub fn is_linked(&self, from: InstanceId, rel: RelId, to: InstanceId) -> bool
        requires from { IsLiveInstance self.now from }
        requires to { IsLiveInstance self.now to }
        requires rel { IsRelation self.now.topology.model rel }
        ensures { IsTrue result ↔ LinkAt self.now from rel to }
    {
        let there = self.links(from, rel);
        let back = self.links(to, inverse(&self.model, rel));
        if there.len() <= back.len() {
            there.contains(&to)
        } else {
            back.contains(&from)
        }
    }

    /// How many instances there are.
    pub fn count(&self) -> usize
        ensures { result ≡ fin_map.len self.now.topology.instances }
    {
        self.slots.len()
    }

    /// Above the number of each instance.
    pub fn capacity(&self) -> usize
        ensures above { (id : Id) → IsLiveInstance self.now id → id.0 < result }
        ensures value { result ≡ self.now.capacity }
    {
        self.capacity
    }

    /// The number that the next instance gets.
    pub fn next(&self) -> InstanceId
        ensures { result.0 ≡ self.now.next }
    {
        InstanceId(self.slots.vacant_key().min(usize::MAX - 1))
    }

    /// What `capacity` is once a further instance is made.
    pub fn capacity_with_one(&self) -> usize
        ensures { result ≡ max self.now.capacity (self.now.next + 1) }
    {
        let above = self.slots.vacant_key().saturating_add(1);
        self.capacity.max(above)
    }

    /// A new instance, under a number that was free.
    pub fn create(
        &mut self,
        alloc: Global,
        name: &[u8],
        class: ClassId,
    ) -> Result<InstanceId, AllocError>
        requires class { IsClass self.old.topology.model class }
        requires absent { ¬ IsLiveName self.old.topology name.now }
        ensures number { IfOk result (λ id. id.0 ≡ self.old.next) }
        ensures created { IfOk result (λ id. Creates self.old self.new id name.now class) }
        ensures err { OnErr result (self.new ≡ self.old) }
    {
        self.slots.reserve(1)?;
        let id = self.slots.vacant_key();
        let above = id.checked_add(1).ok_or(AllocError)?;
        let instance = Instance {
            name: Name::of(alloc, name)?,
            class,
            links: Links::new(alloc),
            muted: Vec::with_capacity(alloc, self.model.events_of(class).len())?,
        };
        let key = Vec::from_slice(alloc, name)?;
        self.places.insert(key, id)?;
        self.slots.insert_reserved(instance);
        self.capacity = self.capacity.max(above);
        Ok(InstanceId(id))
    }

    /// Adds the link and its inverse. A link that is its own inverse is added once.
    pub fn link(
        &mut self,
        alloc: Global,
        from: InstanceId,
        rel: RelId,
        to: InstanceId,
    ) -> Result<(), AllocError>
        requires from { IsLiveInstance self.old from }
        requires to { IsLiveInstance self.old to }
        requires rel { IsRelation self.old.topology.model rel }
        requires absent { ¬ LinkAt self.old from rel to }
        ensures ok { OnOk result (self.new ≡ linked self.old from rel to) }
        ensures err { OnErr result (self.new ≡ self.old) }
    {
        let back = inverse(&self.model, rel);
        join(alloc, &mut self.slots, from, rel, to, back)?;
        Ok(())
    }

    /// Takes the link and its inverse away.
    pub fn unlink(&mut self, from: InstanceId, rel: RelId, to: InstanceId)
        requires from { IsLiveInstance self.old from }
        requires to { IsLiveInstance self.old to }
        requires rel { IsRelation self.old.topology.model rel }
        ensures { self.new ≡ unlinked self.old from rel to }
    {
        let back = inverse(&self.model, rel);
        part(&mut self.slots, from, rel, to, back);
    }

    /// Takes the instance away, with its links and its mutes; the next instance gets its number.
    pub fn delete(&mut self, id: InstanceId)
        requires { IsLiveInstance self.old id }
        ensures { self.new ≡ net_without self.old id }
    {
        let instance = self.slots.remove(id.0);
        self.places.swap_remove(instance.name.bytes());
        forget(&self.model, &mut self.slots, id, &instance.links);
    }

    /// Whether the event is muted at the instance.
    pub fn is_muted(&self, id: InstanceId, event: EventId) -> bool
        requires live { IsLiveInstance self.now id }
        requires event { HasEventAt self.now id event }
        ensures { IsTrue result ↔ IsMutedAt self.now id event }
    {
        self.slots[id.0].muted.contains(&event)
    }

    /// Mutes the event at the instance. It takes no memory.
    pub fn mute(&mut self, id: InstanceId, event: EventId)
        requires live { IsLiveInstance self.old id }
        requires event { HasEventAt self.old id event }
        requires absent { ¬ IsMutedAt self.old id event }
        ensures { self.new ≡ muted self.old id event }
    {
        mute(&mut self.slots, id, event);
    }

    /// The event is muted at the instance no more.
    pub fn unmute(&mut self, id: InstanceId, event: EventId)
        requires live { IsLiveInstance self.old id }
        requires event { HasEventAt self.old id event }
        ensures { self.new ≡ unmuted self.old id event }
    {
        unmute(&mut self.slots, id, event);
    }
}
