//! Slots that are taken, slots that are free, and capacity for slots that were never taken.
ghost use Rattle.std.specs.Prelude.{◌≡◌, ◌<◌, ◌≤◌, ◌+◌, ◌^◌, [], length, vec_capacity, OnOk, OnErr, IfOk};
ghost use Rattle.cb_pool.specs.Kept.{AreSlotsKept, TakesSlot, IsOut, spare_of};

use crate::slot::Slot;
use std::alloc::{AllocError, Global};

// Numbers of slots have 32 bits.
const MOST_SLOTS: usize = u32::MAX as usize;

/// For each slot that was ever taken whether it is taken now, and those that were given back.
#[derive(Drop)]
pub struct Slots {
    pub taken: Vec<bool>,
    // It has capacity for all slots, so that giving one back takes no memory.
    pub free: Vec<Slot>,
    // How many slots there can be.
    pub capacity: usize,
}

impl Slots {
    /// No slot, and no capacity for any.
    pub fn new(alloc: Global) -> Slots
        ensures kept { AreSlotsKept result }
        ensures none { result.taken.items ≡ [] }
        ensures free { result.free.items ≡ [] }
        ensures capacity { result.capacity ≡ 0 }
    {
        Slots {
            taken: Vec::new(alloc),
            free: Vec::new(alloc),
            capacity: 0,
        }
    }

    /// How many slots can be taken.
    pub fn spare(&self) -> usize
        requires { AreSlotsKept self.now }
        ensures { result ≡ spare_of self.now }
    {
        self.free.len() + (self.capacity - self.taken.len())
    }

    /// How many slots there are to be so that this many can be taken. More than 32 bits can number count as out of memory.
    pub fn capacity_for(&self, rows: usize) -> Result<usize, AllocError>
        requires { AreSlotsKept self.now }
        ensures more { IfOk result (λ capacity. self.now.capacity ≤ capacity) }
        ensures few { IfOk result (λ capacity. capacity < 2 ^ 32) }
        ensures spare { IfOk result (λ capacity. rows + self.now.capacity ≤ spare_of self.now + capacity) }
    {
        let further = rows.saturating_sub(self.spare());
        let capacity = self.capacity.saturating_add(further);
        if capacity > MOST_SLOTS {
            return Err(AllocError);
        }
        Ok(capacity)
    }

    /// Reserves capacity for `capacity` slots.
    pub fn reserve(&mut self, capacity: usize) -> Result<(), AllocError>
        requires kept { AreSlotsKept self.old }
        requires more { self.old.capacity ≤ capacity }
        requires few { capacity < 2 ^ 32 }
        ensures kept { AreSlotsKept self.new }
        ensures taken { self.new.taken.items ≡ self.old.taken.items }
        ensures free { self.new.free.items ≡ self.old.free.items }
        ensures ok { OnOk result (self.new.capacity ≡ capacity) }
        ensures err { OnErr result (self.new.capacity ≡ self.old.capacity) }
    {
        self.taken.reserve(capacity - self.taken.len())?;
        self.free.reserve(capacity - self.free.len())?;
        self.capacity = capacity;
        Ok(())
    }

    /// A copy with capacity for `capacity` slots.
    pub fn copy(&self, alloc: Global, capacity: usize) -> Result<Slots, AllocError>
        requires kept { AreSlotsKept self.now }
        requires more { self.now.capacity ≤ capacity }
        requires few { capacity < 2 ^ 32 }
        ensures kept { IfOk result AreSlotsKept }
        ensures taken { IfOk result (λ copy. copy.taken.items ≡ self.now.taken.items) }
        ensures free { IfOk result (λ copy. copy.free.items ≡ self.now.free.items) }
        ensures capacity { IfOk result (λ copy. copy.capacity ≡ capacity) }
    {
        let taken = copied(alloc, &self.taken, capacity)?;
        let free = copied(alloc, &self.free, capacity)?;
        Ok(Slots {
            taken,
            free,
            capacity,
        })
    }

    /// Takes a slot that was given back.
    pub fn take_again(&mut self) -> Slot
        requires kept { AreSlotsKept self.old }
        requires spare { 0 < length self.old.free.items }
        ensures kept { AreSlotsKept self.new }
        ensures within { result.0 < length self.old.taken.items }
        ensures takes { TakesSlot self.old.taken.items self.new.taken.items result.0 }
        ensures slots { length self.new.taken.items ≡ length self.old.taken.items }
        ensures free { length self.old.free.items ≡ length self.new.free.items + 1 }
        ensures capacity { self.new.capacity ≡ self.old.capacity }
    {
        let slot = self.free.pop().unwrap();
        self.taken[slot.0 as usize] = true;
        slot
    }

    /// Takes the first slot that was never taken.
    pub fn take_next(&mut self) -> Slot
        requires kept { AreSlotsKept self.old }
        requires spare { length self.old.taken.items < self.old.capacity }
        ensures kept { AreSlotsKept self.new }
        ensures next { result.0 ≡ length self.old.taken.items }
        ensures takes { TakesSlot self.old.taken.items self.new.taken.items result.0 }
        ensures slots { length self.new.taken.items ≡ length self.old.taken.items + 1 }
        ensures free { length self.old.free.items ≡ length self.new.free.items }
        ensures capacity { self.new.capacity ≡ self.old.capacity }
    {
        let slot = Slot(self.taken.len() as u32);
        self.taken.push_reserved(true);
        slot
    }

    /// The slot is free again.
    pub fn give_back(&mut self, slot: Slot)
        requires kept { AreSlotsKept self.old }
        requires taken { IsOut self.old.taken.items slot.0 }
        ensures kept { AreSlotsKept self.new }
        ensures gives { TakesSlot self.new.taken.items self.old.taken.items slot.0 }
        ensures slots { length self.new.taken.items ≡ length self.old.taken.items }
        ensures free { length self.new.free.items ≡ length self.old.free.items + 1 }
        ensures capacity { self.new.capacity ≡ self.old.capacity }
        ensures listed { length self.old.free.items < length self.old.taken.items }
    {
        self.taken[slot.0 as usize] = false;
        self.free.push_reserved(slot);
    }
}

// A copy of `items`, with capacity for `capacity`.
fn copied<T: Copy>(alloc: Global, items: &[T], capacity: usize) -> Result<Vec<T>, AllocError>
    ensures items { IfOk result (λ made. made.items ≡ items.now) }
    ensures capacity { IfOk result (λ made. capacity ≤ vec_capacity made) }
{
    let mut made = Vec::with_capacity(alloc, capacity)?;
    made.extend_from_slice(items)?;
    Ok(made)
}
