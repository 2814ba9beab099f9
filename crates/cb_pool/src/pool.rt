//! The block and its slots.
ghost use Rattle.std.specs.Prelude.{◌≡◌, ◌≢◌, ◌<◌, ◌≤◌, ◌+◌, ◌^◌, [], length, replicate, OnOk, OnErr, bit_or, IfOk};
ghost use Rattle.std.specs.Simd.Lanes.{zip2};
ghost use Rattle.std.specs.Borrow.{sem, Lends, Array, u64 as word};
ghost use Rattle.cb_pool.specs.Pool.{SlotHasRow, IsTaken, SameRows, SameOthers, WiderRows, slot_row, taken_count, with_row};
ghost use Rattle.cb_pool.specs.contracts.pool.RowPool.{the_row};

use crate::block::{add_row, reserve_rows, row_in, unite_rows, widened, wipe_row};
use crate::slot::Slot;
use crate::slots::Slots;
use std::alloc::{AllocError, Global};
use std::marker::Model;

/// Rows of one width, under slots. Contracts see the words, and which slots are taken.
#[derive(Drop)]
pub struct RowPool {
    alloc: Global,
    width: usize,
    words: Vec<u64>,
    slots: Slots,
}

impl Model for RowPool {
    ghost use Rattle.std.specs.Prelude.{length};
    ghost use Rattle.cb_pool.specs.Pool.{Pool};

    ghost Value = { Pool };

    ghost use Rattle.cb_pool.specs.Kept.{spare_of, IsPoolOf};

    ghost view = { λ p. record { width = p.width; words = p.words.items; taken = p.slots.taken.items; spare = spare_of p.slots } };

    ghost invariant = { λ p. IsPoolOf p.width p.words p.slots };
}

impl RowPool {
    /// No row.
    pub fn new(alloc: Global, width: usize) -> RowPool
        ensures width { result.width ≡ width }
        ensures none { result.taken ≡ [] }
        ensures spare { result.spare ≡ 0 }
    {
        RowPool {
            alloc,
            width,
            words: Vec::new(alloc),
            slots: Slots::new(alloc),
        }
    }

    /// How many words each row has.
    pub fn width(&self) -> usize
        ensures { result ≡ self.now.width }
    {
        self.width
    }

    /// How many rows can be taken without memory.
    pub fn spare(&self) -> usize
        ensures { result ≡ self.now.spare }
    {
        self.slots.spare()
    }

    /// Reserves capacity, so that `rows` rows can be taken without memory. More slots than 32 bits can number count as out of memory.
    pub fn reserve(&mut self, rows: usize) -> Result<(), AllocError>
        ensures width { self.new.width ≡ self.old.width }
        ensures rows { SameRows self.old self.new }
        ensures same { record self.new { spare = self.old.spare } ≡ self.old }
        ensures spare { OnOk result (rows ≤ self.new.spare) }
        ensures no_fewer { self.old.spare ≤ self.new.spare }
        ensures err { OnErr result (self.new ≡ self.old) }
    {
        let capacity = self.slots.capacity_for(rows)?;
        reserve_rows(&mut self.words, self.width, capacity)?;
        self.slots.reserve(capacity)
    }

    /// Makes each row longer, by zeros.
    pub fn widen(&mut self, width: usize) -> Result<(), AllocError>
        requires { self.old.width ≤ width }
        ensures width { OnOk result (self.new.width ≡ width) }
        ensures rows { OnOk result (WiderRows self.old self.new) }
        ensures spare { self.new.spare ≡ self.old.spare }
        ensures err { OnErr result (self.new ≡ self.old) }
    {
        let rows = self.slots.taken.len();
        let capacity = self.slots.capacity;
        self.words = widened(self.alloc, &self.words, self.width, width, rows, capacity)?;
        self.width = width;
        Ok(())
    }

    /// A copy under the same slots whose rows are longer, by zeros, with capacity for `rows` further ones, so that they can be taken without memory.
    /// More slots than 32 bits can number count as out of memory.
    pub fn wider(&self, alloc: Global, width: usize, rows: usize) -> Result<RowPool, AllocError>
        requires { self.now.width ≤ width }
        ensures width { IfOk result (λ copy. copy.width ≡ width) }
        ensures rows { IfOk result (λ copy. WiderRows self.now copy) }
        ensures spare { IfOk result (λ copy. rows ≤ copy.spare) }
    {
        let capacity = self.slots.capacity_for(rows)?;
        let slots = self.slots.copy(alloc, capacity)?;
        let words = widened(
            alloc,
            &self.words,
            self.width,
            width,
            slots.taken.len(),
            capacity,
        )?;
        Ok(RowPool {
            alloc,
            width,
            words,
            slots,
        })
    }

    /// Takes a free slot, whose row is then zero. It takes no memory.
    pub fn take(&mut self) -> Slot
        requires { 0 < self.old.spare }
        ensures width { self.new.width ≡ self.old.width }
        ensures free { ¬ IsTaken self.old result }
        ensures zero { SlotHasRow self.new result (replicate self.old.width 0) }
        ensures others { SameOthers self.old self.new result }
        ensures count { taken_count self.new ≡ taken_count self.old + 1 }
        ensures spare { self.old.spare ≡ self.new.spare + 1 }
    {
        if self.slots.free.is_empty() {
            add_row(&mut self.words, self.width, self.slots.taken.len());
            return self.slots.take_next();
        }
        let slot = self.slots.take_again();
        wipe_row(&mut self.words, self.width, slot.0 as usize);
        slot
    }

    /// Gives a slot back, which is free then.
    pub fn give_back(&mut self, slot: Slot)
        requires { IsTaken self.old slot }
        ensures width { self.new.width ≡ self.old.width }
        ensures free { ¬ IsTaken self.new slot }
        ensures others { SameOthers self.old self.new slot }
        ensures count { taken_count self.old ≡ taken_count self.new + 1 }
        ensures spare { self.new.spare ≡ self.old.spare + 1 }
    {
        self.slots.give_back(slot);
    }

    /// The words of a row.
    pub fn row(&self, slot: Slot) -> &[u64]
        requires { IsTaken self.now slot }
        ensures row { SlotHasRow self.now slot result.now }
        ensures width { length result.now ≡ self.now.width }
    {
        row_in(&self.words, self.width, slot.0 as usize)
    }

    /// The words of a row, to be written.
    pub fn row_mut(&mut self, slot: Slot) -> &mut [u64]
        requires { IsTaken self.old slot }
        ensures* writes_back { sem 𝓛 (Lends the_row (Array word 0) self.entry result (with_row self.old slot)) }
        ensures row { SlotHasRow self.old slot result.now }
        ensures width { length result.now ≡ self.old.width }
    {
        let start = self.width * slot.0 as usize;
        self.words.slice_mut(start..start + self.width)
    }

    /// Makes one in a row what is one in another row.
    pub fn unite(&mut self, into: Slot, from: Slot)
        requires apart { into ≢ from }
        requires into { IsTaken self.old into }
        requires from { IsTaken self.old from }
        ensures { self.new ≡ with_row self.old into (zip2 bit_or (slot_row self.old into) (slot_row self.old from)) }
    {
        unite_rows(
            &mut self.words,
            self.width,
            into.0 as usize,
            from.0 as usize,
        );
    }
}
