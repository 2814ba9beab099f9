//! A row of truth values.
ghost use Rattle.std.specs.Prelude.{◌≡◌, ◌<◌, ◌≤◌, ◌-◌, ◌++◌, ◌↔◌, ◌||◌, length, replicate, SomeIff, IfSome, IfNone, IfOk, OnOk, OnErr, IsTrue, true, false, slice_index_or, slice_set, count_by};
ghost use Rattle.std.specs.Simd.Lanes.{zip2};
ghost use Rattle.cb_bits.specs.Bits.{Packs, differing, difference, IsNextOne, HasNoneFrom};

use crate::words::{
    as_words, clear_all, clear_bit, count_differing, count_differing_below, count_ones, is_set,
    next_bit, set_bit, zero_words,
};
use cb_lanes::{equal, next_in_a_not_b, or_into};
use std::alloc::{AllocError, Global};
use std::marker::Model;

/// Truth values in order, 64 to a word. Contracts see the list of them.
#[derive(Drop)]
pub struct Row {
    len: usize,
    words: Vec<u64>,
}

impl Model for Row {
    ghost use Rattle.std.specs.Prelude.{List, Bool};
    ghost use Rattle.cb_bits.specs.Bits.{values, Holds};

    ghost Value = { List Bool };

    ghost view = { λ r. values r.words.items r.len };

    ghost invariant = { λ r. Holds r.words.items r.len };
}

impl Row {
    /// A row of `n` values, all false.
    pub fn zeroed(alloc: Global, n: usize) -> Result<Row, AllocError>
        ensures { IfOk result (λ row. row ≡ replicate n false) }
    {
        let words = zero_words(alloc, n)?;
        Ok(Row { len: n, words })
    }

    /// A copy, which may lack memory.
    pub fn copy(&self, alloc: Global) -> Result<Row, AllocError>
        ensures { IfOk result (λ copy. copy ≡ self.now) }
    {
        let words = Vec::from_slice(alloc, &self.words)?;
        Ok(Row {
            len: self.len,
            words,
        })
    }

    /// How many values there are.
    pub fn len(&self) -> usize
        ensures { result ≡ length self.now }
    {
        self.len
    }

    /// The value at a position.
    pub fn get(&self, i: usize) -> bool
        requires { i < length self.now }
        ensures { result ≡ slice_index_or self.now i false }
    {
        is_set(&self.words, i)
    }

    /// Makes the value at a position true.
    pub fn set(&mut self, i: usize)
        requires { i < length self.old }
        ensures { self.new ≡ slice_set self.old i true }
    {
        set_bit(&mut self.words, i);
    }

    /// Makes the value at a position false.
    pub fn clear(&mut self, i: usize)
        requires { i < length self.old }
        ensures { self.new ≡ slice_set self.old i false }
    {
        clear_bit(&mut self.words, i);
    }

    /// Makes all values false.
    pub fn wipe(&mut self)
        ensures { self.new ≡ replicate (length self.old) false }
    {
        clear_all(&mut self.words);
    }

    /// Makes true what is true in `other`.
    pub fn or_from(&mut self, other: &Row)
        requires { length self.old ≡ length other.now }
        ensures { self.new ≡ zip2 (λ one other. one || other) self.old other.now }
    {
        or_into(&mut self.words, &other.words);
    }

    /// Whether the two are one list of values.
    pub fn equal(&self, other: &Row) -> bool
        requires { length self.now ≡ length other.now }
        ensures { IsTrue result ↔ (self.now ≡ other.now) }
    {
        equal(as_words(&self.words), as_words(&other.words))
    }

    /// The first true position from a position on.
    pub fn next_one(&self, from: usize) -> Option<usize>
        ensures next { IfSome result (IsNextOne self.now from) }
        ensures none { IfNone result (HasNoneFrom self.now from) }
    {
        next_bit(&self.words, from)
    }

    /// The first position from a position on that is true here and false in `other`.
    pub fn next_not_in(&self, other: &Row, from: usize) -> Option<usize>
        requires { length self.now ≡ length other.now }
        ensures next { IfSome result (IsNextOne (difference self.now other.now) from) }
        ensures none { IfNone result (HasNoneFrom (difference self.now other.now) from) }
    {
        next_in_a_not_b(&self.words, &other.words, from)
    }

    /// How many values are true.
    pub fn ones(&self) -> usize
        ensures { result ≡ count_by (λ value. value) self.now }
    {
        count_ones(&self.words)
    }

    /// At how many positions the two differ.
    pub fn distance(&self, other: &Row) -> usize
        requires { length self.now ≡ length other.now }
        ensures { result ≡ differing self.now other.now }
    {
        count_differing(&self.words, &other.words)
    }

    /// At how many positions the two differ, where these are fewer than the limit. It stops once there are as many.
    pub fn distance_below(&self, other: &Row, limit: usize) -> Option<usize>
        requires { length self.now ≡ length other.now }
        ensures { let distance = differing self.now other.now in
            SomeIff result (distance < limit) distance }
    {
        count_differing_below(&self.words, &other.words, limit)
    }

    /// Adds values at the end, all false, so that there are `n`.
    pub fn grow(&mut self, n: usize) -> Result<(), AllocError>
        requires { length self.old ≤ n }
        ensures ok { OnOk result (self.new ≡ self.old ++ replicate (n - length self.old) false) }
        ensures err { OnErr result (self.new ≡ self.old) }
    {
        self.words.resize(n.div_ceil(64), 0)?;
        self.len = n;
        Ok(())
    }

    /// The words of the values, with zeros past the last one.
    pub fn words(&self) -> &[u64]
        ensures { Packs self.now result.now }
    {
        as_words(&self.words)
    }
}
