//! A row of truth values, by the positions of its ones where these are few.
ghost use Rattle.std.specs.Prelude.{All, ◌≡◌, ◌+◌, ◌<◌, ◌≤◌, ◌^◌, IsTrue, length, true, false, slice_index_or, count_by, SomeIff, IfSome, IfNone, IfOk};
ghost use Rattle.cb_bits.specs.Bits.{differing, IsNextOne, HasNoneFrom};
ghost use Rattle.cb_compact.specs.Few.{are_few};
ghost use Rattle.cb_compact.specs.Compact.{ones_of, with_ones, AreRising, AreBefore, KeepsRow, differs, differing_before, differing_under};

use crate::apart::nth_apart;
use crate::beside::{shared, shared_under};
use crate::counted::{below, count_below, count_under, count_under_below, nth_place, words_under};
use crate::places::{has_place, next_place, place_after, places_of, row_at};
use cb_bits::Row;
use std::alloc::{AllocError, Global};
use std::marker::Model;

// The positions of as many values fit 32 bits.
const MOST_PLACES: usize = 4_294_967_296;

// As few ones are kept by their positions however few the words are.
const FEW_ONES: usize = 8;

// This many values have no more words than `distance_under` of cb_lanes takes.
const MOST_COUNTED: usize = 4_294_967_232;

/// What is kept of a row: the positions of its ones, in order, or all of it.
#[derive(Drop)]
enum Kept {
    Places(Vec<u32>),
    Whole(Row),
}

/// Truth values in order. Contracts see the list of them. Made of a row, it stores the positions of the true values if these are fewer
/// than half of the words of the row, rounded down, and 8 more; made of positions, it stores these.
#[derive(Drop)]
pub struct CompactRow {
    len: usize,
    // How many values are true.
    weight: usize,
    kept: Kept,
}

impl Model for CompactRow {
    ghost use Rattle.std.specs.Prelude.{List, Bool};
    ghost use Rattle.cb_compact.specs.Compact.{values_of, IsCompactOf};

    ghost Value = { List Bool };

    ghost view = { λ r. values_of r.kept r.len };

    ghost invariant = { λ r. IsCompactOf r.kept r.len r.weight };
}

impl CompactRow {
    /// A compact row with the values of `row`.
    pub fn of(alloc: Global, row: &Row) -> Result<CompactRow, AllocError>
        ensures { IfOk result (λ compact. compact ≡ row.now) }
    {
        let len = row.len();
        let weight = row.ones();
        let kept = kept_of(alloc, row, weight)?;
        Ok(CompactRow { len, weight, kept })
    }

    /// `len` values, of which those at `positions` are true. The list is stored as it is, however long.
    pub fn of_positions(len: usize, positions: Vec<u32>) -> CompactRow
        requires rising { AreRising positions.items }
        requires within { All (λ k. k < len) positions.items }
        ensures { result ≡ with_ones positions.items len }
    {
        let weight = positions.len();
        CompactRow {
            len,
            weight,
            kept: Kept::Places(positions),
        }
    }

    /// As `of` of the row of `len` values of which those at `positions` are true. That row is made only if it is stored.
    pub fn at(alloc: Global, len: usize, positions: &[u32]) -> Result<CompactRow, AllocError>
        requires rising { AreRising positions.now }
        requires within { All (λ k. k < len) positions.now }
        ensures { IfOk result (λ compact. compact ≡ with_ones positions.now len) }
    {
        if CompactRow::is_sparse(len, positions.len()) {
            let copy = Vec::from_slice(alloc, positions)?;
            return Ok(CompactRow::of_positions(len, copy));
        }
        let row = row_at(alloc, len, positions)?;
        CompactRow::of(alloc, &row)
    }

    /// Whether a row of `len` values, of which `ones` are true, has so few true ones that `of` stores their positions.
    pub fn is_sparse(len: usize, ones: usize) -> bool
        ensures few { result ≡ are_few len ones }
        ensures short { IsTrue result → len ≤ 2 ^ 32 }
    {
        len <= MOST_PLACES && ones < len.div_ceil(64) / 2 + FEW_ONES
    }

    /// How many values there are.
    pub fn len(&self) -> usize
        ensures { result ≡ length self.now }
    {
        self.len
    }

    /// The value at a position.
    pub fn get(&self, i: usize) -> bool
        requires { i < length self.now }
        ensures { result ≡ slice_index_or self.now i false }
    {
        match &self.kept {
            Kept::Places(places) => has_place(places, i),
            Kept::Whole(row) => row.get(i),
        }
    }

    /// How many values are true.
    pub fn ones(&self) -> usize
        ensures { result ≡ count_by (λ value. value) self.now }
    {
        self.weight
    }

    /// The first true position from a position on.
    pub fn next_one(&self, from: usize) -> Option<usize>
        ensures next { IfSome result (IsNextOne self.now from) }
        ensures none { IfNone result (HasNoneFrom self.now from) }
    {
        match &self.kept {
            Kept::Places(places) => next_place(places, from),
            Kept::Whole(row) => row.next_one(from),
        }
    }

    /// As `next_one(from)`; `before` ones precede `from`, so stored positions are indexed directly.
    pub(crate) fn one_after(&self, before: usize, from: usize) -> Option<usize>
        requires { AreBefore (ones_of self.now) from before }
        ensures next { IfSome result (IsNextOne self.now from) }
        ensures none { IfNone result (HasNoneFrom self.now from) }
    {
        match &self.kept {
            Kept::Places(places) => place_after(places, before, from),
            Kept::Whole(row) => row.next_one(from),
        }
    }

    /// The row, if all of it is stored.
    pub fn whole(&self) -> Option<&Row>
        ensures { IfSome result (λ row. row.now ≡ self.now) }
    {
        match &self.kept {
            Kept::Places(_) => None,
            Kept::Whole(row) => Some(row),
        }
    }

    /// The positions of the true values, if these are stored.
    pub fn positions(&self) -> Option<&[u32]>
        ensures { IfSome result (λ positions. positions.now ≡ ones_of self.now) }
    {
        match &self.kept {
            Kept::Places(places) => Some(places.as_slice()),
            Kept::Whole(_) => None,
        }
    }

    /// The row of all values.
    pub fn to_row(&self, alloc: Global) -> Result<Row, AllocError>
        ensures { IfOk result (λ row. row ≡ self.now) }
    {
        match &self.kept {
            Kept::Places(places) => row_at(alloc, self.len, places.as_slice()),
            Kept::Whole(row) => row.copy(alloc),
        }
    }

    /// At how many positions the two differ, if these are fewer than `limit`. It compares nothing if the numbers of their ones differ
    /// by `limit` or more.
    pub fn distance_below(&self, other: &CompactRow, limit: usize) -> Option<usize>
        requires { length self.now ≡ length other.now }
        ensures { let distance = differing self.now other.now in
            SomeIff result (distance < limit) distance }
    {
        if limit <= self.ones().abs_diff(other.ones()) {
            return None;
        }
        if let Some(row) = other.whole() {
            if let Some(one) = self.whole() {
                return one.distance_below(row, limit);
            }
            return self.distance_to_below(row, other.ones(), limit);
        }
        if let Some(row) = self.whole() {
            return other.distance_to_below(row, self.ones(), limit);
        }
        count_below(self, other, limit)
    }

    // As `distance_below`, of a whole row with `ones` ones: each of the two has its ones, and they share some.
    #[inline(never)]
    fn distance_to_below(&self, row: &Row, ones: usize, limit: usize) -> Option<usize>
        requires same { length self.now ≡ length row.now }
        requires ones { ones ≡ count_by (λ value. value) row.now }
        ensures { let distance = differing self.now row.now in
            SomeIff result (distance < limit) distance }
    {
        match &self.kept {
            Kept::Places(places) => {
                // A length fits its type, and so does a number of positions.
                let _len = row.len();
                let list = places.as_slice();
                let both = shared(list, row);
                let distance = (list.len() - both) + (ones - both);
                below(distance, limit)
            }
            Kept::Whole(one) => one.distance_below(row, limit),
        }
    }

    // At how many ones of a mask it differs from a whole row.
    #[inline(never)]
    fn distance_to_under(&self, row: &Row, mask: &Row) -> usize
        requires same { length self.now ≡ length row.now }
        requires masked { length self.now ≡ length mask.now }
        requires few { length self.now ≤ 4294967232 }
        ensures { result ≡ differing_under mask.now self.now row.now }
    {
        match &self.kept {
            Kept::Places(places) => {
                let list = places.as_slice();
                let own = shared(list, mask);
                let both = shared_under(list, mask, row);
                let missing = words_under(row, mask, mask);
                let all = mask.ones();
                (own - both) + (all - missing - both)
            }
            Kept::Whole(one) => words_under(one, row, mask),
        }
    }

    /// At how many ones of a mask the two differ.
    pub fn distance_under(&self, other: &CompactRow, mask: &Row) -> usize
        requires same { length self.now ≡ length other.now }
        requires masked { length self.now ≡ length mask.now }
        ensures { result ≡ differing_under mask.now self.now other.now }
    {
        if self.len() <= MOST_COUNTED {
            if let Some(row) = other.whole() {
                if let Some(one) = self.whole() {
                    return words_under(one, row, mask);
                }
                return self.distance_to_under(row, mask);
            }
            if let Some(row) = self.whole() {
                return other.distance_to_under(row, mask);
            }
        }
        count_under(self, other, mask)
    }

    /// As `distance_under`, if these are fewer than `limit`. It stops once there are as many; if one of the two is whole it counts all.
    pub fn distance_under_below(
        &self,
        other: &CompactRow,
        mask: &Row,
        limit: usize,
    ) -> Option<usize>
        requires same { length self.now ≡ length other.now }
        requires masked { length self.now ≡ length mask.now }
        ensures { let distance = differing_under mask.now self.now other.now in
            SomeIff result (distance < limit) distance }
    {
        if self.len() <= MOST_COUNTED {
            if let Some(row) = other.whole() {
                if let Some(one) = self.whole() {
                    return below(words_under(one, row, mask), limit);
                }
                return below(self.distance_to_under(row, mask), limit);
            }
            if let Some(row) = self.whole() {
                return below(other.distance_to_under(row, mask), limit);
            }
        }
        count_under_below(self, other, mask, limit)
    }

    /// The nth position at which the two differ, counted from the first, where it comes before the given one.
    pub fn nth_differing(&self, other: &CompactRow, before: usize, n: usize) -> Option<usize>
        requires same { length self.now ≡ length other.now }
        requires some { 0 < n }
        ensures before { IfSome result (λ k. k < before) }
        ensures differ { IfSome result (λ k. differs self.now other.now k ≡ true) }
        ensures nth { IfSome result (λ k. differing_before k self.now other.now + 1 ≡ n) }
        ensures none { IfNone result (differing_before before self.now other.now < n) }
    {
        if let Some(one) = self.whole() {
            if let Some(two) = other.whole() {
                return nth_apart(one, two, before, n);
            }
        }
        nth_place(self, other, before, n)
    }
}

// The positions of the `ones` ones, if these are few, and else a copy: a step in two lists takes as long as some two words, and two whole rows
// of few words take as long as some eight steps.
fn kept_of(alloc: Global, row: &Row, ones: usize) -> Result<Kept, AllocError>
    ensures { IfOk result (KeepsRow row.now) }
{
    if CompactRow::is_sparse(row.len(), ones) {
        let places = places_of(alloc, row, ones)?;
        Ok(Kept::Places(places))
    } else {
        let copy = row.copy(alloc)?;
        Ok(Kept::Whole(copy))
    }
}
