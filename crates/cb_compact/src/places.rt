//! The positions of the ones of a row, in order.
ghost use Rattle.std.specs.Prelude.{All, ◌≡◌, ◌<◌, ◌≤◌, ◌+◌, ◌^◌, List, Bool, ℕ, false, length, slice_index_or, IsTrue, IfOk, IfSome, IfNone};
ghost use Rattle.cb_bits.specs.Bits.{IsNextOne, HasNoneFrom};
ghost use Rattle.cb_compact.specs.Compact.{ones_of, with_ones, AreRising, AreBefore};

use cb_bits::Row;
use std::alloc::{AllocError, Global};

/// The positions of the ones, of which there are `ones`.
pub(crate) fn places_of(alloc: Global, row: &Row, ones: usize) -> Result<Vec<u32>, AllocError>
    requires { length row.now ≤ 2 ^ 32 }
    ensures { IfOk result (λ places. places.items ≡ ones_of row.now) }
{
    // A length fits its type, and so does the index after a position.
    let _len = row.len();
    let mut places = Vec::with_capacity(alloc, ones)?;
    let mut from = 0;
    while let Some(place) = row.next_one(from) {
        places.push(place as u32)?;
        from = place + 1;
    }
    Ok(places)
}

/// A row of `len` values that has its ones at these positions.
pub(crate) fn row_at(alloc: Global, len: usize, places: &[u32]) -> Result<Row, AllocError>
    requires { All (λ k. k < len) places.now }
    ensures { IfOk result (λ row. row ≡ with_ones places.now len) }
{
    let mut row = Row::zeroed(alloc, len)?;
    for place in places {
        row.set(*place as usize);
    }
    Ok(row)
}

/// Whether a position is one of a row that has its ones at these.
pub(crate) fn has_place(places: &[u32], place: usize) -> bool
    ensures { (row : List Bool) → places.now ≡ ones_of row → result ≡ slice_index_or row place false }
{
    let at = first_from(places, place);
    at < places.len() && places[at] as usize == place
}

/// The first one from a position on of a row that has its ones at these.
pub(crate) fn next_place(places: &[u32], from: usize) -> Option<usize>
    ensures next { IfSome result (λ place. (row : List Bool) → places.now ≡ ones_of row → IsNextOne row from place) }
    ensures none { IfNone result ((row : List Bool) → places.now ≡ ones_of row → HasNoneFrom row from) }
{
    place_after(places, first_from(places, from), from)
}

/// As `next_place`; `before` of them come before that position, and are skipped.
pub(crate) fn place_after(places: &[u32], before: usize, from: usize) -> Option<usize>
    ensures next { IfSome result (λ place. (row : List Bool) → places.now ≡ ones_of row → AreBefore (ones_of row) from before → IsNextOne row from place) }
    ensures none { IfNone result ((row : List Bool) → places.now ≡ ones_of row → AreBefore (ones_of row) from before → HasNoneFrom row from) }
{
    if before < places.len() {
        Some(places[before] as usize)
    } else {
        None
    }
}

// How many positions come before one, found by halves.
fn first_from(places: &[u32], from: usize) -> usize
    ensures { AreRising places.now → AreBefore places.now from result }
{
    let mut low = 0;
    let mut high = places.len();
    while low < high {
        let middle = low + (high - low) / 2;
        if (places[middle] as usize) < from {
            low = middle + 1;
        } else {
            high = middle;
        }
    }
    low
}
