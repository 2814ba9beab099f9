//! How far the closest two codes that differ are apart.
ghost use Rattle.std.specs.Prelude.{◌≡◌, ◌+◌, ◌<◌, ◌≤◌, ◌^◌, length, IfOk};
ghost use Rattle.cb_coding.specs.Distance.{all_columns, distance as distance_of, HaveWidth};
ghost use Rattle.cb_pairs.specs.Kept.{AreKnown, IsCloser, IsLeastApart, IsLeastUpto};
ghost use Rattle.cb_pairs.specs.Landmarks.{HaveLandmarks, AreSeen};

use crate::landmarks::{Landmarks, are_far, distances_of};
use cb_bits::Row;
use cb_model::List;
use std::alloc::{AllocError, Global};

/// The least distance of two of the `codes` that differ, or 1 where none do. `rows` are the codes of the groups, and
/// `marks` the landmarks of each code among them.
pub(crate) fn separation_of(
    alloc: Global,
    rows: &List<Row>,
    codes: &List<Row>,
    marks: &List<Landmarks>,
    width: usize,
) -> Result<u32, AllocError>
    requires narrow { width < 2 ^ 32 }
    requires rows { HaveWidth width rows.now }
    requires codes { HaveWidth width codes.now }
    requires marks { HaveLandmarks width rows.now codes.now marks.now }
    ensures { IfOk result (IsLeastApart width codes.now) }
{
    // No two codes that differ are closer.
    let least = width.min(1);
    let mut best = width + 1;
    for first in 0..codes.len() {
        let distances = distances_of(alloc, codes.at(first), rows)?;
        best = closest_with(codes, first, &distances, marks, best, width);
        if best <= least {
            return Ok(1);
        }
    }
    Ok(best_or_one(best, width))
}

// What was found, or 1 where nothing was.
fn best_or_one(best: usize, width: usize) -> u32
    requires { width < 2 ^ 32 }
    ensures some { best ≤ width → result ≡ best }
    ensures none { width < best → result ≡ 1 }
{
    if width < best { 1 } else { best as u32 }
}

// The best so far, or how far the code at a position is from a later one, where that is less. `distances` are those of this code
// from the groups.
fn closest_with(
    codes: &List<Row>,
    first: usize,
    distances: &List<usize>,
    marks: &List<Landmarks>,
    so_far: usize,
    width: usize,
) -> usize
    requires within { first < length codes.now }
    requires codes { HaveWidth width codes.now }
    requires known { AreKnown width codes.now first distances.now marks.now }
    requires so_far { IsLeastUpto width codes.now first (first + 1) so_far }
    ensures { IsLeastUpto width codes.now first (length codes.now) result }
{
    let count = codes.len();
    let code = codes.at(first);
    let mut best = so_far;
    for second in first + 1..count {
        best = closer(code, codes.at(second), distances, *marks.at(second), best);
    }
    best
}

// How far two codes are apart, where that is less than the best and they differ.
fn closer(one: &Row, other: &Row, distances: &List<usize>, marks: Landmarks, best: usize) -> usize
    requires wide { length one.now ≡ length other.now }
    requires seen { AreSeen one.now other.now distances.now marks }
    ensures { IsCloser (distance_of (all_columns (length one.now)) one.now other.now) best result }
{
    if are_far(distances, marks, best) {
        return best;
    }
    let distance = one.distance(other);
    if 0 < distance && distance < best {
        distance
    } else {
        best
    }
}
