//! At how many positions two rows differ, and at which.
ghost use Rattle.std.specs.Prelude.{◌≡◌, ◌+◌, ◌<◌, ◌≤◌, true, length, SomeIff, IfSome, IfNone};
ghost use Rattle.cb_bits.specs.Bits.{differing};
ghost use Rattle.cb_compact.specs.Compact.{differs, differing_before, differing_under};

use crate::compact::CompactRow;
use crate::differing::Differing;
use cb_bits::Row;
use cb_lanes::distance_under;

/// At how many positions two rows differ, where these are fewer than the limit.
#[inline(never)]
pub(crate) fn count_below(left: &CompactRow, right: &CompactRow, limit: usize) -> Option<usize>
    requires { length left.now ≡ length right.now }
    ensures { let distance = differing left.now right.now in
        SomeIff result (distance < limit) distance }
{
    if limit == 0 {
        return None;
    }
    let mut count = 0;
    let mut places = Differing::of(left, right);
    while let Some(_) = places.next() {
        count += 1;
        if count == limit {
            return None;
        }
    }
    Some(count)
}

/// At how many ones of a mask two rows differ.
#[inline(never)]
pub(crate) fn count_under(left: &CompactRow, right: &CompactRow, mask: &Row) -> usize
    requires same { length left.now ≡ length right.now }
    requires masked { length left.now ≡ length mask.now }
    ensures { result ≡ differing_under mask.now left.now right.now }
{
    // A length fits its type, and so does a count of positions.
    let _len = left.len();
    let mut count = 0;
    let mut places = Differing::of(left, right);
    while let Some(place) = places.next() {
        if mask.get(place) {
            count += 1;
        }
    }
    count
}

/// At how many ones of a mask two rows differ, where these are fewer than the limit.
#[inline(never)]
pub(crate) fn count_under_below(
    left: &CompactRow,
    right: &CompactRow,
    mask: &Row,
    limit: usize,
) -> Option<usize>
    requires same { length left.now ≡ length right.now }
    requires masked { length left.now ≡ length mask.now }
    ensures { let distance = differing_under mask.now left.now right.now in
        SomeIff result (distance < limit) distance }
{
    if limit == 0 {
        return None;
    }
    let mut count = 0;
    let mut places = Differing::of(left, right);
    while let Some(place) = places.next() {
        if !mask.get(place) {
            continue;
        }
        count += 1;
        if count == limit {
            return None;
        }
    }
    Some(count)
}

/// At how many ones of a mask two rows differ, by the words of both.
pub(crate) fn words_under(one: &Row, other: &Row, mask: &Row) -> usize
    requires same { length one.now ≡ length other.now }
    requires masked { length one.now ≡ length mask.now }
    requires few { length one.now ≤ 4294967232 }
    ensures { result ≡ differing_under mask.now one.now other.now }
{
    distance_under(one.words(), other.words(), mask.words()) as usize
}

/// The number, if it is below the limit.
pub(crate) fn below(count: usize, limit: usize) -> Option<usize>
    ensures { SomeIff result (count < limit) count }
{
    if count < limit { Some(count) } else { None }
}

/// The nth position at which two rows differ, counted from the first, where it comes before the given one.
#[inline(never)]
pub(crate) fn nth_place(
    left: &CompactRow,
    right: &CompactRow,
    before: usize,
    n: usize,
) -> Option<usize>
    requires same { length left.now ≡ length right.now }
    requires some { 0 < n }
    ensures before { IfSome result (λ k. k < before) }
    ensures differ { IfSome result (λ k. differs left.now right.now k ≡ true) }
    ensures nth { IfSome result (λ k. differing_before k left.now right.now + 1 ≡ n) }
    ensures none { IfNone result (differing_before before left.now right.now < n) }
{
    let mut found = 0;
    let mut places = Differing::of(left, right);
    while let Some(place) = places.next() {
        if before <= place {
            return None;
        }
        found += 1;
        if found == n {
            return Some(place);
        }
    }
    None
}
