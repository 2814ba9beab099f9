//! At which positions two whole rows differ, by the words of both.
ghost use Rattle.std.specs.Prelude.{◌≡◌, ◌+◌, ◌<◌, ◌≤◌, ◌*◌, ◌^◌, [], true, length, bit_xor, count_ones, IfSome, IfNone};
ghost use Rattle.std.specs.Simd.Lanes.{zip2};
ghost use Rattle.std.specs.Slice.Scan.{HoldsNowhere};
ghost use Rattle.cb_lanes.specs.Words.{in_not, IsNextBit};
ghost use Rattle.cb_compact.specs.Compact.{differs, differing_before, IsNextDiffering, DifferNowhereFrom};
ghost use Rattle.cb_compact.specs.Nth.{IsNthOne};

use cb_bits::Row;

/// The first position from one on at which two rows differ.
pub(crate) fn next_apart(a: &Row, b: &Row, from: usize) -> Option<usize>
    requires { length a.now ≡ length b.now }
    ensures next { IfSome result (IsNextDiffering a.now b.now from) }
    ensures none { IfNone result (DifferNowhereFrom a.now b.now from) }
{
    next_difference(a.words(), b.words(), from)
}

// The first bit, from a position on, at which two rows of words differ.
fn next_difference(a: &[u64], b: &[u64], from: usize) -> Option<usize>
    requires same { length a.now ≡ length b.now }
    requires few { 64 * length a.now ≤ 2 ^ 64 }
    ensures next { IfSome result (IsNextBit (zip2 bit_xor a.now b.now) [] from) }
    ensures none { IfNone result (HoldsNowhere (in_not (zip2 bit_xor a.now b.now) []) from (64 * length a.now)) }
{
    for i in from / 64..a.len() {
        let start = from.max(64 * i);
        let left = (a[i] ^ b[i]) >> (start % 64);
        if left != 0 {
            return Some(start + left.trailing_zeros() as usize);
        }
    }
    None
}

/// The nth position at which two rows differ, counted from the first, where it comes before the given one. Words before the one that has it are only counted.
pub(crate) fn nth_apart(one: &Row, other: &Row, before: usize, n: usize) -> Option<usize>
    requires same { length one.now ≡ length other.now }
    requires some { 0 < n }
    ensures before { IfSome result (λ k. k < before) }
    ensures differ { IfSome result (λ k. differs one.now other.now k ≡ true) }
    ensures nth { IfSome result (λ k. differing_before k one.now other.now + 1 ≡ n) }
    ensures none { IfNone result (differing_before before one.now other.now < n) }
{
    let a = one.words();
    let b = other.words();
    let mut left = n;
    for i in 0..a.len() {
        if before <= 64 * i {
            return None;
        }
        let word = a[i] ^ b[i];
        let ones = word.count_ones() as usize;
        if left <= ones {
            let place = 64 * i + nth_one(word, left);
            return if place < before { Some(place) } else { None };
        }
        left -= ones;
    }
    None
}

// The nth one of a word, from the least bit, where it has as many.
fn nth_one(word: u64, n: usize) -> usize
    requires some { 0 < n }
    requires enough { n ≤ count_ones word }
    ensures { IsNthOne word n result }
{
    let mut place = word.trailing_zeros() as usize;
    for found in 1..n {
        let next = place + 1;
        place = next + (word >> next).trailing_zeros() as usize;
    }
    place
}
