//! Two rising lists of positions, gone through together.
ghost use Rattle.std.specs.Prelude.{◌≡◌, ◌+◌, ◌<◌, ◌≤◌, ◌^◌, length, slice_index_or, IfSome, IfNone};
ghost use Rattle.cb_compact.specs.Compact.{IsNextDiffering, DifferNowhereFrom};
ghost use Rattle.cb_compact.specs.Course.{IsMergedAt};

use crate::compact::CompactRow;

// After all positions.
const END: usize = usize::MAX;

/// The positions of the ones of two rows, and how many of each have been gone through.
#[derive(Drop)]
pub struct Merged<'a> {
    left: &'a [u32],
    right: &'a [u32],
    left_passed: usize,
    right_passed: usize,
}

impl<'a> Merged<'a> {
    /// Both lists from the start.
    pub fn of(left: &'a [u32], right: &'a [u32]) -> Merged<'a>
        ensures left { result.left.now ≡ left.now }
        ensures right { result.right.now ≡ right.now }
        ensures left_passed { result.left_passed ≡ 0 }
        ensures right_passed { result.right_passed ≡ 0 }
    {
        Merged {
            left,
            right,
            left_passed: 0,
            right_passed: 0,
        }
    }

    /// The next position at which two rows differ, by their lists, after the position up to which these were gone through.
    #[inline(always)]
    pub fn next(&mut self, left: &CompactRow, right: &CompactRow, from: &mut usize) -> Option<usize>
        requires same { length left.now ≡ length right.now }
        requires lists { IsMergedAt left.now right.now from.old self.old }
        ensures lists { IsMergedAt left.now right.now from.new self.new }
        ensures next { IfSome result (IsNextDiffering left.now right.now from.old) }
        ensures from { IfSome result (λ place. from.new ≡ place + 1) }
        ensures none { IfNone result (DifferNowhereFrom left.now right.now from.old) }
    {
        // A length fits its type, and so does the position after a one.
        let _len = left.len();
        while self.left_passed < self.left.len() || self.right_passed < self.right.len() {
            let one = position_or_end(self.left, self.left_passed);
            let other = position_or_end(self.right, self.right_passed);
            let place = one.min(other);
            self.left_passed += usize::from(one <= other);
            self.right_passed += usize::from(other <= one);
            *from = place + 1;
            if one != other {
                return Some(place);
            }
        }
        None
    }
}

/// The lists of two rows from the start, if both store the positions of their ones.
pub(crate) fn merged_of<'a>(left: &'a CompactRow, right: &'a CompactRow) -> Option<Merged<'a>>
    ensures { IfSome result (IsMergedAt left.now right.now 0) }
{
    if let Some(one) = left.positions() {
        if let Some(other) = right.positions() {
            return Some(Merged::of(one, other));
        }
    }
    None
}

// The position at an index, or the end.
#[inline(always)]
fn position_or_end(positions: &[u32], i: usize) -> usize
    ensures there { i < length positions.now → result ≡ slice_index_or positions.now i 0 }
    ensures before_end { i < length positions.now → result < 2 ^ 32 }
    ensures end { length positions.now ≤ i → result ≡ 18446744073709551615 }
{
    if i < positions.len() {
        positions[i] as usize
    } else {
        END
    }
}
