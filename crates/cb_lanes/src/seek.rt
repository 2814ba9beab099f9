//! Bits that one row has and another lacks.
ghost use Rattle.std.specs.Prelude.{◌≡◌, ◌≤◌, ◌*◌, ◌^◌, length, IfSome, IfNone};
ghost use Rattle.std.specs.Slice.Scan.{HoldsNowhere};
ghost use Rattle.cb_lanes.specs.Words.{in_not, IsNextBit};

/// The first bit, from a position on, that is one in `a` and zero in `b`.
pub fn next_in_a_not_b(a: &[u64], b: &[u64], from: usize) -> Option<usize>
    requires same { length a.now ≡ length b.now }
    requires few { 64 * length a.now ≤ 2 ^ 64 }
    ensures next { IfSome result (IsNextBit a.now b.now from) }
    ensures none { IfNone result (HoldsNowhere (in_not a.now b.now) from (64 * length a.now)) }
{
    for i in from / 64..a.len() {
        let start = from.max(64 * i);
        let left = (a[i] & !b[i]) >> (start % 64);
        if left != 0 {
            return Some(start + left.trailing_zeros() as usize);
        }
    }
    None
}
