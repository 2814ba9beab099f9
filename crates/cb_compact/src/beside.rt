//! A list of positions beside whole rows.
ghost use Rattle.std.specs.Prelude.{◌≡◌, ◌<◌, ◌&&◌, false, length, slice_index_or, count_by, All};

use cb_bits::Row;

/// How many of these positions are true in a row.
pub(crate) fn shared(positions: &[u32], row: &Row) -> usize
    requires { All (λ k. k < length row.now) positions.now }
    ensures { result ≡ count_by (λ k. slice_index_or row.now k false) positions.now }
{
    let mut count = 0;
    for position in positions {
        if row.get(*position as usize) {
            count += 1;
        }
    }
    count
}

/// How many of these positions are true in a mask and in a row.
pub(crate) fn shared_under(positions: &[u32], mask: &Row, row: &Row) -> usize
    requires mask { All (λ k. k < length mask.now) positions.now }
    requires row { All (λ k. k < length row.now) positions.now }
    ensures { result ≡ count_by (λ k. slice_index_or mask.now k false && slice_index_or row.now k false) positions.now }
{
    let mut count = 0;
    for position in positions {
        if mask.get(*position as usize) && row.get(*position as usize) {
            count += 1;
        }
    }
    count
}
