//! Codes over numbers of nodes.
ghost use Rattle.std.specs.Prelude.{◌≡◌, ◌<◌, ◌≤◌, ◌*◌, length, IfSome, IfNone};
ghost use Rattle.cb_lanes.specs.Words.{word_limit};
ghost use Rattle.cb_bits.specs.Bits.{difference, IsNextOne, HasNoneFrom};
ghost use Rattle.cb_matrix.specs.Codes.{IsCodeOf, IsCodeOfEither, bits};

use cb_bits::Row;
use cb_lanes::next_in_a_not_b;
use cb_nodes::NodeId;
use cb_topo::ColumnIndex;

/// Makes the code of a row that of another. Only the nodes at which the two differ are looked at.
pub(crate) fn pass_code(columns: &ColumnIndex, last: &[u64], row: &[u64], code: &mut Row)
    requires few { length row.now ≤ word_limit }
    requires same { length row.now ≡ length last.now }
    requires code { IsCodeOf columns.now (bits last.now) code.old }
    ensures { IsCodeOf columns.now (bits row.now) code.new }
{
    add_columns(columns, row, last, code);
    take_columns(columns, last, row, code);
}

// Adds to the code of the last row the columns that a row has and the last one lacks.
fn add_columns(columns: &ColumnIndex, row: &[u64], last: &[u64], code: &mut Row)
    requires few { length row.now ≤ word_limit }
    requires same { length row.now ≡ length last.now }
    requires code { IsCodeOf columns.now (bits last.now) code.old }
    ensures { IsCodeOfEither columns.now (bits row.now) (bits last.now) code.new }
{
    let mut from = 0;
    while let Some(node) = next_left(row, last, from) {
        if let Some(place) = columns.position(NodeId(node as u32)) {
            code.set(place as usize);
        }
        from = node + 1;
    }
}

// Takes from it the columns that the last row has and the row lacks.
fn take_columns(columns: &ColumnIndex, last: &[u64], row: &[u64], code: &mut Row)
    requires few { length last.now ≤ word_limit }
    requires same { length last.now ≡ length row.now }
    requires code { IsCodeOfEither columns.now (bits row.now) (bits last.now) code.old }
    ensures { IsCodeOf columns.now (bits row.now) code.new }
{
    let mut from = 0;
    while let Some(node) = next_left(last, row, from) {
        if let Some(place) = columns.position(NodeId(node as u32)) {
            code.clear(place as usize);
        }
        from = node + 1;
    }
}

/// The first node, from a number on, that a row has and another lacks.
pub(crate) fn next_left(row: &[u64], other: &[u64], from: usize) -> Option<usize>
    requires few { length row.now ≤ word_limit }
    requires same { length row.now ≡ length other.now }
    ensures next { IfSome result (IsNextOne (difference (bits row.now) (bits other.now)) from) }
    ensures none { IfNone result (HasNoneFrom (difference (bits row.now) (bits other.now)) from) }
    ensures below { IfSome result (λ node. node < 64 * length row.now) }
{
    next_in_a_not_b(row, other, from)
}
