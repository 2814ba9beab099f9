//! The columns of a row that has few of them.
ghost use Rattle.std.specs.Prelude.{◌≡◌, ◌≤◌, length, replicate, true, IfOk};
ghost use Rattle.cb_lanes.specs.Words.{word_limit};
ghost use Rattle.cb_matrix.specs.Codes.{AreColumnsOf, bits};

use crate::codes::next_left;
use cb_compact::CompactRow;
use cb_nodes::NodeId;
use cb_topo::ColumnIndex;
use std::alloc::AllocError;

/// Makes the list that of the positions of the columns that a row has, in order. It is false if these are too many to be stored so; the list is
/// unfinished then. `none` has zeros alone.
pub(crate) fn list_columns(
    columns: &ColumnIndex,
    row: &[u64],
    none: &[u64],
    list: &mut Vec<u32>,
) -> Result<bool, AllocError>
    requires few { length row.now ≤ word_limit }
    requires none { none.now ≡ replicate (length row.now) 0 }
    ensures { IfOk result (λ are_all. are_all ≡ true → AreColumnsOf columns.now (bits row.now) list.new.items) }
{
    list.clear();
    let mut from = 0;
    while let Some(node) = next_left(row, none, from) {
        if let Some(place) = columns.position(NodeId(node as u32)) {
            list.push(place)?;
            if !CompactRow::is_sparse(columns.len(), list.len()) {
                return Ok(false);
            }
        }
        from = node + 1;
    }
    list.sort_unstable();
    list.dedup();
    Ok(true)
}
