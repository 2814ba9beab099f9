//! Codes, read off spans.
ghost use Rattle.std.specs.Prelude.{◌≡◌, true, IfOk};
ghost use Rattle.cb_checker.specs.Codes.{AreColumnsListed, IsCodeOfListed};
ghost use Rattle.cb_checker.specs.Listed.{AreListed};

use crate::marks::SpanNodes;
use cb_bits::Row;
use cb_compact::CompactRow;
use cb_nodes::NodeId;
use cb_topo::ColumnIndex;
use std::alloc::{AllocError, Global};

/// As `code_of`, as a compact row. Where few columns are listed, no row of all columns is made.
pub(crate) fn compact_code_of(
    alloc: Global,
    columns: &ColumnIndex,
    marks: &SpanNodes,
) -> Result<CompactRow, AllocError>
    requires { AreListed marks.now.listed marks.now.placed.items }
    ensures { IfOk result (IsCodeOfListed columns.now marks.now.listed) }
{
    let mut list = Vec::new(alloc);
    if list_columns(columns, &marks.placed, &mut list)? {
        return CompactRow::at(alloc, columns.len(), &list);
    }
    let row = code_of(alloc, columns, marks)?;
    CompactRow::of(alloc, &row)
}

// Makes the list that of the positions of the columns among these nodes, in order. It is false if these are too many to be stored so; the
// list is unfinished then.
fn list_columns(
    columns: &ColumnIndex,
    placed: &[NodeId],
    list: &mut Vec<u32>,
) -> Result<bool, AllocError>
    ensures { IfOk result (λ are_all. are_all ≡ true → AreColumnsListed columns.now placed.now list.new.items) }
{
    list.clear();
    for place in 0..placed.len() {
        if let Some(column) = columns.position(placed[place]) {
            list.push(column)?;
            if !CompactRow::is_sparse(columns.len(), list.len()) {
                return Ok(false);
            }
        }
    }
    list.sort_unstable();
    list.dedup();
    Ok(true)
}

/// For each column, whether it is listed. Only what is listed is looked at.
pub(crate) fn code_of(
    alloc: Global,
    columns: &ColumnIndex,
    marks: &SpanNodes,
) -> Result<Row, AllocError>
    requires { AreListed marks.now.listed marks.now.placed.items }
    ensures { IfOk result (IsCodeOfListed columns.now marks.now.listed) }
{
    let mut code = Row::zeroed(alloc, columns.len())?;
    for place in 0..marks.placed.len() {
        if let Some(column) = columns.position(marks.placed[place]) {
            code.set(column as usize);
        }
    }
    Ok(code)
}
