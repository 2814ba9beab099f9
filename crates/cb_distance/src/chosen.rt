//! Codes over some columns alone.
ghost use Rattle.std.specs.Prelude.{◌≡◌, ◌<◌, ◌≤◌, [], length, replicate, IfOk};
ghost use Rattle.std.specs.List.{All};
ghost use Rattle.cb_distance.specs.Chosen.{IsOver, AreChosen, IsChosenIndex, Sets};

use cb_bits::Row;
use cb_codes::Codes;
use cb_compact::CompactRow;
use cb_model::List;
use std::alloc::{AllocError, Global};

/// The codes over these columns alone, and which of them have each column.
pub(crate) fn chosen(alloc: Global, codes: &Codes, columns: &[u32]) -> Result<Codes, AllocError>
    ensures { IfOk result (AreChosen columns.now codes.now.rows) }
{
    let places = places_of(alloc, columns, codes.width())?;
    let mut chosen = Codes::new(alloc, columns.len());
    for place in 0..codes.len() {
        let code = over(alloc, codes.row(place), columns, &places)?;
        chosen.push(CompactRow::of(alloc, &code)?)?;
    }
    chosen.list_holders(alloc);
    Ok(chosen)
}

// For each of `width` columns, at which positions of `columns` it stands.
fn places_of(alloc: Global, columns: &[u32], width: usize) -> Result<Vec<List<usize>>, AllocError>
    ensures { IfOk result (λ places. IsChosenIndex columns.now width places.items) }
{
    let mut places = empty_lists(alloc, width)?;
    for place in 0..columns.len() {
        let column = columns[place] as usize;
        if column < width {
            places[column].push(place)?;
        }
    }
    Ok(places)
}

// `count` empty lists.
fn empty_lists(alloc: Global, count: usize) -> Result<Vec<List<usize>>, AllocError>
    ensures { IfOk result (λ lists. lists.items ≡ replicate count []) }
{
    let mut lists = Vec::new(alloc);
    while lists.len() < count {
        lists.push(List::new(alloc))?;
    }
    Ok(lists)
}

// The code over these columns alone, by where each column of its own stands among them.
fn over(
    alloc: Global,
    code: &CompactRow,
    columns: &[u32],
    places: &[List<usize>],
) -> Result<Row, AllocError>
    requires places { IsChosenIndex columns.now (length places.now) places.now }
    requires within { length code.now ≤ length places.now }
    ensures { IfOk result (IsOver columns.now code.now) }
{
    // A length fits its type, and so does the position after a column.
    let _width = code.len();
    let mut row = Row::zeroed(alloc, columns.len())?;
    let mut from = 0;
    while let Some(column) = code.next_one(from) {
        set_all(&mut row, &places[column]);
        from = column + 1;
    }
    Ok(row)
}

// Makes true what stands at these positions.
fn set_all(row: &mut Row, places: &List<usize>)
    requires { All (λ place. place < length row.old) places.now }
    ensures { Sets places.now row.old row.new }
{
    for place in places.as_slice() {
        row.set(*place);
    }
}
