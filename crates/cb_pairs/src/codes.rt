//! The codes of guesses. Each is a whole row, so that two are compared by their words.
ghost use Rattle.std.specs.Prelude.{◌≡◌, length, map, IfOk};
ghost use Rattle.std.specs.List.{All};
ghost use Rattle.cb_coding.specs.Distance.{HaveWidth};
ghost use Rattle.cb_pairs.specs.Guesses.{guess_code, united, with_second, IsOfGroups, IsSecondBelow};
ghost use Rattle.cb_pairs.specs.Kept.{HaveOneWidth};

use crate::guess::Guess;
use cb_bits::Row;
use cb_codes::Codes;
use cb_compact::CompactRow;
use cb_model::List;
use std::alloc::{AllocError, Global};

/// The codes of the groups, as rows.
pub(crate) fn rows_of(alloc: Global, groups: &Codes) -> Result<List<Row>, AllocError>
    ensures { IfOk result (λ rows. rows ≡ groups.now.rows) }
{
    let mut rows = List::new(alloc);
    for place in 0..groups.len() {
        rows.push(row_of(alloc, groups.row(place))?)?;
    }
    Ok(rows)
}

// A code as a row.
fn row_of(alloc: Global, code: &CompactRow) -> Result<Row, AllocError>
    ensures { IfOk result (λ row. row ≡ code.now) }
{
    let mut row = Row::zeroed(alloc, code.len())?;
    add(&mut row, code);
    Ok(row)
}

// Makes true what is true in a code.
fn add(row: &mut Row, code: &CompactRow)
    requires { length row.old ≡ length code.now }
    ensures { row.new ≡ united row.old code.now }
{
    // A length fits its type, and so does the position after a column.
    let _width = code.len();
    let mut from = 0;
    while let Some(column) = code.next_one(from) {
        row.set(column);
        from = column + 1;
    }
}

/// The code of each guess, in their order. `rows` are the codes of the groups.
pub(crate) fn codes_of(
    alloc: Global,
    rows: &List<Row>,
    guesses: &List<Guess>,
) -> Result<List<Row>, AllocError>
    requires wide { HaveOneWidth rows.now }
    requires within { All (IsOfGroups (length rows.now)) guesses.now }
    ensures { IfOk result (λ codes. codes ≡ map (guess_code rows.now) guesses.now) }
{
    let mut codes = List::new(alloc);
    for at in 0..guesses.len() {
        codes.push(code_of(alloc, rows, *guesses.at(at))?)?;
    }
    Ok(codes)
}

// The code of a guess.
fn code_of(alloc: Global, rows: &List<Row>, guess: Guess) -> Result<Row, AllocError>
    requires wide { HaveOneWidth rows.now }
    requires within { IsOfGroups (length rows.now) guess }
    ensures { IfOk result (λ code. code ≡ guess_code rows.now guess) }
{
    let mut code = rows.at(guess.first as usize).copy(alloc)?;
    add_second(&mut code, rows, guess.second);
    Ok(code)
}

// Makes true what is true in the code of a second group, if there is one.
fn add_second(code: &mut Row, rows: &List<Row>, second: Option<u32>)
    requires within { IsSecondBelow (length rows.now) second }
    requires wide { HaveWidth (length code.old) rows.now }
    ensures { code.new ≡ with_second rows.now code.old second }
{
    if let Some(second) = second {
        code.or_from(rows.at(second as usize));
    }
}
