//! The columns that keep codes from being equal, after a zero code: what is kept for a distance or a cap of 1. No pair waits. Of two codes
//! that a column alone tells apart one has it, and the other has all else that the first one has; so the other is found among the codes that
//! have another column of the first, which few have. If the first has no other column, the zero code is the other one.
ghost use Rattle.std.specs.Prelude.{◌≡◌, ◌<◌, ℕ, true, false, length, replicate, IsTrue, IfOk, IfSome, IfNone};
ghost use Rattle.std.specs.List.{All, Contains};
ghost use Rattle.cb_coding.specs.Distance.{bit, code_at, apart, HaveWidth};
ghost use Rattle.cb_coding.specs.Needs.{capped_need};
ghost use Rattle.cb_coding.specs.Books.{IsChoice};
ghost use Rattle.cb_reduce.specs.Pairs.{StartsWithZero};
ghost use Rattle.cb_reduce.specs.Places.{kept_of};
ghost use Rattle.cb_reduce.specs.Alone.{SomeAlone, NoneAlone, NoneAloneWith};

use cb_bits::Row;
use cb_codes::Codes;
use cb_compact::CompactRow;
use std::alloc::{AllocError, Global};

// The most looks for each code, on average, for which no pair waits.
const MOST_LOOKS: usize = 256;

/// Whether so few codes share a column that it is quicker to look at these than to let pairs wait.
pub(crate) fn are_shared_by_few(codes: &Codes) -> bool {
    let most = codes.len().saturating_mul(MOST_LOOKS);
    let mut looks: usize = 0;
    for column in 0..codes.width() {
        let Some(places) = codes.holders(column) else {
            return false;
        };
        looks = looks.saturating_add(places.len().saturating_mul(places.len()));
        if most < looks {
            return false;
        }
    }
    true
}

/// The columns that a cap of 1 keeps, as a mask, after a zero code. It is none where no index lists the codes that have a column.
pub(crate) fn kept_alone(
    alloc: Global,
    codes: &Codes,
    width: usize,
) -> Result<Option<Row>, AllocError>
    requires have_width { HaveWidth width codes.now.rows }
    requires wide { width ≡ codes.now.width }
    requires zero { StartsWithZero codes.now.rows }
    ensures long { IfOk result (λ made. IfSome made (λ kept. length kept ≡ width)) }
    ensures choice { IfOk result (λ made. IfSome made (λ kept. IsChoice width codes.now.rows (capped_need width codes.now.rows 1) (kept_of kept))) }
{
    let mut standing = every_one(alloc, width)?;
    for column in (0..width).rev() {
        standing.clear(column);
        match is_needed(codes, &standing, column) {
            None => return Ok(None),
            Some(true) => standing.set(column),
            Some(false) => {}
        }
    }
    Ok(Some(standing))
}

// A mask of all columns.
fn every_one(alloc: Global, width: usize) -> Result<Row, AllocError>
    ensures { IfOk result (λ mask. mask ≡ replicate width true) }
{
    let mut mask = Row::zeroed(alloc, width)?;
    for column in 0..width {
        mask.set(column);
    }
    Ok(mask)
}

// Whether some two codes that a column tells apart agree over the columns of a mask.
fn is_needed(codes: &Codes, rest: &Row, column: usize) -> Option<bool>
    requires have_width { HaveWidth (length rest.now) codes.now.rows }
    requires zero { StartsWithZero codes.now.rows }
    ensures some { IfSome result (λ needed. IsTrue needed → SomeAlone codes.now.rows (kept_of rest.now) column) }
    ensures none { IfSome result (λ needed. needed ≡ false → NoneAlone codes.now.rows (kept_of rest.now) column) }
{
    some_told_alone(codes, rest, column, codes.holders(column)?)
}

// Whether one of these codes, which have a column, agrees over the columns of a mask with one that lacks it.
fn some_told_alone(codes: &Codes, rest: &Row, column: usize, places: &[u32]) -> Option<bool>
    requires have_width { HaveWidth (length rest.now) codes.now.rows }
    requires zero { StartsWithZero codes.now.rows }
    requires within { All (λ i. i < length codes.now.rows) places.now }
    requires have { All (λ i. bit (code_at codes.now.rows i) column ≡ true) places.now }
    ensures some { IfSome result (λ told. IsTrue told → SomeAlone codes.now.rows (kept_of rest.now) column) }
    ensures none { IfSome result (λ told. told ≡ false → (i : ℕ) → Contains places.now i → NoneAloneWith codes.now.rows (kept_of rest.now) column i) }
{
    for place in places {
        if is_told_alone(codes, rest, column, *place as usize)? {
            return Some(true);
        }
    }
    Some(false)
}

// Whether a code that has a column agrees over the columns of a mask with one that lacks it.
fn is_told_alone(codes: &Codes, rest: &Row, column: usize, place: usize) -> Option<bool>
    requires have_width { HaveWidth (length rest.now) codes.now.rows }
    requires zero { StartsWithZero codes.now.rows }
    requires within { place < length codes.now.rows }
    requires has { bit (code_at codes.now.rows place) column ≡ true }
    ensures some { IfSome result (λ told. IsTrue told → SomeAlone codes.now.rows (kept_of rest.now) column) }
    ensures none { IfSome result (λ told. told ≡ false → NoneAloneWith codes.now.rows (kept_of rest.now) column place) }
{
    let Some(shared) = rarest(codes, codes.row(place), rest) else {
        return Some(true);
    };
    let others = codes.holders(shared)?;
    Some(agrees_with_some(codes, rest, column, place, others))
}

// Of the columns of a mask that a code has, the one that the fewest codes have.
fn rarest(codes: &Codes, code: &CompactRow, mask: &Row) -> Option<usize>
    requires { length code.now ≡ length mask.now }
    ensures has { IfSome result (λ column. bit code.now column ≡ true) }
    ensures stands { IfSome result (λ column. bit mask.now column ≡ true) }
    ensures none { IfNone result ((column : ℕ) → bit code.now column ≡ true → bit mask.now column ≡ false) }
{
    // A length fits its type, and so does the position after a column.
    let _width = code.len();
    let mut best = None;
    let mut fewest = usize::MAX;
    let mut from = 0;
    while let Some(column) = code.next_one(from) {
        if mask.get(column) {
            let many = holders_of(codes, column);
            if many <= 1 {
                return Some(column);
            }
            if many < fewest || best.is_none() {
                fewest = many;
                best = Some(column);
            }
        }
        from = column + 1;
    }
    best
}

// How many codes have a column, where that is known.
fn holders_of(codes: &Codes, column: usize) -> usize {
    match codes.holders(column) {
        Some(places) => places.len(),
        None => 0,
    }
}

// Whether one of these codes lacks a column and agrees over the columns of a mask with one.
fn agrees_with_some(codes: &Codes, rest: &Row, column: usize, place: usize, others: &[u32]) -> bool
    requires have_width { HaveWidth (length rest.now) codes.now.rows }
    requires within { place < length codes.now.rows }
    requires has { bit (code_at codes.now.rows place) column ≡ true }
    requires others { All (λ i. i < length codes.now.rows) others.now }
    ensures some { IsTrue result → SomeAlone codes.now.rows (kept_of rest.now) column }
    ensures none { result ≡ false → (i : ℕ) → Contains others.now i → bit (code_at codes.now.rows i) column ≡ false
        → 0 < apart (kept_of rest.now) codes.now.rows place i }
{
    for other in others {
        if agrees_without(codes, rest, column, place, *other as usize) {
            return true;
        }
    }
    false
}

// Whether a code lacks a column and agrees over the columns of a mask with one.
fn agrees_without(codes: &Codes, rest: &Row, column: usize, place: usize, other: usize) -> bool
    requires have_width { HaveWidth (length rest.now) codes.now.rows }
    requires within { place < length codes.now.rows }
    requires other { other < length codes.now.rows }
    requires has { bit (code_at codes.now.rows place) column ≡ true }
    ensures some { IsTrue result → SomeAlone codes.now.rows (kept_of rest.now) column }
    ensures none { result ≡ false → bit (code_at codes.now.rows other) column ≡ false → 0 < apart (kept_of rest.now) codes.now.rows place other }
{
    if other == place {
        return false;
    }
    let there = codes.row(other);
    if let None = codes.row(place).distance_under_below(there, rest, 1) {
        return false;
    }
    !has_column(there, column)
}

// Whether a code has a column. Past its end it has none.
fn has_column(code: &CompactRow, column: usize) -> bool
    ensures { result ≡ bit code.now column }
{
    column < code.len() && code.get(column)
}
