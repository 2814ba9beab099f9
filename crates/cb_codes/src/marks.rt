//! What a code is looked up by.
ghost use Rattle.std.specs.Prelude.{◌≡◌, IfOk};
ghost use Rattle.cb_codes.specs.Marks.{IsMark, columns_of, mark_of, mixed};

use cb_compact::CompactRow;
use std::alloc::{AllocError, Global};

// Any numbers would do. These are bits of pi and of the golden ratio.
const START: u64 = 0x243f_6a88_85a3_08d3;

const FACTOR: u64 = 0x9e37_79b9_7f4a_7c15;

/// The mark of a code: that of the numbers of its columns, where it has few, and else that of its words. Different codes seldom have the
/// same.
pub(crate) fn mark_of(alloc: Global, code: &CompactRow) -> Result<u64, AllocError>
    ensures { IfOk result (IsMark code.now) }
{
    if CompactRow::is_sparse(code.len(), code.ones()) {
        return Ok(mark_of_columns(code));
    }
    if let Some(row) = code.whole() {
        return Ok(mark_of_words(row.words()));
    }
    let row = code.to_row(alloc)?;
    Ok(mark_of_words(row.words()))
}

// The mark of the columns that a code has.
fn mark_of_columns(code: &CompactRow) -> u64
    ensures { result ≡ mark_of (columns_of code.now) }
{
    match code.positions() {
        Some(columns) => mark_of_positions(columns),
        None => mark_of_found(code),
    }
}

// The mark of these words.
fn mark_of_words(words: &[u64]) -> u64
    ensures { result ≡ mark_of words.now }
{
    let mut mark = START;
    for word in words {
        mark = mix(mark, *word);
    }
    mark
}

// The mark of these positions.
fn mark_of_positions(positions: &[u32]) -> u64
    ensures { result ≡ mark_of positions.now }
{
    let mut mark = START;
    for position in positions {
        mark = mix(mark, u64::from(*position));
    }
    mark
}

// The mark of the columns that a code has, found one after the other.
fn mark_of_found(code: &CompactRow) -> u64
    ensures { result ≡ mark_of (columns_of code.now) }
{
    // A length fits its type, and so does the position after a column.
    let _width = code.len();
    let mut mark = START;
    let mut from = 0;
    while let Some(column) = code.next_one(from) {
        mark = mix(mark, column as u64);
        from = column + 1;
    }
    mark
}

// The mark with one more number.
#[inline(always)]
fn mix(mark: u64, number: u64) -> u64
    ensures { result ≡ mixed mark number }
{
    let product = (mark ^ number).wrapping_mul(FACTOR);
    product ^ (product >> 32)
}
