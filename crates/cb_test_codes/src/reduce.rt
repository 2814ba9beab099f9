//! The worked codes, and the quick reduction beside the definition's own program.
ghost use Rattle.std.specs.Prelude.{◌≡◌, ◌<◌, ◌≤◌, length, IsTrue, IfOk};

use cb_bits::Row;
use cb_codes::Codes;
use cb_compact::CompactRow;
use cb_distance::first_close;
use cb_reduce::{Pair, Refused, book, book_in_use, least, reduce, whole_book};
use std::alloc::{AllocError, Global};
use std::test::Fail;

// Four codes of width 5: the first is 3 from the second and the third.
const CODES: [&str; 4] = ["00000", "11100", "00111", "11011"];

#[test]
fn reduces_the_worked_codes(rt: HostRuntime) -> Result<(), Fail> {
    // What is wanted, and the columns of the book; none where the codes are too close.
    let cases: [(u32, Option<&[u32]>); 4] = [
        (1, Some(&[0, 2])),
        (2, Some(&[0, 2, 3])),
        (3, Some(&[0, 1, 2, 3, 4])),
        (4, None),
    ];
    let codes = codes_of(rt.alloc(), 5, &CODES)?;
    for (wanted, columns) in cases {
        assert!(rt;
            has_columns(rt.alloc(), &codes, wanted, columns),
            "{wanted}"
        );
    }
    let alone = codes_of(rt.alloc(), 3, &["000"])?;
    assert!(rt; has_columns(rt.alloc(), &alone, 9_999, Some(&[])));
    assert!(rt; is_whole(rt.alloc(), &codes)?);
    assert!(rt; is_in_use(rt.alloc(), &codes, 2, &[0, 2, 3], 2)?);
    assert!(rt; is_in_use(rt.alloc(), &codes, 4, &[0, 1, 2, 3, 4], 3)?);
    Ok(())
}

// Whether the codes are few and narrow.
pub(crate) fn are_small(codes: &Codes) -> bool
    ensures few { IsTrue result → length codes.now.rows ≤ 100 }
    ensures narrow { IsTrue result → codes.now.width ≤ 3000 }
{
    codes.len() <= 100 && codes.width() <= 3000
}

// Whether the reduction keeps these columns, or names the first close pair.
fn has_columns(alloc: Global, codes: &Codes, wanted: u32, columns: Option<&[u32]>) -> bool {
    if !are_small(codes) {
        return false;
    }
    match reduce(alloc, codes, wanted) {
        Ok(book) => columns == Some(book.columns.as_slice()) && book.distance == wanted,
        Err(Refused::TooClose(pair)) => columns.is_none()
            && first_close(codes, wanted) == Some(pair),
        Err(Refused::NoMemory) => false,
    }
}

// Whether the book in use for a wanted distance has these columns and this distance.
fn is_in_use(
    alloc: Global,
    codes: &Codes,
    wanted: u32,
    columns: &[u32],
    distance: u32,
) -> Result<bool, AllocError> {
    if !are_small(codes) {
        return Ok(false);
    }
    let book = book_in_use(alloc, codes, wanted)?;
    Ok(book.columns.as_slice() == columns && book.distance == distance)
}

// Whether all five columns are a book at the distance of the first two codes, which are the closest.
fn is_whole(alloc: Global, codes: &Codes) -> Result<bool, AllocError> {
    if !are_small(codes) {
        return Ok(false);
    }
    let book = whole_book(alloc, codes)?;
    let pair = Pair {
        first: 0,
        second: 1,
        distance: 3,
    };
    Ok(book.columns.len() == 5 && book.distance == 3 && least(codes) == Some(pair))
}

#[test]
fn reduces_as_defined(rt: HostRuntime) -> Result<(), Fail> {
    let mut state = 7;
    for turn in 0..300 {
        // Up to nine codes of up to thirteen columns, sparse ones and dense ones, with a zero code first or without.
        let (count, width, quiet) = (turn % 10, 1 + turn % 13, turn % 3 != 0);
        let codes = drawn(
            rt.alloc(),
            &mut state,
            count,
            width,
            quiet,
            1 + turn as u64 % 4,
        )?;
        assert!(rt; agree(rt.alloc(), &codes, turn as u32 % 5)?, "{turn}");
    }
    Ok(())
}

#[test]
fn reduces_wide_codes_as_defined(rt: HostRuntime) -> Result<(), Fail> {
    let mut state = 11;
    for turn in 0..6_u32 {
        // Codes of 2,048 columns with four on average: more than half of them are kept by their columns, and the others whole.
        let codes = drawn(rt.alloc(), &mut state, 6, 2048, turn % 2 == 0, 512)?;
        assert!(rt; agree(rt.alloc(), &codes, 1 + turn % 3)?, "{turn}");
    }
    Ok(())
}

// The next number of a row that looks random.
fn next(state: &mut u64) -> u64 {
    *state = state
        .wrapping_mul(6_364_136_223_846_793_005)
        .wrapping_add(1_442_695_040_888_963_407);
    *state >> 33
}

// Codes with a column in `of` on average, after a zero code where `quiet`.
pub(crate) fn drawn(
    alloc: Global,
    state: &mut u64,
    count: usize,
    width: usize,
    quiet: bool,
    of: u64,
) -> Result<Codes, AllocError> {
    let mut codes = Codes::new(alloc, width);
    for place in 0..count {
        let empty = quiet && place == 0;
        let code = drawn_code(alloc, state, width, if empty { 0 } else { of })?;
        if code.len() == codes.width() {
            codes.push(CompactRow::of(alloc, &code)?)?;
        }
    }
    codes.list_holders(alloc);
    Ok(codes)
}

// A code with a column in `of` on average, or without any.
pub(crate) fn drawn_code(
    alloc: Global,
    state: &mut u64,
    width: usize,
    of: u64,
) -> Result<Row, AllocError> {
    let mut code = Row::zeroed(alloc, width)?;
    for column in 0..code.len() {
        if 0 < of && column < code.len() && next(state) % of == 0 {
            code.set(column);
        }
    }
    Ok(code)
}

// Whether the quick reduction answers as the definition's own program.
fn agree(alloc: Global, codes: &Codes, wanted: u32) -> Result<bool, AllocError> {
    if !are_small(codes) {
        return Ok(false);
    }
    match book(alloc, codes, wanted)? {
        Some(book) => Ok(has_columns(alloc, codes, wanted, Some(book.columns.as_slice()))),
        None => Ok(has_columns(alloc, codes, wanted, None)),
    }
}

// Codes from their texts.
pub(crate) fn codes_of(alloc: Global, width: usize, texts: &[&str]) -> Result<Codes, AllocError> {
    let mut codes = Codes::new(alloc, width);
    for text in texts {
        let code = code_of(alloc, width, text)?;
        if code.len() == codes.width() {
            codes.push(CompactRow::of(alloc, &code)?)?;
        }
    }
    codes.list_holders(alloc);
    Ok(codes)
}

// A code from its text.
pub(crate) fn code_of(alloc: Global, width: usize, text: &str) -> Result<Row, AllocError> {
    let mut code = Row::zeroed(alloc, width)?;
    for column in 0..width {
        if column < code.len() && text.as_bytes().get(column) == Some(&b'1') {
            code.set(column);
        }
    }
    Ok(code)
}
