//! Rows of 2048 values, 32 words, by the positions of their ones and as a whole.
use cb_bits::Row;
use cb_compact::CompactRow;
use std::alloc::{AllocError, Global};
use std::test::Fail;

// Too many ones to be kept by their positions, both.
const FORTIES: [usize; 16] = [
    0, 40, 80, 120, 160, 200, 240, 280, 320, 360, 400, 440, 480, 520, 560, 600,
];

const FIFTIES: [usize; 17] = [
    0, 50, 100, 150, 200, 250, 300, 350, 400, 450, 500, 550, 600, 650, 700, 750, 800,
];

// A row of which the values at the places are true.
fn row_of(alloc: Global, places: &[usize]) -> Result<Row, AllocError> {
    let mut row = Row::zeroed(alloc, 2048)?;
    for place in places {
        if *place < row.len() {
            row.set(*place);
        }
    }
    Ok(row)
}

// Whether a row is the same one by one, as long as it is compact.
fn is_kept(alloc: Global, places: &[usize]) -> Result<bool, AllocError> {
    let row = row_of(alloc, places)?;
    let compact = CompactRow::of(alloc, &row)?;
    if row.len() != 2048 || compact.len() != 2048 || compact.ones() != places.len() {
        return Ok(false);
    }
    for i in 0..2048 {
        if compact.get(i) != row.get(i) || compact.next_one(i) != row.next_one(i) {
            return Ok(false);
        }
    }
    Ok(compact.next_one(2048).is_none() && compact.next_one(usize::MAX).is_none())
}

// Whether two rows differ at the given number of positions, and at that of ones of a mask, from a first one to a last.
fn are_apart(
    alloc: Global,
    one: &[usize],
    other: &[usize],
    far: usize,
    under: usize,
    ends: Option<(usize, usize)>,
) -> Result<bool, AllocError> {
    let mask = row_of(alloc, &[0, 5, 80, 100, 2047])?;
    let one = CompactRow::of(alloc, &row_of(alloc, one)?)?;
    let other = CompactRow::of(alloc, &row_of(alloc, other)?)?;
    if 2048 < far || one.len() != mask.len() || other.len() != mask.len() {
        return Ok(false);
    }
    let counted = one.distance_below(&other, far + 1) == Some(far)
        && one.distance_below(&other, far).is_none()
        && one.distance_under(&other, &mask) == under
        && one.distance_under_below(&other, &mask, 2049) == Some(under)
        && one.distance_under_below(&other, &mask, under).is_none();
    let beyond = one.nth_differing(&other, 2048, far + 1).is_none();
    match ends {
        None => Ok(counted && beyond && far == 0),
        Some((first, last)) => Ok(
            counted
                && beyond
                && 0 < far
                && one.nth_differing(&other, 2048, 1) == Some(first)
                && one.nth_differing(&other, 2048, far) == Some(last)
                && one.nth_differing(&other, last, far).is_none(),
        ),
    }
}

#[test]
fn rows_say_what_they_said(rt: HostRuntime) -> Result<(), Fail> {
    let table: [&[usize]; 6] = [
        &[],
        &[0],
        &[2047],
        &[0, 1, 63, 64, 127, 300, 2046, 2047],
        &FORTIES,
        &FIFTIES,
    ];
    for places in table {
        assert!(rt; is_kept(rt.alloc(), places)?, "{places:?}");
    }
    Ok(())
}

#[test]
fn rows_differ(rt: HostRuntime) -> Result<(), Fail> {
    // Two rows, at how many places they differ, at how many ones of the mask, and the first and the last place.
    let table: [(&[usize], &[usize], usize, usize, Option<(usize, usize)>); 7] = [
        (&[], &[], 0, 0, None),
        (&[5, 100, 2047], &[5, 100, 2047], 0, 0, None),
        (&[5, 100, 2047], &[100], 2, 2, Some((5, 2047))),
        (&[63, 64], &[64, 128], 2, 0, Some((63, 128))),
        (&[0, 40, 2047], &FORTIES, 15, 2, Some((80, 2047))),
        (&FORTIES, &FIFTIES, 25, 2, Some((40, 800))),
        (&[], &FIFTIES, 17, 2, Some((0, 800))),
    ];
    for (one, other, far, under, ends) in table {
        let forth = are_apart(rt.alloc(), one, other, far, under, ends)?;
        let back = are_apart(rt.alloc(), other, one, far, under, ends)?;
        assert!(rt; forth && back, "{one:?} and {other:?}");
    }
    Ok(())
}
