//! Rows whose last word is full, empty, or neither.
use cb_bits::Row;
use std::alloc::{AllocError, Global};
use std::test::Fail;

// A row of `n` values, of which those at the places are true.
fn row_of(alloc: Global, n: usize, places: &[usize]) -> Result<Row, AllocError> {
    let mut row = Row::zeroed(alloc, n)?;
    for place in places {
        if *place < row.len() {
            row.set(*place);
        }
    }
    Ok(row)
}

#[test]
fn rows_of_many_lengths(rt: HostRuntime) -> Result<(), Fail> {
    // The length, the true values, how many words there are, and how many ones.
    let table: [(usize, &[usize], usize, usize); 6] = [
        (0, &[], 0, 0),
        (63, &[0, 62], 1, 2),
        (64, &[0, 63], 1, 2),
        (65, &[63, 64], 2, 2),
        (128, &[1, 64, 127], 2, 3),
        (130, &[0, 63, 64, 128, 129], 3, 5),
    ];
    for (n, places, words, ones) in table {
        let mut row = row_of(rt.alloc(), n, places)?;
        let mut other = row_of(rt.alloc(), n, &[63, 64])?;
        assert_eq!(rt; row.words().len(), words, "{n}");
        assert_eq!(rt; row.ones(), ones, "{n}");
        assert_eq!(rt; row.next_one(0), places.first().copied(), "{n}");
        if row.len() == other.len() {
            let apart = row.distance(&other);
            assert_eq!(rt; row.equal(&other), apart == 0, "{n}");
            other.or_from(&row);
        }
        if row.len() <= n + 65 {
            row.grow(n + 65)?;
        }
        assert!(rt; row.len() == n + 65 && row.ones() == ones, "{n}");
        if 0 < row.len() {
            row.clear(0);
            assert!(rt; !row.get(0), "{n}");
        }
        row.wipe();
        assert!(rt; row.len() == n + 65 && row.ones() == 0, "{n}");
    }
    Ok(())
}
