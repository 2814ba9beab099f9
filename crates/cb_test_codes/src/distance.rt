//! The first close pair over some columns, and radii, of worked codes.
use crate::reduce::codes_of;
use cb_coding::Pair;
use cb_distance::{first_short, radii};
use cb_model::Wish;
use std::test::Fail;

// Codes, columns, a distance, and the first two codes that are closer with how far they are.
type Case<'a> = (&'a [&'a str], &'a [u32], u32, Option<(u32, u32, u32)>);

#[test]
fn finds_the_first_close_pair(rt: HostRuntime) -> Result<(), Fail> {
    let all: &[u32] = &[0, 1, 2, 3, 4, 5];
    let worked: &[&str] = &["00000", "11100", "00111", "11011"];
    let cases: [Case; 9] = [
        (worked, all, 3, None),
        (worked, all, 4, Some((0, 1, 3))),
        (worked, &[4, 0, 9, 0], 3, Some((0, 1, 2))),
        (
            &["000000", "110000", "001100", "111000"],
            all,
            2,
            Some((1, 3, 1)),
        ),
        (
            &["000000", "111000", "000111", "101100"],
            all,
            3,
            Some((1, 3, 2)),
        ),
        (
            &["111000", "000111", "000100", "000010"],
            all,
            3,
            Some((1, 2, 2)),
        ),
        (
            &["11110", "11101", "11011", "10111"],
            all,
            3,
            Some((0, 1, 2)),
        ),
        (&["11110", "00001", "11101", "10"], all, 4, Some((0, 2, 2))),
        (&["1", "1"], &[], 0, None),
    ];
    for (texts, columns, distance, want) in cases {
        let codes = codes_of(rt.alloc(), 6, texts)?;
        assert!(rt; codes.len() <= 4);
        let found = first_short(rt.alloc(), &codes, columns, Wish::Plain(distance))?;
        let want = want.map(|(first, second, distance)| Pair {
            first,
            second,
            distance,
        });
        assert_eq!(rt; found, want);
    }
    Ok(())
}

// Codes, columns, a cap, the first two codes that are closer than they need with how far they are, and the radii.
type CapCase<'a> = (
    &'a [&'a str],
    &'a [u32],
    u32,
    Option<(u32, u32, u32)>,
    &'a [u32],
);

#[test]
fn finds_the_first_short_pair_and_radii(rt: HostRuntime) -> Result<(), Fail> {
    let all: &[u32] = &[0, 1, 2, 3];
    let worked: &[&str] = &["0000", "1110", "0001"];
    let cases: [CapCase; 7] = [
        (worked, all, 3, None, &[0, 1, 0]),
        (worked, &[0, 1, 3], 3, Some((0, 1, 2)), &[0, 1, 0]),
        (worked, &[0, 3], 1, None, &[0, 0, 0]),
        (worked, &[0, 1, 2], 9_999, Some((0, 2, 0)), &[0, 1, 0]),
        (&["0000"], &[], 7, None, &[3]),
        (&["0000", "1111"], &[0, 1, 2], 4, Some((0, 1, 3)), &[1, 1]),
        (&["0000", "1111"], &[0, 1, 2], 3, None, &[1, 1]),
    ];
    for (texts, columns, cap, want, tolerated) in cases {
        let codes = codes_of(rt.alloc(), 4, texts)?;
        assert!(rt; codes.len() <= 4);
        let found = first_short(rt.alloc(), &codes, columns, Wish::Cap(cap))?;
        let want = want.map(|(first, second, distance)| Pair {
            first,
            second,
            distance,
        });
        assert_eq!(rt; found, want);
        assert_eq!(rt; radii(rt.alloc(), &codes, cap)?.as_slice(), tolerated);
    }
    Ok(())
}
