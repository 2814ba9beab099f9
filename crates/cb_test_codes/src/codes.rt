//! Codes as they were put in, and problems in the groups of their codes.
ghost use Rattle.std.specs.Prelude.{◌≡◌, length, IfOk};
ghost use Rattle.cb_codes.specs.Grouped.{FitsTogether};

use cb_bits::Row;
use cb_codes::{Codes, Grouping};
use cb_compact::CompactRow;
use cb_model::NodeName;
use std::alloc::{AllocError, Global};
use std::test::Fail;

// Whether two codes of three columns stand where they were put, and are known by the columns that they have.
fn rows_are_kept(alloc: Global) -> Result<bool, AllocError> {
    let mut codes = Codes::new(alloc, 3);
    codes.push(CompactRow::of(alloc, &Row::zeroed(alloc, 3)?)?)?;
    let mut row = Row::zeroed(alloc, 3)?;
    row.set(1);
    codes.push(CompactRow::of(alloc, &row)?)?;
    let unlisted = codes.holders(1).is_none();
    codes.list_holders(alloc);
    Ok(
        unlisted
            && codes.len() == 2
            && codes.width() == 3
            && !codes.row(0).get(1)
            && codes.row(1).get(1)
            && are_holders(&codes, 0, &[])
            && are_holders(&codes, 1, &[1])
            && codes.holders(3).is_none(),
    )
}

// Whether it is reported that just these codes have the column.
fn are_holders(codes: &Codes, column: usize, places: &[u32]) -> bool {
    match codes.holders(column) {
        Some(found) => found == places,
        None => false,
    }
}

#[test]
fn codes_stand_where_they_were_put(rt: HostRuntime) -> Result<(), Fail> {
    assert!(rt; rows_are_kept(rt.alloc())?);
    Ok(())
}

// Five problems in order, of which two have no symptom and two others have the same.
fn five_problems(alloc: Global) -> Result<Grouping, AllocError>
    ensures { IfOk result (FitsTogether 3) }
{
    let mut grouping = Grouping::of_quiet(alloc, 3)?;
    for (event, instance, code) in [
        (b"Down", b"a", "110"),
        (b"Heat", b"a", "000"),
        (b"Down", b"b", "011"),
        (b"Heat", b"b", "110"),
        (b"Down", b"c", "000"),
    ] {
        let name = NodeName::of(alloc, event, instance)?;
        let code = code_of(alloc, code)?;
        grouping.add(alloc, name, CompactRow::of(alloc, &code)?)?;
    }
    Ok(grouping)
}

// A code of three columns from its text.
fn code_of(alloc: Global, text: &str) -> Result<Row, AllocError>
    ensures { IfOk result (λ code. length code ≡ 3) }
{
    let mut code = Row::zeroed(alloc, 3)?;
    for column in 0..3 {
        if text.as_bytes().get(column) == Some(&b'1') {
            code.set(column);
        }
    }
    Ok(code)
}

#[test]
fn problems_of_one_code_are_one_group(rt: HostRuntime) -> Result<(), Fail> {
    let grouping = five_problems(rt.alloc())?;
    assert_eq!(rt; grouping.places.as_slice(), [1, 0, 2, 1, 0].as_slice());
    assert_eq!(rt; grouping.into_groups(rt.alloc()).len(), 3);
    Ok(())
}
