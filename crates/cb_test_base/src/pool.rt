//! Rows that stay where they are while others come and go.
ghost use Rattle.std.specs.Prelude.{◌≡◌, ◌≢◌, ◌<◌};
ghost use Rattle.cb_pool.specs.Pool.{IsTaken};

use cb_pool::{RowPool, Slot};
use std::alloc::{AllocError, Global};
use std::test::Fail;

// Writes a word of a row.
fn put(pool: &mut RowPool, slot: Slot, place: usize, word: u64)
    requires taken { IsTaken pool.old slot }
    requires fits { place < pool.old.width }
    ensures taken { pool.new.taken ≡ pool.old.taken }
    ensures width { pool.new.width ≡ pool.old.width }
{
    pool.row_mut(slot)[place] = word;
}

// Whether two rows are kept apart through a widening, and a slot that was given back is zero when it is taken again.
fn rows_stay(alloc: Global) -> Result<bool, AllocError> {
    let mut pool = RowPool::new(alloc, 2);
    pool.reserve(2)?;
    let spare = pool.spare();
    let a = pool.take();
    let b = pool.take();
    let two_fewer = pool.spare() + 2 == spare;
    put(&mut pool, a, 0, 1 << 5);
    put(&mut pool, b, 1, 1 << 36);
    pool.widen(3)?;
    pool.give_back(a);
    let one_more = pool.spare() + 1 == spare;
    let c = pool.take();
    let rows = pool.row(c) == [0, 0, 0].as_slice() && pool.row(b) == [0, 1 << 36, 0].as_slice();
    Ok(two_fewer && one_more && rows && pool.spare() + 2 == spare)
}

// Whether a wider copy has the rows that are taken, and capacity for two more.
fn copy_has_rows(alloc: Global) -> Result<bool, AllocError> {
    let mut pool = RowPool::new(alloc, 1);
    pool.reserve(2)?;
    let a = pool.take();
    let b = pool.take();
    put(&mut pool, b, 0, 1 << 36);
    pool.give_back(a);
    let mut copy = pool.wider(alloc, 2, 2)?;
    let row = copy.row(b) == [1 << 36, 0].as_slice();
    let c = copy.take();
    Ok(row && copy.row(c) == [0, 0].as_slice() && copy.spare() >= 1)
}

// Whether a row has what another one has too once they are united, and the other one stays.
fn unites(pool: &mut RowPool, into: Slot, from: Slot) -> bool
    requires apart { into ≢ from }
    requires into { IsTaken pool.old into }
    requires from { IsTaken pool.old from }
    requires width { 1 < pool.old.width }
    ensures taken { pool.new.taken ≡ pool.old.taken }
    ensures width { pool.new.width ≡ pool.old.width }
{
    put(pool, into, 0, 5);
    put(pool, into, 1, 0);
    put(pool, from, 0, 6);
    put(pool, from, 1, 1 << 36);
    pool.unite(into, from);
    pool.row(into) == [7, 1 << 36].as_slice() && pool.row(from) == [6, 1 << 36].as_slice()
}

// Whether two rows are united, the first with the second and the second with the first.
fn both_unite(alloc: Global) -> Result<bool, AllocError> {
    let mut pool = RowPool::new(alloc, 2);
    pool.reserve(2)?;
    let a = pool.take();
    let b = pool.take();
    let first = unites(&mut pool, a, b);
    let second = unites(&mut pool, b, a);
    Ok(first && second)
}

#[test]
fn a_copy_is_wider(rt: HostRuntime) -> Result<(), Fail> {
    assert!(rt; copy_has_rows(rt.alloc())?);
    Ok(())
}

#[test]
fn a_slot_taken_again_is_zero(rt: HostRuntime) -> Result<(), Fail> {
    assert!(rt; rows_stay(rt.alloc())?);
    Ok(())
}

#[test]
fn a_row_is_united_with_another(rt: HostRuntime) -> Result<(), Fail> {
    assert!(rt; both_unite(rt.alloc())?);
    Ok(())
}
