//! Rows of one width in a block of words, one after the other.
ghost use Rattle.std.specs.Prelude.{◌≡◌, ◌≢◌, ◌<◌, ◌≤◌, ◌+◌, ◌-◌, ◌*◌, ◌++◌, ℕ, length, take, drop, replicate, bit_or, vec_capacity, OnOk, IfOk};
ghost use Rattle.std.specs.Simd.Lanes.{put_chunk, zip2};
ghost use Rattle.cb_pool.specs.Pool.{row_at};
ghost use Rattle.cb_pool.specs.Kept.{ClearsRow};

use cb_lanes::or_into;
use std::alloc::{AllocError, Global};

/// Reserves capacity for `rows` rows.
pub(crate) fn reserve_rows(
    words: &mut Vec<u64>,
    width: usize,
    rows: usize,
) -> Result<(), AllocError>
    ensures words { words.new.items ≡ words.old.items }
    ensures more { vec_capacity words.old ≤ vec_capacity words.new }
    ensures capacity { OnOk result (width * rows ≤ vec_capacity words.new) }
{
    let Some(size) = width.checked_mul(rows) else {
        return Err(AllocError);
    };
    words.reserve(size.saturating_sub(words.len()))
}

/// The words of a row.
pub(crate) fn row_in(words: &[u64], width: usize, i: usize) -> &[u64]
    requires { width * i + width ≤ length words.now }
    ensures row { result.now ≡ row_at width words.now i }
    ensures width { length result.now ≡ width }
{
    let start = width * i;
    &words[start..start + width]
}

/// Makes the words of a row zero.
pub(crate) fn wipe_row(words: &mut [u64], width: usize, i: usize)
    requires { width * i + width ≤ length words.old }
    ensures { ClearsRow width words.old words.new i }
{
    let start = width * i;
    wipe(&mut words[start..start + width]);
}

// Makes all words zero.
fn wipe(words: &mut [u64])
    ensures { words.new ≡ replicate (length words.old) 0 }
{
    words.fill(0);
}

/// Makes one in a row what is one in another row.
pub(crate) fn unite_rows(words: &mut [u64], width: usize, into: usize, from: usize)
    requires apart { into ≢ from }
    requires into { width * into + width ≤ length words.old }
    requires from { width * from + width ≤ length words.old }
    ensures { words.new ≡ put_chunk (width * into) words.old (zip2 bit_or (row_at width words.old into) (row_at width words.old from)) }
{
    if into < from {
        unite_with_later(words, width, width * into, width * from);
    } else {
        unite_with_earlier(words, width, width * from, width * into);
    }
}

// The words at a position, united with those at a later one.
fn unite_with_later(words: &mut [u64], width: usize, at: usize, later: usize)
    requires apart { at + width ≤ later }
    requires within { later + width ≤ length words.old }
    ensures { words.new ≡ put_chunk at words.old (zip2 bit_or (take width (drop at words.old)) (take width (drop later words.old))) }
{
    let (front, back) = words.split_at_mut(later);
    or_into(&mut front[at..at + width], &back[..width]);
}

// The words at a later position, united with those at an earlier one.
fn unite_with_earlier(words: &mut [u64], width: usize, at: usize, later: usize)
    requires apart { at + width ≤ later }
    requires within { later + width ≤ length words.old }
    ensures { words.new ≡ put_chunk later words.old (zip2 bit_or (take width (drop later words.old)) (take width (drop at words.old))) }
{
    let (front, back) = words.split_at_mut(later);
    or_into(&mut back[..width], &front[at..at + width]);
}

/// Adds a row of zeros, for which there is capacity.
pub(crate) fn add_row(words: &mut Vec<u64>, width: usize, i: usize)
    requires after { length words.old.items ≡ width * i }
    requires capacity { width * i + width ≤ vec_capacity words.old }
    ensures clears { ClearsRow width words.old.items words.new.items i }
    ensures words { length words.new.items ≡ width * i + width }
    ensures capacity { vec_capacity words.old ≤ vec_capacity words.new }
{
    words.resize(words.len() + width, 0).unwrap();
}

/// The rows with zeros after each, in a block with capacity for more.
pub(crate) fn widened(
    alloc: Global,
    words: &[u64],
    width: usize,
    wider: usize,
    rows: usize,
    capacity: usize,
) -> Result<Vec<u64>, AllocError>
    requires block { length words.now ≡ width * rows }
    requires wider { width ≤ wider }
    requires fits { rows ≤ capacity }
    ensures words { IfOk result (λ made. length made.items ≡ wider * rows) }
    ensures capacity { IfOk result (λ made. wider * capacity ≤ vec_capacity made) }
    ensures rows { IfOk result (λ made. (i : ℕ) → i < rows → row_at wider made.items i ≡ row_at width words.now i ++ replicate (wider - width) 0) }
{
    let mut made = Vec::new(alloc);
    reserve_rows(&mut made, wider, capacity)?;
    for i in 0..rows {
        add_wider(&mut made, row_in(words, width, i), wider, i);
    }
    Ok(made)
}

// Adds a row with zeros after it, for which there is capacity.
fn add_wider(made: &mut Vec<u64>, row: &[u64], wider: usize, i: usize)
    requires after { length made.old.items ≡ wider * i }
    requires capacity { wider * i + wider ≤ vec_capacity made.old }
    requires wider { length row.now ≤ wider }
    ensures words { made.new.items ≡ made.old.items ++ row.now ++ replicate (wider - length row.now) 0 }
    ensures capacity { vec_capacity made.old ≤ vec_capacity made.new }
{
    let end = made.len() + wider;
    made.extend_from_slice(row).unwrap();
    made.resize(end, 0).unwrap();
}
