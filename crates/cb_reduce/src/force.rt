//! Columns that each choice keeps, since two codes need to be as far apart as they are.
ghost use Rattle.std.specs.Prelude.{◌≡◌, ◌<◌, ◌≤◌, ℕ, length, IsTrue, OnOk};
ghost use Rattle.cb_coding.specs.Distance.{distance as distance_of, all_columns, HaveWidth, apart};
ghost use Rattle.cb_coding.specs.Needs.{need_of};
ghost use Rattle.cb_coding.specs.Pairs.{IsPair};
ghost use Rattle.cb_reduce.specs.Forced.{Forces, MarksOnly, MarksApart};
ghost use Rattle.cb_reduce.specs.Places.{kept_of};

use crate::need::number_of;
use cb_bits::Row;
use cb_codes::Codes;
use cb_compact::CompactRow;
use cb_model::Wish;
use std::alloc::{AllocError, Global};

// Up to this number of differences each is looked up by itself; if there are more, all columns of both codes are looked at.
const FEW: usize = 8;

/// Marks the columns that are forced by a code and one that has a column less, and by the first code and another: such pairs are often close.
pub(crate) fn force_near(
    alloc: Global,
    codes: &Codes,
    wish: Wish,
    forced: &mut Row,
) -> Result<(), AllocError>
    requires have_width { HaveWidth (length forced.old) codes.now.rows }
    requires wide { length forced.old ≡ codes.now.width }
    ensures { OnOk result (Forces codes.now.width codes.now.rows (need_of codes.now.width codes.now.rows wish) forced.old forced.new) }
{
    let lasts = last_of_each_weight(alloc, codes)?;
    for place in 0..codes.len() {
        let lighter = last_lighter(&lasts, codes.row(place));
        force_two(codes, lighter, place, wish, forced);
        force_two(codes, 0, place, wish, forced);
    }
    Ok(())
}

// For each number of columns below the width, the last code with that number of columns; or the first code, if there is none.
fn last_of_each_weight(alloc: Global, codes: &Codes) -> Result<Vec<usize>, AllocError> {
    let mut lasts = Vec::new(alloc);
    for _ in 0..codes.width() {
        lasts.push(0)?;
    }
    note_weights(codes, &mut lasts);
    Ok(lasts)
}

// Notes each code at its number of columns.
fn note_weights(codes: &Codes, lasts: &mut Vec<usize>) {
    for place in 0..codes.len() {
        let weight = codes.row(place).ones();
        if weight < lasts.len() {
            lasts[weight] = place;
        }
    }
}

// The last code that has one column less, or the first code.
fn last_lighter(lasts: &Vec<usize>, code: &CompactRow) -> usize {
    let weight = code.ones();
    if weight == 0 || lasts.len() < weight {
        return 0;
    }
    lasts[weight - 1]
}

// Marks the columns that are forced by the codes at two positions, where these are two.
fn force_two(codes: &Codes, one: usize, other: usize, wish: Wish, forced: &mut Row)
    requires have_width { HaveWidth (length forced.old) codes.now.rows }
    requires wide { length forced.old ≡ codes.now.width }
    ensures { Forces codes.now.width codes.now.rows (need_of codes.now.width codes.now.rows wish) forced.old forced.new }
{
    let first = one.min(other);
    let second = one.max(other);
    if first < second && second < codes.len() {
        force_pair(codes, first, second, wish, forced);
    }
}

// Marks the columns at which two codes differ, where they are no farther apart than the number of a wish.
fn force_pair(codes: &Codes, first: usize, second: usize, wish: Wish, forced: &mut Row)
    requires have_width { HaveWidth (length forced.old) codes.now.rows }
    requires wide { length forced.old ≡ codes.now.width }
    requires pair { IsPair codes.now.rows first second }
    ensures { Forces codes.now.width codes.now.rows (need_of codes.now.width codes.now.rows wish) forced.old forced.new }
{
    let most = number_of(wish) as usize;
    if let Some(distance) = codes.distance_below(first, second, most + 1) {
        force_apart(codes, first, second, distance, forced);
    }
}

/// Marks the columns at which two codes differ, where some of them aren't marked yet. The distance is their number.
pub(crate) fn force_apart(
    codes: &Codes,
    first: usize,
    second: usize,
    distance: usize,
    forced: &mut Row,
)
    requires have_width { HaveWidth (length forced.old) codes.now.rows }
    requires first { first < length codes.now.rows }
    requires second { second < length codes.now.rows }
    requires distance { distance ≡ apart (all_columns (length forced.old)) codes.now.rows first second }
    ensures marks { MarksApart codes.now.rows first second forced.old forced.new }
    ensures enough { distance ≤ apart (kept_of forced.new) codes.now.rows first second }
{
    let a = codes.row(first);
    let b = codes.row(second);
    if let None = a.distance_under_below(b, forced, distance) {
        return;
    }
    if distance <= FEW {
        mark_differing(codes, first, second, distance, forced);
        return;
    }
    mark_alone(a, b, forced);
    mark_alone(b, a, forced);
}

// Marks the columns at which two codes differ, one after the other.
fn mark_differing(codes: &Codes, first: usize, second: usize, distance: usize, forced: &mut Row)
    requires have_width { HaveWidth (length forced.old) codes.now.rows }
    requires first { first < length codes.now.rows }
    requires second { second < length codes.now.rows }
    requires distance { distance ≡ apart (all_columns (length forced.old)) codes.now.rows first second }
    ensures marks { MarksApart codes.now.rows first second forced.old forced.new }
    ensures enough { distance ≤ apart (kept_of forced.new) codes.now.rows first second }
{
    let a = codes.row(first);
    let b = codes.row(second);
    let width = forced.len();
    for before in 0..distance {
        if let Some(column) = a.nth_differing(b, width, before + 1) {
            forced.set(column);
        }
    }
}

/// Marks the columns of one code that another one lacks.
pub(crate) fn mark_alone(a: &CompactRow, b: &CompactRow, marked: &mut Row)
    requires a { length a.now ≡ length marked.old }
    requires b { length b.now ≡ length marked.old }
    ensures { MarksOnly a.now b.now marked.old marked.new }
{
    // A length fits its type, and so does the position after a column.
    let _width = a.len();
    let mut from = 0;
    while let Some(column) = a.next_one(from) {
        if !b.get(column) {
            marked.set(column);
        }
        from = column + 1;
    }
}

/// Whether each code is as far from the first one over the marked columns as over all. Then any two codes are.
pub(crate) fn are_told(codes: &Codes, marked: &Row) -> bool
    requires have_width { HaveWidth (length marked.now) codes.now.rows }
    requires wide { length marked.now ≡ codes.now.width }
    ensures { IsTrue result → (i : ℕ) → i < length codes.now.rows → apart (all_columns codes.now.width) codes.now.rows 0 i ≤ apart (kept_of marked.now) codes.now.rows 0 i }
{
    for place in 0..codes.len() {
        if !is_told(codes, place, marked) {
            return false;
        }
    }
    true
}

// Whether a code is as far from the first one over the marked columns as over all.
fn is_told(codes: &Codes, place: usize, marked: &Row) -> bool
    requires have_width { HaveWidth (length marked.now) codes.now.rows }
    requires wide { length marked.now ≡ codes.now.width }
    requires within { place < length codes.now.rows }
    ensures { IsTrue result → apart (all_columns codes.now.width) codes.now.rows 0 place ≤ apart (kept_of marked.now) codes.now.rows 0 place }
{
    let Some(distance) = codes.distance_below(0, place, usize::MAX) else {
        return false;
    };
    let first = codes.row(0);
    match first.distance_under_below(codes.row(place), marked, distance) {
        Some(_) => false,
        None => true,
    }
}
