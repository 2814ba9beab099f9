//! The columns that keep codes apart.
ghost use Rattle.std.specs.Prelude.{◌≡◌, ◌≤◌, ◌<◌, ◌^◌, ℕ, length, replicate, [], false, IsTrue, IfOk, IfSome, IfNone};
ghost use Rattle.cb_coding.specs.Distance.{all_columns, HaveWidth};
ghost use Rattle.cb_coding.specs.Needs.{capped_need, need_of};
ghost use Rattle.cb_coding.specs.Pairs.{IsPair, Good, GoodFor};
ghost use Rattle.cb_coding.specs.Books.{IsChoice, IsBook, IsCapBook, IsInUse};
ghost use Rattle.cb_reduce.specs.Forced.{Forces};
ghost use Rattle.cb_reduce.specs.Moves.{Grows, IsCovered};
ghost use Rattle.cb_reduce.specs.Pairs.{MustWait, StartsWithZero};
ghost use Rattle.cb_reduce.specs.Places.{kept_of};
ghost use Rattle.cb_reduce.specs.Reduced.{IsReduced};

use crate::least_pair::closest_from;
use crate::moves::{Waiter, decide, move_on};
use crate::need::asks_one;
use crate::sharing::starts_with_zero;
use crate::single::{are_shared_by_few, kept_alone};
use crate::waiting::wait_all;
use cb_bits::Row;
use cb_codes::Codes;
use cb_coding::{Book, CapBook, Pair};
use cb_distance::{first_close, radii};
use cb_model::{List, Wish};
use std::alloc::{AllocError, Global};
use std::mem::replace;

/// Why there is no book: the first pair that is too close, or out of memory.
#[derive(Clone, Copy, Debug)]
pub enum Refused {
    TooClose(Pair),
    NoMemory,
}

/// The book at a wanted distance. If two codes are closer over all columns, the first such pair is the error.
pub fn reduce(alloc: Global, codes: &Codes, wanted: u32) -> Result<Book, Refused>
    requires places_fit { length codes.now.rows ≤ 2 ^ 16 }
    requires columns_fit { codes.now.width ≤ 2 ^ 16 }
    ensures { IsReduced codes.now wanted result }
{
    if let Some(pair) = first_close(codes, wanted) {
        return Err(Refused::TooClose(pair));
    }
    match book_of_good(alloc, codes, codes.width(), wanted) {
        Ok(book) => Ok(book),
        Err(_) => Err(Refused::NoMemory),
    }
}

/// The book that is in use for a wanted distance: at that distance, or at the least distance of two codes where that is less.
pub fn book_in_use(alloc: Global, codes: &Codes, wanted: u32) -> Result<Book, AllocError>
    requires places_fit { length codes.now.rows ≤ 2 ^ 16 }
    requires columns_fit { codes.now.width ≤ 2 ^ 16 }
    ensures { IfOk result (IsInUse codes.now.width codes.now.rows wanted) }
{
    match first_close(codes, wanted) {
        Some(pair) => {
            let closest = closest_from(codes, pair);
            book_of_good(alloc, codes, codes.width(), closest.distance)
        }
        None => book_of_good(alloc, codes, codes.width(), wanted),
    }
}

/// The book for a cap, with the radius of each code. It is never refused.
pub fn reduce_cap(alloc: Global, codes: &Codes, cap: u32) -> Result<CapBook, AllocError>
    requires places_fit { length codes.now.rows ≤ 2 ^ 16 }
    requires columns_fit { codes.now.width ≤ 2 ^ 16 }
    ensures book { IfOk result (IsCapBook codes.now.width codes.now.rows) }
    ensures cap { IfOk result (λ book. book.cap ≡ cap) }
{
    let columns = choice_of(alloc, codes, codes.width(), Wish::Cap(cap))?;
    let radii = radii(alloc, codes, cap)?;
    Ok(CapBook {
        columns,
        cap,
        radii,
    })
}

// The book at a distance at which the codes are good.
fn book_of_good(
    alloc: Global,
    codes: &Codes,
    width: usize,
    distance: u32,
) -> Result<Book, AllocError>
    requires have_width { HaveWidth width codes.now.rows }
    requires wide { width ≡ codes.now.width }
    requires places_fit { length codes.now.rows ≤ 2 ^ 16 }
    requires columns_fit { width ≤ 2 ^ 16 }
    requires good { Good codes.now.rows (all_columns width) distance }
    ensures book { IfOk result (IsBook width codes.now.rows) }
    ensures distance { IfOk result (λ book. book.distance ≡ distance) }
{
    let columns = choice_of(alloc, codes, width, Wish::Plain(distance))?;
    Ok(Book { columns, distance })
}

// The columns that a wish keeps, where all columns together meet the wish.
fn choice_of(
    alloc: Global,
    codes: &Codes,
    width: usize,
    wish: Wish,
) -> Result<List<u32>, AllocError>
    requires have_width { HaveWidth width codes.now.rows }
    requires wide { width ≡ codes.now.width }
    requires places_fit { length codes.now.rows ≤ 2 ^ 16 }
    requires columns_fit { width ≤ 2 ^ 16 }
    requires good { GoodFor codes.now.rows (all_columns width) (need_of codes.now.width codes.now.rows wish) }
    ensures { IfOk result (IsChoice width codes.now.rows (need_of codes.now.width codes.now.rows wish)) }
{
    if asks_one(wish) {
        if let Some(columns) = choice_of_one(alloc, codes, width)? {
            return Ok(columns);
        }
    }
    let mut waiting = empty_lists(alloc, width)?;
    let quiet = starts_with_zero(codes);
    let forced = wait_all(alloc, codes, quiet, width, wish, &mut waiting)?;
    let kept = kept_mask(alloc, codes, width, wish, quiet, &forced, &mut waiting)?;
    columns_of(alloc, &kept)
}

// The columns that a cap of 1 keeps, found without pairs that wait; `None` where pairs that wait would be quicker.
fn choice_of_one(
    alloc: Global,
    codes: &Codes,
    width: usize,
) -> Result<Option<List<u32>>, AllocError>
    requires have_width { HaveWidth width codes.now.rows }
    requires wide { width ≡ codes.now.width }
    requires columns_fit { width ≤ 2 ^ 16 }
    ensures { IfOk result (λ made. IfSome made (IsChoice width codes.now.rows (capped_need width codes.now.rows 1))) }
{
    if !starts_with_zero(codes) {
        return Ok(None);
    }
    if !are_shared_by_few(codes) {
        return Ok(None);
    }
    let Some(kept) = kept_alone(alloc, codes, width)? else {
        return Ok(None);
    };
    Ok(Some(columns_of(alloc, &kept)?))
}

// The columns that a wish keeps, as a mask, from the pairs that wait and the columns that are forced before any column is kept.
fn kept_mask(
    alloc: Global,
    codes: &Codes,
    width: usize,
    wish: Wish,
    quiet: bool,
    forced: &Row,
    waiting: &mut Vec<List<Waiter>>,
) -> Result<Row, AllocError>
    requires have_width { HaveWidth width codes.now.rows }
    requires wide { width ≡ codes.now.width }
    requires good { GoodFor codes.now.rows (all_columns width) (need_of codes.now.width codes.now.rows wish) }
    requires quiet { IsTrue quiet → StartsWithZero codes.now.rows }
    requires forces { Forces codes.now.width codes.now.rows (need_of codes.now.width codes.now.rows wish) (replicate width false) forced.now }
    requires pairs { Grows codes.now.rows (replicate width []) waiting.old.items }
    requires held { (i j : ℕ) → IsPair codes.now.rows i j → MustWait quiet codes.now.rows i j
        → IsCovered codes.now.rows (kept_of forced.now) [] (need_of codes.now.width codes.now.rows wish i j) waiting.old.items width i j }
    ensures long { IfOk result (λ kept. length kept ≡ width) }
    ensures choice { IfOk result (λ kept. IsChoice width codes.now.rows (need_of codes.now.width codes.now.rows wish) (kept_of kept)) }
{
    let mut kept = Row::zeroed(alloc, width)?;
    for column in (0..width).rev() {
        let pairs = replace(&mut waiting[column], List::new(alloc));
        decide(codes, wish, &pairs, forced, &mut kept, column);
        move_on(codes, wish, &pairs, &kept, column, waiting)?;
    }
    Ok(kept)
}

// `count` empty lists.
fn empty_lists(alloc: Global, count: usize) -> Result<Vec<List<Waiter>>, AllocError>
    ensures { IfOk result (λ lists. lists.items ≡ replicate count []) }
{
    let mut lists = Vec::new(alloc);
    while lists.len() < count {
        lists.push(List::new(alloc))?;
    }
    Ok(lists)
}

// The columns that a mask keeps.
fn columns_of(alloc: Global, mask: &Row) -> Result<List<u32>, AllocError>
    requires { length mask.now < 2 ^ 32 }
    ensures { IfOk result (λ columns. columns ≡ kept_of mask.now) }
{
    let mut columns = List::new(alloc);
    for column in 0..mask.len() {
        if mask.get(column) {
            columns.push(column as u32)?;
        }
    }
    Ok(columns)
}
