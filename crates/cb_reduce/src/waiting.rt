//! Which pairs wait at first, and which columns are forced.
ghost use Rattle.std.specs.Prelude.{◌≡◌, ◌⊎◌, ◌<◌, ◌≤◌, ◌^◌, ℕ, [], true, false, length, replicate, IfOk, OnOk, IsTrue};
ghost use Rattle.cb_coding.specs.Distance.{bit, HaveWidth};
ghost use Rattle.cb_coding.specs.Needs.{need_of, capped_need};
ghost use Rattle.cb_coding.specs.Pairs.{IsPair};
ghost use Rattle.cb_reduce.specs.Pairs.{MayBeClose, MustWait};
ghost use Rattle.cb_reduce.specs.Forced.{Forces};
ghost use Rattle.cb_reduce.specs.Moves.{MayWait, IsCovered, Grows};
ghost use Rattle.cb_reduce.specs.Places.{kept_of};

use crate::force::{are_told, force_apart, force_near};
use crate::marked::mark_sharing;
use crate::moves::{Waiter, wait_first};
use cb_bits::Row;
use cb_codes::Codes;
use cb_model::{List, Wish};
use std::alloc::{AllocError, Global};

/// Lets all pairs wait while no column is kept, but for those that the forced columns are known to keep apart; it gives the forced columns.
/// After a zero code, the pairs with it and those that share a column suffice. Where close pairs force all columns that tell codes apart, none
/// waits.
pub(crate) fn wait_all(
    alloc: Global,
    codes: &Codes,
    quiet: bool,
    width: usize,
    wish: Wish,
    waiting: &mut Vec<List<Waiter>>,
) -> Result<Row, AllocError>
    requires may { MayWait width codes.now.rows (need_of codes.now.width codes.now.rows wish) }
    requires wide { width ≡ codes.now.width }
    requires lists { length waiting.old.items ≡ width }
    ensures forces { IfOk result (Forces codes.now.width codes.now.rows (need_of codes.now.width codes.now.rows wish) (replicate width false)) }
    ensures grows { OnOk result (Grows codes.now.rows waiting.old.items waiting.new.items) }
    ensures held { IfOk result (λ forced. (i j : ℕ) → IsPair codes.now.rows i j → MustWait quiet codes.now.rows i j
        → IsCovered codes.now.rows (kept_of forced) [] (need_of codes.now.width codes.now.rows wish i j) waiting.new.items width i j) }
{
    let mut forced = Row::zeroed(alloc, width)?;
    force_near(alloc, codes, wish, &mut forced)?;
    if are_told(codes, &forced) {
        return Ok(forced);
    }
    wait_each(alloc, codes, quiet, width, wish, &mut forced, waiting)?;
    Ok(forced)
}

// Lets the pairs of each code with those before it wait.
fn wait_each(
    alloc: Global,
    codes: &Codes,
    quiet: bool,
    width: usize,
    wish: Wish,
    forced: &mut Row,
    waiting: &mut Vec<List<Waiter>>,
) -> Result<(), AllocError>
    requires may { MayWait width codes.now.rows (need_of codes.now.width codes.now.rows wish) }
    requires wide { width ≡ codes.now.width }
    requires forced { length forced.old ≡ width }
    requires lists { length waiting.old.items ≡ width }
    ensures forces { OnOk result (Forces codes.now.width codes.now.rows (need_of codes.now.width codes.now.rows wish) forced.old forced.new) }
    ensures grows { OnOk result (Grows codes.now.rows waiting.old.items waiting.new.items) }
    ensures held { OnOk result ((i j : ℕ) → IsPair codes.now.rows i j → MustWait quiet codes.now.rows i j
        → IsCovered codes.now.rows (kept_of forced.new) [] (need_of codes.now.width codes.now.rows wish i j) waiting.new.items width i j) }
{
    let mut marked = Row::zeroed(alloc, codes.len())?;
    for second in 0..codes.len() {
        wait_for(
            codes,
            quiet,
            second,
            width,
            wish,
            &mut marked,
            forced,
            waiting,
        )?;
    }
    Ok(())
}

// Lets the pairs of a code with those before it wait. `marked` has a position for each code.
fn wait_for(
    codes: &Codes,
    quiet: bool,
    second: usize,
    width: usize,
    wish: Wish,
    marked: &mut Row,
    forced: &mut Row,
    waiting: &mut Vec<List<Waiter>>,
) -> Result<(), AllocError>
    requires may { MayWait width codes.now.rows (need_of codes.now.width codes.now.rows wish) }
    requires wide { width ≡ codes.now.width }
    requires forced { length forced.old ≡ width }
    requires within { second < length codes.now.rows }
    requires long { length marked.old ≡ length codes.now.rows }
    requires lists { length waiting.old.items ≡ width }
    ensures long { length marked.new ≡ length marked.old }
    ensures forces { OnOk result (Forces codes.now.width codes.now.rows (need_of codes.now.width codes.now.rows wish) forced.old forced.new) }
    ensures grows { OnOk result (Grows codes.now.rows waiting.old.items waiting.new.items) }
    ensures held { OnOk result ((i : ℕ) → i < second → MustWait quiet codes.now.rows i second
        → IsCovered codes.now.rows (kept_of forced.new) [] (need_of codes.now.width codes.now.rows wish i second) waiting.new.items width i second) }
{
    if quiet && mark_counting(codes, second, marked) {
        wait_with_marked(codes, second, marked, width, wish, forced, waiting)
    } else {
        wait_with_earlier(codes, second, width, wish, forced, waiting)
    }
}

/// Marks the first code and those that share a column with one. It answers false where it is quicker to look at all codes.
pub(crate) fn mark_counting(codes: &Codes, place: usize, marked: &mut Row) -> bool
    requires within { place < length codes.now.rows }
    requires long { length marked.old ≡ length codes.now.rows }
    ensures long { length marked.new ≡ length marked.old }
    ensures counting { IsTrue result → (i : ℕ) → i < length codes.now.rows → MayBeClose codes.now.rows i place → bit marked.new i ≡ true }
{
    marked.wipe();
    marked.set(0);
    mark_sharing(codes, codes.row(place), marked)
}

// Lets the pairs of the second code and the marked codes before it wait.
fn wait_with_marked(
    codes: &Codes,
    second: usize,
    marked: &Row,
    width: usize,
    wish: Wish,
    forced: &mut Row,
    waiting: &mut Vec<List<Waiter>>,
) -> Result<(), AllocError>
    requires may { MayWait width codes.now.rows (need_of codes.now.width codes.now.rows wish) }
    requires wide { width ≡ codes.now.width }
    requires forced { length forced.old ≡ width }
    requires within { second < length codes.now.rows }
    requires lists { length waiting.old.items ≡ width }
    ensures forces { OnOk result (Forces codes.now.width codes.now.rows (need_of codes.now.width codes.now.rows wish) forced.old forced.new) }
    ensures grows { OnOk result (Grows codes.now.rows waiting.old.items waiting.new.items) }
    ensures held { OnOk result ((i : ℕ) → bit marked.now i ≡ true → i < second
        → IsCovered codes.now.rows (kept_of forced.new) [] (need_of codes.now.width codes.now.rows wish i second) waiting.new.items width i second) }
{
    // A length fits its type, and so does the position after a code.
    let _count = marked.len();
    let mut from = 0;
    while let Some(first) = marked.next_one(from) {
        wait_before(codes, first, second, width, wish, forced, waiting)?;
        from = first + 1;
    }
    Ok(())
}

// Lets the pairs of the second code and all codes before it wait.
fn wait_with_earlier(
    codes: &Codes,
    second: usize,
    width: usize,
    wish: Wish,
    forced: &mut Row,
    waiting: &mut Vec<List<Waiter>>,
) -> Result<(), AllocError>
    requires may { MayWait width codes.now.rows (need_of codes.now.width codes.now.rows wish) }
    requires wide { width ≡ codes.now.width }
    requires forced { length forced.old ≡ width }
    requires within { second < length codes.now.rows }
    requires lists { length waiting.old.items ≡ width }
    ensures forces { OnOk result (Forces codes.now.width codes.now.rows (need_of codes.now.width codes.now.rows wish) forced.old forced.new) }
    ensures grows { OnOk result (Grows codes.now.rows waiting.old.items waiting.new.items) }
    ensures held { OnOk result ((i : ℕ) → i < second
        → IsCovered codes.now.rows (kept_of forced.new) [] (need_of codes.now.width codes.now.rows wish i second) waiting.new.items width i second) }
{
    for first in 0..second {
        wait_before(codes, first, second, width, wish, forced, waiting)?;
    }
    Ok(())
}

// Lets a pair wait, where it is one: the lesser position comes first.
fn wait_before(
    codes: &Codes,
    first: usize,
    second: usize,
    width: usize,
    wish: Wish,
    forced: &mut Row,
    waiting: &mut Vec<List<Waiter>>,
) -> Result<(), AllocError>
    requires may { MayWait width codes.now.rows (need_of codes.now.width codes.now.rows wish) }
    requires wide { width ≡ codes.now.width }
    requires forced { length forced.old ≡ width }
    requires within { second < length codes.now.rows }
    requires lists { length waiting.old.items ≡ width }
    ensures forces { OnOk result (Forces codes.now.width codes.now.rows (need_of codes.now.width codes.now.rows wish) forced.old forced.new) }
    ensures grows { OnOk result (Grows codes.now.rows waiting.old.items waiting.new.items) }
    ensures held { OnOk result (first < second
        → IsCovered codes.now.rows (kept_of forced.new) [] (need_of codes.now.width codes.now.rows wish first second) waiting.new.items width first second) }
{
    if second <= first {
        return Ok(());
    }
    match wish {
        Wish::Plain(distance) => {
            let pair = Waiter {
                first: first as u16,
                second: second as u16,
            };
            wait_first(codes, pair, width, distance, waiting)
        }
        Wish::Cap(cap) => force_or_wait(codes, first, second, width, cap, forced, waiting),
    }
}

// Marks the columns at which two codes differ, where they are no farther apart than a cap. Else lets them wait, unless the marked ones are
// found to tell them that far apart.
fn force_or_wait(
    codes: &Codes,
    first: usize,
    second: usize,
    width: usize,
    cap: u32,
    forced: &mut Row,
    waiting: &mut Vec<List<Waiter>>,
) -> Result<(), AllocError>
    requires have_width { HaveWidth width codes.now.rows }
    requires wide { width ≡ codes.now.width }
    requires pair { IsPair codes.now.rows first second }
    requires places_fit { length codes.now.rows ≤ 2 ^ 16 }
    requires forced { length forced.old ≡ width }
    requires lists { length waiting.old.items ≡ width }
    ensures forces { OnOk result (Forces codes.now.width codes.now.rows (capped_need codes.now.width codes.now.rows cap) forced.old forced.new) }
    ensures grows { OnOk result (Grows codes.now.rows waiting.old.items waiting.new.items) }
    ensures held { OnOk result (IsCovered codes.now.rows (kept_of forced.new) [] (capped_need codes.now.width codes.now.rows cap first second)
        waiting.new.items width first second) }
{
    if let Some(distance) = codes.distance_below(first, second, cap as usize + 1) {
        force_apart(codes, first, second, distance, forced);
        return Ok(());
    }
    let a = codes.row(first);
    // Where codes have many columns, few of these are forced.
    if a.ones() <= width / 16 {
        if let None = a.distance_under_below(codes.row(second), forced, cap as usize) {
            return Ok(());
        }
    }
    let pair = Waiter {
        first: first as u16,
        second: second as u16,
    };
    wait_first(codes, pair, width, cap, waiting)
}
