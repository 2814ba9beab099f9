//! Pairs that wait at columns, and move to earlier ones.
ghost use Rattle.std.specs.Prelude.{◌≡◌, ◌<◌, ◌≤◌, ◌^◌, [], false, length, IsTrue, OnOk};
ghost use Rattle.std.specs.List.{Contains};
ghost use Rattle.cb_coding.specs.Distance.{HaveWidth};
ghost use Rattle.cb_coding.specs.Needs.{need_of};
ghost use Rattle.cb_coding.specs.Pairs.{IsPair};
ghost use Rattle.cb_reduce.specs.Places.{kept_of};
ghost use Rattle.cb_reduce.specs.declared.moves.Waiter.{Waiter as W};
ghost use Rattle.cb_reduce.specs.Moves.{IsSafe, SomeAreClose, IsHeld, Grows, ArePairs, AreSafe, IsNeeded, IsIdle, Decides};

use crate::need::need;
use crate::place::{WaitingPlace, differ_often, first_place, place_of};
use cb_bits::Row;
use cb_codes::Codes;
use cb_model::{List, Wish};
use std::alloc::AllocError;

/// Two codes by their positions, the lesser first.
#[derive(Clone, Copy)]
pub struct Waiter {
    pub first: u16,
    pub second: u16,
}

/// Lets a pair wait at its position before a column.
pub(crate) fn wait(
    codes: &Codes,
    pair: Waiter,
    kept: &Row,
    before: usize,
    distance: u32,
    waiting: &mut Vec<List<Waiter>>,
) -> Result<(), AllocError>
    requires have_width { HaveWidth (length kept.now) codes.now.rows }
    requires pair { IsPair codes.now.rows pair.first pair.second }
    requires within { before ≤ length kept.now }
    requires safe { IsSafe codes.now.rows (kept_of kept.now) distance before pair.first pair.second }
    requires lists { length waiting.old.items ≡ length kept.now }
    ensures grows { OnOk result (Grows codes.now.rows waiting.old.items waiting.new.items) }
    ensures held { OnOk result (IsHeld codes.now.rows (kept_of kept.now) distance waiting.new.items before pair.first pair.second) }
{
    let a = codes.row(pair.first as usize);
    let b = codes.row(pair.second as usize);
    match place_of(a, b, kept, before, distance) {
        WaitingPlace::Nowhere => Ok(()),
        WaitingPlace::At(column) => {
            waiting[column].push(pair)?;
            Ok(())
        }
        WaitingPlace::Close => Ok(()),
    }
}

/// Lets a pair wait at its position among all columns, as long as none is kept.
pub(crate) fn wait_first(
    codes: &Codes,
    pair: Waiter,
    width: usize,
    distance: u32,
    waiting: &mut Vec<List<Waiter>>,
) -> Result<(), AllocError>
    requires have_width { HaveWidth width codes.now.rows }
    requires pair { IsPair codes.now.rows pair.first pair.second }
    requires safe { IsSafe codes.now.rows [] distance width pair.first pair.second }
    requires lists { length waiting.old.items ≡ width }
    ensures grows { OnOk result (Grows codes.now.rows waiting.old.items waiting.new.items) }
    ensures held { OnOk result (IsHeld codes.now.rows [] distance waiting.new.items width pair.first pair.second) }
{
    let a = codes.row(pair.first as usize);
    let b = codes.row(pair.second as usize);
    match first_place(a, b, width, distance) {
        WaitingPlace::Nowhere => Ok(()),
        WaitingPlace::At(column) => {
            waiting[column].push(pair)?;
            Ok(())
        }
        WaitingPlace::Close => Ok(()),
    }
}

// Whether some of these pairs are too close with the columns before one and the kept ones.
fn are_close(codes: &Codes, wish: Wish, pairs: &List<Waiter>, kept: &Row, column: usize) -> bool
    requires have_width { HaveWidth (length kept.now) codes.now.rows }
    requires pairs { ArePairs codes.now.rows pairs.now }
    requires within { column ≤ length kept.now }
    ensures close { IsTrue result → SomeAreClose codes.now.rows (kept_of kept.now) (need_of codes.now.width codes.now.rows wish) column }
    ensures far { result ≡ false → AreSafe codes.now.rows (kept_of kept.now) (need_of codes.now.width codes.now.rows wish) column pairs.now }
{
    for pair in pairs.as_slice() {
        let distance = need(codes, wish, pair.first as usize, pair.second as usize);
        if is_close(codes, *pair, kept, column, distance) {
            return true;
        }
    }
    false
}

// Whether a pair is too close with the columns before one and the kept ones. The kept ones aren't looked at where the others
// suffice.
fn is_close(codes: &Codes, pair: Waiter, kept: &Row, column: usize, distance: u32) -> bool
    requires have_width { HaveWidth (length kept.now) codes.now.rows }
    requires pair { IsPair codes.now.rows pair.first pair.second }
    requires within { column ≤ length kept.now }
    ensures close { IsTrue result → ¬ IsSafe codes.now.rows (kept_of kept.now) distance column pair.first pair.second }
    ensures far { result ≡ false → IsSafe codes.now.rows (kept_of kept.now) distance column pair.first pair.second }
{
    let a = codes.row(pair.first as usize);
    let b = codes.row(pair.second as usize);
    if differ_often(a, b, column, distance) {
        return false;
    }
    matches!(place_of(a, b, kept, column, distance), WaitingPlace::Close)
}

// Whether a column is forced, or some of these pairs are too close without it.
fn is_needed(
    codes: &Codes,
    wish: Wish,
    pairs: &List<Waiter>,
    forced: &Row,
    kept: &Row,
    column: usize,
) -> bool
    requires have_width { HaveWidth (length kept.now) codes.now.rows }
    requires pairs { ArePairs codes.now.rows pairs.now }
    requires forced { length forced.now ≡ length kept.now }
    requires within { column < length kept.now }
    ensures needed { IsTrue result → IsNeeded codes.now.rows (kept_of kept.now) (need_of codes.now.width codes.now.rows wish) forced.now column }
    ensures idle { result ≡ false → IsIdle codes.now.rows (kept_of kept.now) (need_of codes.now.width codes.now.rows wish) forced.now column pairs.now }
{
    if forced.get(column) {
        return true;
    }
    are_close(codes, wish, pairs, kept, column)
}

/// Keeps a column where it is forced, or some of these pairs are too close without it.
pub(crate) fn decide(
    codes: &Codes,
    wish: Wish,
    pairs: &List<Waiter>,
    forced: &Row,
    kept: &mut Row,
    column: usize,
)
    requires have_width { HaveWidth (length kept.old) codes.now.rows }
    requires pairs { ArePairs codes.now.rows pairs.now }
    requires forced { length forced.now ≡ length kept.old }
    requires within { column < length kept.old }
    ensures { Decides codes.now.rows (need_of codes.now.width codes.now.rows wish) forced.now column pairs.now kept.old kept.new }
{
    if is_needed(codes, wish, pairs, forced, kept, column) {
        kept.set(column);
    }
}

/// Lets pairs that waited at a column wait at their positions before it.
pub(crate) fn move_on(
    codes: &Codes,
    wish: Wish,
    pairs: &List<Waiter>,
    kept: &Row,
    column: usize,
    waiting: &mut Vec<List<Waiter>>,
) -> Result<(), AllocError>
    requires have_width { HaveWidth (length kept.now) codes.now.rows }
    requires pairs { ArePairs codes.now.rows pairs.now }
    requires far { AreSafe codes.now.rows (kept_of kept.now) (need_of codes.now.width codes.now.rows wish) column pairs.now }
    requires within { column ≤ length kept.now }
    requires lists { length waiting.old.items ≡ length kept.now }
    ensures grows { OnOk result (Grows codes.now.rows waiting.old.items waiting.new.items) }
    ensures held { OnOk result ((pair : W) → Contains pairs.now pair
        → IsHeld codes.now.rows (kept_of kept.now) (need_of codes.now.width codes.now.rows wish pair.first pair.second) waiting.new.items column pair.first pair.second) }
{
    for pair in pairs.as_slice() {
        let distance = need(codes, wish, pair.first as usize, pair.second as usize);
        wait(codes, *pair, kept, column, distance, waiting)?;
    }
    Ok(())
}
