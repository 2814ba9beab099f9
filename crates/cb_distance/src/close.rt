//! The first two codes that are closer to each other than is asked.
//!
//! A code that has none of k columns of another is at least k columns away from it. So, where at most d is asked, a code is compared with those
//! alone that have one of d of its columns, if few codes have these; and with all after it if it has fewer than d columns.
ghost use Rattle.std.specs.Prelude.{◌≡◌, ◌<◌, ◌≤◌, ◌^◌, ◌↔◌, ℕ, length, IfOk, IfSome, IfNone, IsTrue};
ghost use Rattle.std.specs.List.{All, Contains};
ghost use Rattle.cb_coding.specs.Distance.{all_columns};
ghost use Rattle.cb_coding.specs.Needs.{need_of};
ghost use Rattle.cb_coding.specs.Pairs.{plain_need, Good, GoodFor, IsFirstClose, IsFirstShort};
ghost use Rattle.cb_codes.specs.Holders.{holders_of};
ghost use Rattle.cb_distance.specs.Close.{far, AreNumbered, FarBefore, IsFirstShortIfAny, IsFirstCloseFrom, AreAllFar, IsFirstAfter, IsCloseOrEnd};
ghost use Rattle.cb_distance.specs.Asked.{need_by, AreNeedsFor, ShortFits};

use crate::chosen::chosen;
use crate::needs::Needs;
use cb_codes::Codes;
use cb_coding::Pair;
use cb_model::Wish;
use std::alloc::{AllocError, Global};

/// The first pair closer than wanted, by the first position and then the second; none where every two codes are as far
/// apart as wanted. It takes no memory.
pub fn first_close(codes: &Codes, wanted: u32) -> Option<Pair>
    requires { AreNumbered codes.now }
    ensures pair { IfSome result (IsFirstClose (all_columns codes.now.width) codes.now.rows wanted) }
    ensures none { IfNone result (Good codes.now.rows (all_columns codes.now.width) wanted) }
{
    first_close_from(codes, 0, wanted as usize)
}

/// As `first_close`, if all pairs whose first position is before `from` are as far apart as wanted.
pub fn first_close_from(codes: &Codes, from: usize, wanted: usize) -> Option<Pair>
    requires numbered { AreNumbered codes.now }
    requires before { FarBefore codes.now (plain_need wanted) from }
    ensures pair { IfSome result (IsFirstClose (all_columns codes.now.width) codes.now.rows wanted) }
    ensures none { IfNone result (Good codes.now.rows (all_columns codes.now.width) wanted) }
{
    // All codes have one width, so two that differ are one apart at least.
    let _width = codes.width();
    if wanted <= 1 && codes.differ() {
        return None;
    }
    first_pair(codes, from, &Needs::Plain(wanted))
}

/// The first two codes that are closer over these columns than the wish asks, and how far they are.
pub fn first_short(
    alloc: Global,
    codes: &Codes,
    columns: &[u32],
    wish: Wish,
) -> Result<Option<Pair>, AllocError>
    requires { length codes.now.rows < 2 ^ 32 }
    ensures { IfOk result (IsFirstShortIfAny columns.now codes.now.rows (need_of codes.now.width codes.now.rows wish)) }
{
    let chosen = chosen(alloc, codes, columns)?;
    Ok(first_pair(&chosen, 0, &Needs::of(codes, wish)))
}

// The first two codes that are closer than is asked, if the first of two such isn't before `from`.
fn first_pair(codes: &Codes, from: usize, needs: &Needs) -> Option<Pair>
    requires few { length codes.now.rows < 2 ^ 32 }
    requires needs { AreNeedsFor codes.now needs.now }
    requires fits { ShortFits codes.now (need_by needs.now) }
    requires before { FarBefore codes.now (need_by needs.now) from }
    ensures found { IfSome result (IsFirstShort (all_columns codes.now.width) codes.now.rows (need_by needs.now)) }
    ensures none { IfNone result (GoodFor codes.now.rows (all_columns codes.now.width) (need_by needs.now)) }
{
    for first in from..codes.len() {
        let second = first_after(codes, first, needs);
        if let Some(pair) = pair_of(codes, first, second, needs) {
            return Some(pair);
        }
    }
    None
}

// The two codes and how far they are apart, where there is a second and it is closer to the first than is asked.
fn pair_of(codes: &Codes, first: usize, second: usize, needs: &Needs) -> Option<Pair>
    requires needs { AreNeedsFor codes.now needs.now }
    requires few { length codes.now.rows < 2 ^ 32 }
    requires fits { ShortFits codes.now (need_by needs.now) }
    requires first { first < length codes.now.rows }
    requires second { IsFirstAfter codes.now first (need_by needs.now) second }
    ensures found { IfSome result (IsFirstCloseFrom codes.now first (need_by needs.now)) }
    ensures none { IfNone result (AreAllFar codes.now first (need_by needs.now) (length codes.now.rows)) }
{
    if codes.len() <= second {
        return None;
    }
    match needs.shortfall(codes, first, second) {
        Some(apart) => Some(Pair {
            first: first as u32,
            second: second as u32,
            distance: apart as u32,
        }),
        None => None,
    }
}

// The position of the first code after this one that is closer to it than is asked, or the end. A code that has none of the columns that were
// looked at is at least as far from this one as their number.
fn first_after(codes: &Codes, first: usize, needs: &Needs) -> usize
    requires needs { AreNeedsFor codes.now needs.now }
    requires first { first < length codes.now.rows }
    ensures { IsFirstAfter codes.now first (need_by needs.now) result }
{
    let code = codes.row(first);
    let most = needs.most();
    // A length fits its type, and so does the position after a column. All codes have one width.
    let _width = code.len();
    let _wide = codes.width();
    let mut end = codes.len();
    let mut looked = 0;
    let mut from = 0;
    while looked < most {
        let Some(column) = code.next_one(from) else {
            return close_after(codes, first, needs);
        };
        if let Some(places) = few_holders(codes, column, most) {
            end = close_among(codes, first, needs, places, end);
            looked += 1;
        }
        from = column + 1;
    }
    end
}

/// The codes that have a column, if such lists of `columns` columns together are no longer than the list of all codes.
pub(crate) fn few_holders(codes: &Codes, column: usize, columns: usize) -> Option<&[u32]>
    requires { 0 < columns }
    ensures { IfSome result (λ places. places.now ≡ holders_of codes.now.rows column) }
{
    match codes.holders(column) {
        Some(places) => {
            if places.len() <= codes.len() / columns {
                Some(places)
            } else {
                None
            }
        }
        None => None,
    }
}

// The first code before the end that stands at one of these positions, after this one, and is closer to it than is asked; or the end.
fn close_among(codes: &Codes, first: usize, needs: &Needs, places: &[u32], mut end: usize) -> usize
    requires needs { AreNeedsFor codes.now needs.now }
    requires first { first < length codes.now.rows }
    requires places { All (λ place. place < length codes.now.rows) places.now }
    requires end { IsCloseOrEnd codes.now first (need_by needs.now) end }
    ensures end { IsCloseOrEnd codes.now first (need_by needs.now) result }
    ensures before { result ≤ end }
    ensures far { (j : ℕ) → Contains places.now j → first < j → j < result → need_by needs.now first j ≤ far codes.now first j }
{
    for place in places {
        end = nearer_end(codes, first, needs, *place as usize, end);
    }
    end
}

// The second, where it stands after the first and before the end and is closer to it than is asked; else the end.
fn nearer_end(codes: &Codes, first: usize, needs: &Needs, second: usize, end: usize) -> usize
    requires needs { AreNeedsFor codes.now needs.now }
    requires first { first < length codes.now.rows }
    requires second { second < length codes.now.rows }
    requires end { IsCloseOrEnd codes.now first (need_by needs.now) end }
    ensures end { IsCloseOrEnd codes.now first (need_by needs.now) result }
    ensures before { result ≤ end }
    ensures far { first < second → second < result → need_by needs.now first second ≤ far codes.now first second }
{
    if first < second && second < end && are_close(codes, first, second, needs) {
        second
    } else {
        end
    }
}

// The first code after this one that is closer to it than is asked, or the end.
fn close_after(codes: &Codes, first: usize, needs: &Needs) -> usize
    requires needs { AreNeedsFor codes.now needs.now }
    requires first { first < length codes.now.rows }
    ensures { IsFirstAfter codes.now first (need_by needs.now) result }
{
    let end = codes.len();
    for second in first + 1..end {
        if are_close(codes, first, second, needs) {
            return second;
        }
    }
    end
}

// Whether two codes are closer than is asked.
fn are_close(codes: &Codes, first: usize, second: usize, needs: &Needs) -> bool
    requires needs { AreNeedsFor codes.now needs.now }
    requires first { first < length codes.now.rows }
    requires second { second < length codes.now.rows }
    ensures { IsTrue result ↔ (far codes.now first second < need_by needs.now first second) }
{
    needs.shortfall(codes, first, second).is_some()
}
