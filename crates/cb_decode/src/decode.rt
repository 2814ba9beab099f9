//! Decoding: the groups whose codes are nearest to a word.
ghost use Rattle.std.specs.Prelude.{◌≡◌, ◌↔◌, ◌≤◌, ◌<◌, ◌^◌, ℕ, length, IsTrue, IfOk, IfSome};
ghost use Rattle.std.specs.List.{All};
ghost use Rattle.cb_coding.specs.Answers.{IsAnswer, IsAnswerBy, from_word, radius as radius_of};
ghost use Rattle.cb_coding.specs.Radii.{radius_at};
ghost use Rattle.cb_decode.specs.Decoder.{IsDecoder, IsLeftOut};
ghost use Rattle.cb_decode.specs.Near.{SomeReaches};
ghost use Rattle.cb_reduce.specs.Measure.{AreMasked};

use crate::decoder::Decoder;
use crate::marked::may_be_nearest;
use crate::near::nearest_codes;
use cb_bits::Row;
use cb_codes::Codes;
use cb_coding::{Answer, Book, CapBook};
use cb_compact::CompactRow;
use cb_model::List;
use cb_reduce::mask_of;
use std::alloc::{AllocError, Global};

/// The answer for a word over the columns of a book. A code or a word that is too short says false past its end.
pub fn nearest(
    alloc: Global,
    codes: &Codes,
    book: &Book,
    word: &CompactRow,
) -> Result<Answer, AllocError>
    requires some { 0 < length codes.now.rows }
    requires places_fit { length codes.now.rows < 2 ^ 32 }
    requires columns_fit { length book.now.columns < 2 ^ 32 }
    ensures { IfOk result (IsAnswer book.now.columns codes.now.rows book.now.distance word.now) }
{
    let mask = mask_of(alloc, &book.columns, word.len())?;
    nearest_of(alloc, codes, book, &mask, word, 0, &None)
}

/// As `nearest`, by the decoder of the book, which compares only the lightest codes and those that share a column with the word,
/// if these are few.
pub fn nearest_by(
    alloc: Global,
    codes: &Codes,
    book: &Book,
    decoder: &Decoder,
    word: &CompactRow,
) -> Result<Answer, AllocError>
    requires some { 0 < length codes.now.rows }
    requires places_fit { length codes.now.rows < 2 ^ 32 }
    requires columns_fit { length book.now.columns < 2 ^ 32 }
    requires decoder { IsDecoder book.now.columns codes.now.rows decoder.now }
    ensures { IfOk result (IsAnswer book.now.columns codes.now.rows book.now.distance word.now) }
{
    let lightest = &decoder.lightest.places;
    let marked = may_be_nearest(alloc, codes, lightest, word)?;
    let first = *lightest.at(0) as usize;
    nearest_of(alloc, codes, book, &decoder.mask, word, first, &marked)
}

/// As `nearest`, with the mask of the book's columns, if they have one, if each code that is left out is farther than the one at `first`.
pub(crate) fn nearest_of(
    alloc: Global,
    codes: &Codes,
    book: &Book,
    mask: &Option<Row>,
    word: &CompactRow,
    first: usize,
    marked: &Option<Row>,
) -> Result<Answer, AllocError>
    requires first { first < length codes.now.rows }
    requires places_fit { length codes.now.rows < 2 ^ 32 }
    requires columns_fit { length book.now.columns < 2 ^ 32 }
    requires mask { AreMasked book.now.columns mask.now }
    requires long { IfSome marked.now (λ row. length row ≡ length codes.now.rows) }
    requires left_out { (i : ℕ) → i < length codes.now.rows → IsLeftOut marked.now i
        → from_word book.now.columns codes.now.rows word.now first < from_word book.now.columns codes.now.rows word.now i }
    ensures { IfOk result (IsAnswer book.now.columns codes.now.rows book.now.distance word.now) }
{
    let found = nearest_codes(alloc, codes, &book.columns, mask, word, first, marked)?;
    let sure = found.distance <= radius(book.distance);
    Ok(Answer {
        distance: found.distance,
        groups: found.places,
        sure,
    })
}

/// The answer for a word over the columns of a book where each code has a radius of its own.
pub fn nearest_cap(
    alloc: Global,
    codes: &Codes,
    book: &CapBook,
    word: &CompactRow,
) -> Result<Answer, AllocError>
    requires some { 0 < length codes.now.rows }
    requires places_fit { length codes.now.rows < 2 ^ 32 }
    requires columns_fit { length book.now.columns < 2 ^ 32 }
    requires radii { length book.now.radii ≡ length codes.now.rows }
    ensures { IfOk result (IsAnswerBy book.now.columns codes.now.rows (radius_at book.now.radii) word.now) }
{
    let mask = mask_of(alloc, &book.columns, word.len())?;
    nearest_cap_of(alloc, codes, book, &mask, word, 0, &None)
}

/// As `nearest_cap`, by the decoder of the book's columns.
pub fn nearest_cap_by(
    alloc: Global,
    codes: &Codes,
    book: &CapBook,
    decoder: &Decoder,
    word: &CompactRow,
) -> Result<Answer, AllocError>
    requires some { 0 < length codes.now.rows }
    requires places_fit { length codes.now.rows < 2 ^ 32 }
    requires columns_fit { length book.now.columns < 2 ^ 32 }
    requires radii { length book.now.radii ≡ length codes.now.rows }
    requires decoder { IsDecoder book.now.columns codes.now.rows decoder.now }
    ensures { IfOk result (IsAnswerBy book.now.columns codes.now.rows (radius_at book.now.radii) word.now) }
{
    let lightest = &decoder.lightest.places;
    let marked = may_be_nearest(alloc, codes, lightest, word)?;
    let first = *lightest.at(0) as usize;
    nearest_cap_of(alloc, codes, book, &decoder.mask, word, first, &marked)
}

// As `nearest_cap`, with the mask of the book's columns, if they have one, if each code that is left out is farther than the one at `first`.
fn nearest_cap_of(
    alloc: Global,
    codes: &Codes,
    book: &CapBook,
    mask: &Option<Row>,
    word: &CompactRow,
    first: usize,
    marked: &Option<Row>,
) -> Result<Answer, AllocError>
    requires first { first < length codes.now.rows }
    requires places_fit { length codes.now.rows < 2 ^ 32 }
    requires columns_fit { length book.now.columns < 2 ^ 32 }
    requires radii { length book.now.radii ≡ length codes.now.rows }
    requires mask { AreMasked book.now.columns mask.now }
    requires long { IfSome marked.now (λ row. length row ≡ length codes.now.rows) }
    requires left_out { (i : ℕ) → i < length codes.now.rows → IsLeftOut marked.now i
        → from_word book.now.columns codes.now.rows word.now first < from_word book.now.columns codes.now.rows word.now i }
    ensures { IfOk result (IsAnswerBy book.now.columns codes.now.rows (radius_at book.now.radii) word.now) }
{
    let found = nearest_codes(alloc, codes, &book.columns, mask, word, first, marked)?;
    let sure = some_reach(&book.radii, &found.places, found.distance);
    Ok(Answer {
        distance: found.distance,
        groups: found.places,
        sure,
    })
}

// Whether the radius of some of these codes is at least the distance.
fn some_reach(radii: &List<u32>, places: &List<u32>, distance: u32) -> bool
    requires { All (λ i. i < length radii.now) places.now }
    ensures { IsTrue result ↔ SomeReaches radii.now places.now distance }
{
    for place in places.as_slice() {
        if distance <= *radii.at(*place as usize) {
            return true;
        }
    }
    false
}

/// How many lost or spurious symptoms codes at a distance tolerate.
pub(crate) fn radius(distance: u32) -> u32
    ensures { result ≡ radius_of distance }
{
    distance.saturating_sub(1) / 2
}
