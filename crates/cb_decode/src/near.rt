//! The codes nearest to a word.
ghost use Rattle.std.specs.Prelude.{◌≡◌, ◌≤◌, ◌<◌, ◌^◌, ℕ, length, IfOk, IfSome, IfNone};
ghost use Rattle.cb_coding.specs.Answers.{from_word};
ghost use Rattle.cb_decode.specs.Decoder.{IsLeftOut, AreLeftOut};
ghost use Rattle.cb_decode.specs.Near.{AreNearest};
ghost use Rattle.cb_reduce.specs.Measure.{AreMasked};

use cb_bits::Row;
use cb_codes::Codes;
use cb_compact::CompactRow;
use cb_model::List;
use cb_reduce::distance_from;
use std::alloc::{AllocError, Global};

/// How far the nearest codes are from a word, and which they are, as rising positions.
#[derive(Drop)]
pub struct Nearest {
    pub distance: u32,
    pub places: List<u32>,
}

/// The codes nearest to a word over some columns, with their mask, if they have one, where each code that is left out is farther than the
/// code at `first`.
pub(crate) fn nearest_codes(
    alloc: Global,
    codes: &Codes,
    columns: &List<u32>,
    mask: &Option<Row>,
    word: &CompactRow,
    first: usize,
    marked: &Option<Row>,
) -> Result<Nearest, AllocError>
    requires first { first < length codes.now.rows }
    requires places_fit { length codes.now.rows < 2 ^ 32 }
    requires columns_fit { length columns.now < 2 ^ 32 }
    requires mask { AreMasked columns.now mask.now }
    requires long { IfSome marked.now (λ row. length row ≡ length codes.now.rows) }
    requires left_out { (i : ℕ) → i < length codes.now.rows → IsLeftOut marked.now i
        → from_word columns.now codes.now.rows word.now first < from_word columns.now codes.now.rows word.now i }
    ensures { IfOk result (AreNearest columns.now codes.now.rows word.now) }
{
    let mut least = distance_from(word, codes.row(first), columns, mask);
    let mut groups = Vec::new(alloc);
    let mut from = 0;
    while let Some(i) = next_of(marked, from, codes.len()) {
        let distance = distance_from(word, codes.row(i), columns, mask);
        if distance < least {
            least = distance;
            groups.clear();
        }
        if distance == least {
            groups.push(i as u32)?;
        }
        from = i + 1;
    }
    Ok(Nearest {
        distance: least,
        places: List::of(groups),
    })
}

// The first position at or after one, and below a count, that isn't left out.
fn next_of(marked: &Option<Row>, from: usize, count: usize) -> Option<usize>
    requires { IfSome marked.now (λ row. length row ≡ count) }
    ensures some { IfSome result (λ i. (from ≤ i) × (i < count) × AreLeftOut marked.now from i) }
    ensures none { IfNone result (AreLeftOut marked.now from count) }
{
    match marked {
        Some(row) => row.next_one(from),
        None if from < count => Some(from),
        None => None,
    }
}
