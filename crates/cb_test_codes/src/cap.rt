//! Codebooks for a cap, and what is nearest to a word by them, beside a plain program of the definitions that goes over texts.
ghost use Rattle.std.specs.Prelude.{◌≡◌, ◌<◌, ◌≤◌, length, IsTrue};

use crate::reduce::{are_small, code_of, codes_of, drawn};
use cb_codes::Codes;
use cb_compact::CompactRow;
use cb_decode::{Answer, Decoder, nearest_cap, nearest_cap_by};
use cb_distance::radii;
use cb_reduce::{CapBook, reduce_cap};
use std::alloc::{AllocError, Global};
use std::test::Fail;

// Quiet, a code with three symptoms and one with one; quiet alone; four codes with quiet; two codes that are one; four codes
// without quiet; five codes of which some share no column.
const LISTS: [&[&str]; 6] = [
    &["0000", "1110", "0001"],
    &["000"],
    &["00000", "11100", "00111", "11011"],
    &["101", "101"],
    &["110011", "001111", "111100", "000011"],
    &["0000000", "1111000", "0001111", "1000001", "0110110"],
];

const CAPS: [u32; 4] = [1, 2, 3, 9_999];

// Past its end a word says false, and what is past the last column isn't read.
const WORDS: [&str; 6] = ["", "1", "0010", "1100", "101010", "1111111"];

#[test]
fn caps_as_defined(rt: HostRuntime) -> Result<(), Fail> {
    assert_eq!(rt; first_wrong(rt.alloc())?, None);
    Ok(())
}

// The position of the first list for which some cap is answered otherwise than the plain program does.
fn first_wrong(alloc: Global) -> Result<Option<usize>, AllocError> {
    for place in 0..LISTS.len() {
        if !agrees_at_each_cap(alloc, LISTS[place])? {
            return Ok(Some(place));
        }
    }
    Ok(None)
}

#[test]
fn caps_drawn_codes_as_defined(rt: HostRuntime) -> Result<(), Fail> {
    let mut state = 13;
    for turn in 0..240 {
        // Up to nine codes of up to thirteen columns, sparse ones and dense ones, with a zero code first or without.
        let (count, width, quiet) = (1 + turn % 9, 1 + turn % 13, turn % 3 != 0);
        let codes = drawn(
            rt.alloc(),
            &mut state,
            count,
            width,
            quiet,
            1 + turn as u64 % 4,
        )?;
        assert!(rt;
            is_capped(rt.alloc(), &codes, CAPS[turn / 4 % 4])?,
            "{turn}"
        );
    }
    Ok(())
}

// Whether a cap is answered as by the plain program, which goes over the texts of the codes.
fn is_capped(alloc: Global, codes: &Codes, cap: u32) -> Result<bool, AllocError> {
    let mut texts = Vec::new(alloc);
    for place in 0..codes.len() {
        texts.push(text_of(alloc, codes.row(place))?)?;
    }
    let mut lines = Vec::new(alloc);
    for text in &texts {
        lines.push(text.as_str())?;
    }
    agrees(alloc, &lines, codes, cap)
}

// A code as a text.
fn text_of(alloc: Global, code: &CompactRow) -> Result<String, AllocError> {
    let mut text = String::new(alloc);
    for column in 0..code.len() {
        text.push(if code.get(column) { '1' } else { '0' })?;
    }
    Ok(text)
}

// Whether each cap is answered as by the plain program.
fn agrees_at_each_cap(alloc: Global, texts: &[&str]) -> Result<bool, AllocError> {
    let Some(first) = texts.first() else {
        return Ok(false);
    };
    let codes = codes_of(alloc, first.len(), texts)?;
    for cap in CAPS {
        if !agrees(alloc, texts, &codes, cap)? {
            return Ok(false);
        }
    }
    Ok(true)
}

// Whether the book for a cap, and the answers by it, are those of the plain program.
fn agrees(alloc: Global, texts: &[&str], codes: &Codes, cap: u32) -> Result<bool, AllocError> {
    if !are_small(codes) {
        return Ok(false);
    }
    let book = reduce_cap(alloc, codes, cap)?;
    let plain = PlainBook::of(alloc, texts, codes.width() as u32, cap)?;
    let own = radii(alloc, codes, cap)?;
    let same = book.cap == cap
        && book.columns.as_slice() == plain.columns.as_slice()
        && book.radii.as_slice() == plain.radii.as_slice()
        && own.as_slice() == plain.radii.as_slice();
    Ok(same && words_agree(alloc, texts, codes, &book)?)
}

// Whether each word has the answer of the plain program.
fn words_agree(
    alloc: Global,
    texts: &[&str],
    codes: &Codes,
    book: &CapBook,
) -> Result<bool, AllocError> {
    if !can_decode(codes, book) {
        return Ok(false);
    }
    for word in WORDS {
        let want = PlainAnswer::of(alloc, texts, book, word)?;
        let word = CompactRow::of(alloc, &code_of(alloc, codes.width(), word)?)?;
        if !is_answered(alloc, codes, book, &word, &want)? {
            return Ok(false);
        }
    }
    Ok(true)
}

// Whether there is a radius for each code, of which there are some and few, and few columns.
fn can_decode(codes: &Codes, book: &CapBook) -> bool
    ensures some { IsTrue result → 0 < length codes.now.rows }
    ensures few { IsTrue result → length codes.now.rows ≤ 100 }
    ensures narrow { IsTrue result → length book.now.columns ≤ 100 }
    ensures radii { IsTrue result → length book.now.radii ≡ length codes.now.rows }
{
    0 < codes.len()
        && codes.len() <= 100
        && book.columns.len() <= 100
        && book.radii.len() == codes.len()
}

// Whether a word has this answer, with a decoder and without.
fn is_answered(
    alloc: Global,
    codes: &Codes,
    book: &CapBook,
    word: &CompactRow,
    want: &PlainAnswer,
) -> Result<bool, AllocError>
    requires some { 0 < length codes.now.rows }
    requires few { length codes.now.rows ≤ 100 }
    requires narrow { length book.now.columns ≤ 100 }
    requires radii { length book.now.radii ≡ length codes.now.rows }
{
    let decoder = Decoder::of(alloc, codes, &book.columns)?;
    let plain = nearest_cap(alloc, codes, book, word)?;
    let quick = nearest_cap_by(alloc, codes, book, &decoder, word)?;
    Ok(want.is(&plain) && want.is(&quick))
}

// What the definitions give for a cap.
#[derive(Drop)]
struct PlainBook {
    columns: Vec<u32>,
    radii: Vec<u32>,
}

impl PlainBook {
    // Each column in turn, from the last, is left out if the codes are good over the others that are left.
    fn of(alloc: Global, codes: &[&str], width: u32, cap: u32) -> Result<PlainBook, AllocError> {
        let all = columns_below(alloc, width)?;
        let mut columns = columns_below(alloc, width)?;
        for column in (0..width).rev() {
            let rest = without(alloc, &columns, column)?;
            if are_good(codes, &all, &rest, cap) {
                columns = rest;
            }
        }
        let radii = radii_of(alloc, codes, &all, cap)?;
        Ok(PlainBook { columns, radii })
    }
}

// For each code the radius of the least need of it and another one, or of the cap.
fn radii_of(alloc: Global, codes: &[&str], all: &[u32], cap: u32) -> Result<Vec<u32>, AllocError> {
    let mut radii = Vec::new(alloc);
    for place in 0..codes.len() {
        radii.push(least_need(codes, place, all, cap).saturating_sub(1) / 2)?;
    }
    Ok(radii)
}

// The least need of a code and another one, or the cap.
fn least_need(codes: &[&str], place: usize, all: &[u32], cap: u32) -> u32
    requires { place < length codes.now }
{
    let mut least = cap;
    for other in 0..codes.len() {
        if other != place {
            least = least.min(distance(codes[place], codes[other], all));
        }
    }
    least
}

// Whether each two codes are as far apart over these columns as over all, or as the cap.
fn are_good(codes: &[&str], all: &[u32], columns: &[u32], cap: u32) -> bool {
    for code in codes {
        if !is_far(code, codes, all, columns, cap) {
            return false;
        }
    }
    true
}

// Whether a code is so far from each one.
fn is_far(code: &str, codes: &[&str], all: &[u32], columns: &[u32], cap: u32) -> bool {
    for other in codes {
        if distance(code, other, columns) < cap.min(distance(code, other, all)) {
            return false;
        }
    }
    true
}

// At how many of these columns two texts differ.
fn distance(one: &str, other: &str, columns: &[u32]) -> u32 {
    let mut count = 0_u32;
    for column in columns {
        if is_one(one, *column) != is_one(other, *column) {
            count = count.saturating_add(1);
        }
    }
    count
}

// Whether a text says true of a column.
fn is_one(text: &str, column: u32) -> bool {
    text.as_bytes().get(column as usize) == Some(&b'1')
}

// All columns, in order.
fn columns_below(alloc: Global, width: u32) -> Result<Vec<u32>, AllocError> {
    let mut columns = Vec::new(alloc);
    for column in 0..width {
        columns.push(column)?;
    }
    Ok(columns)
}

// The columns but for one.
fn without(alloc: Global, columns: &[u32], column: u32) -> Result<Vec<u32>, AllocError> {
    let mut rest = Vec::new(alloc);
    for other in columns {
        if *other != column {
            rest.push(*other)?;
        }
    }
    Ok(rest)
}

// The nearest codes to a word, how far they are, and whether the radius of one of them is as large.
#[derive(Drop)]
struct PlainAnswer {
    distance: u32,
    groups: Vec<u32>,
    sure: bool,
}

impl PlainAnswer {
    // For a word and the codes, over the columns of a book.
    fn of(
        alloc: Global,
        codes: &[&str],
        book: &CapBook,
        word: &str,
    ) -> Result<PlainAnswer, AllocError> {
        let columns = book.columns.as_slice();
        let far = least_distance(codes, columns, word);
        let mut answer = PlainAnswer {
            distance: far,
            groups: Vec::new(alloc),
            sure: false,
        };
        let mut place = 0_u32;
        for (code, radius) in codes.iter().zip(book.radii.as_slice()) {
            if distance(code, word, columns) == far {
                answer.groups.push(place)?;
                answer.sure = answer.sure || far <= *radius;
            }
            place = place.saturating_add(1);
        }
        Ok(answer)
    }

    // Whether it is this answer.
    fn is(&self, answer: &Answer) -> bool {
        answer.distance == self.distance
            && answer.groups.as_slice() == self.groups.as_slice()
            && answer.sure == self.sure
    }
}

// How far the nearest code is from a word.
fn least_distance(codes: &[&str], columns: &[u32], word: &str) -> u32 {
    let mut least = u32::MAX;
    for code in codes {
        least = least.min(distance(code, word, columns));
    }
    least
}

#[test]
fn caps_the_worked_codes(rt: HostRuntime) -> Result<(), Fail> {
    // A cap, the columns of its book, and the radii of the three codes.
    let table: [(u32, &[u32], &[u32]); 4] = [
        (1, &[0, 3], &[0, 0, 0]),
        (2, &[0, 1, 3], &[0, 0, 0]),
        (3, &[0, 1, 2, 3], &[0, 1, 0]),
        (9_999, &[0, 1, 2, 3], &[0, 1, 0]),
    ];
    let codes = codes_of(rt.alloc(), 4, LISTS[0])?;
    for (cap, columns, radii) in table {
        assert!(rt; is_book(rt.alloc(), &codes, cap, columns, radii)?, "{cap}");
    }
    Ok(())
}

// Whether the book for a cap has these columns and these radii.
fn is_book(
    alloc: Global,
    codes: &Codes,
    cap: u32,
    columns: &[u32],
    radii: &[u32],
) -> Result<bool, AllocError> {
    if !are_small(codes) {
        return Ok(false);
    }
    let book = reduce_cap(alloc, codes, cap)?;
    Ok(book.columns.as_slice() == columns && book.radii.as_slice() == radii)
}
