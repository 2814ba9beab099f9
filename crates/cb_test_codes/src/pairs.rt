//! What fits a word, of one group or of two: worked codes, and a plain program of the definition.
ghost use Rattle.std.specs.Prelude.{◌≡◌, ◌<◌, ◌≤◌, length, IsTrue};

use crate::reduce::{code_of, codes_of, drawn, drawn_code};
use cb_bits::Row;
use cb_codes::Codes;
use cb_compact::CompactRow;
use cb_model::List;
use cb_pairs::{Fits, Guess, PairFault, Pairs, radius};
use std::alloc::{AllocError, Global};
use std::test::Fail;

// Three groups beside the quiet one, of which each two together have all columns.
const TRIANGLE: [&str; 4] = ["000", "110", "011", "101"];

// What fits a word: how far, and whether that is sure, with the guesses; a guess of one group has 0 as its second.
type Found = (u32, bool, &'static [(u32, u32)]);

#[test]
fn lists_what_fits(rt: HostRuntime) -> Result<(), Fail> {
    let cases: [(&str, Found); 4] = [
        ("000", (0, true, &[(0, 0)])),
        ("110", (0, true, &[(1, 0)])),
        ("111", (0, true, &[(1, 2), (1, 3), (2, 3)])),
        ("100", (1, false, &[(0, 0), (1, 0), (3, 0)])),
    ];
    let codes = codes_of(rt.alloc(), 3, &TRIANGLE)?;
    for (word, found) in cases {
        let word = code_of(rt.alloc(), 3, word)?;
        assert!(rt; are_found(rt.alloc(), &codes, &word, found)?);
    }
    Ok(())
}

// Whether exactly this fits.
fn are_found(alloc: Global, codes: &Codes, word: &Row, found: Found) -> Result<bool, AllocError> {
    let Some(fits) = fits_of(alloc, codes, word)? else {
        return Ok(false);
    };
    let (distance, sure, guesses) = found;
    let mut same = fits.distance == distance
        && fits.sure == sure
        && fits.guesses.len() == guesses.len();
    for (guess, (first, second)) in fits.guesses.as_slice().iter().zip(guesses) {
        same = same && guess.first == *first && guess.second.unwrap_or(0) == *second;
    }
    Ok(same)
}

// Whether there are some codes, not many, and narrow ones.
fn are_some(codes: &Codes) -> bool
    ensures some { IsTrue result → 0 < length codes.now.rows }
    ensures few { IsTrue result → length codes.now.rows ≤ 200 }
    ensures narrow { IsTrue result → codes.now.width ≤ 3000 }
{
    0 < codes.len() && codes.len() <= 200 && codes.width() <= 3000
}

// What fits a word of the codes' width; none where there are no pairs.
fn fits_of(alloc: Global, codes: &Codes, word: &Row) -> Result<Option<Fits>, AllocError> {
    if !are_some(codes) || word.len() != codes.width() {
        return Ok(None);
    }
    match Pairs::of(alloc, codes) {
        Ok(pairs) => Ok(Some(pairs.fits(alloc, word)?)),
        Err(_) => Ok(None),
    }
}

#[test]
fn many_groups_are_refused(rt: HostRuntime) -> Result<(), Fail> {
    assert_eq!(rt; refused_groups(rt.alloc(), 128)?, None);
    assert_eq!(rt; refused_groups(rt.alloc(), 129)?, Some(129));
    Ok(())
}

// How many groups are refused, of as many that have a column each but for the first.
fn refused_groups(alloc: Global, count: usize) -> Result<Option<u32>, AllocError> {
    let mut codes = Codes::new(alloc, 200);
    for place in 0..count {
        let mut code = Row::zeroed(alloc, 200)?;
        if 0 < place && place < code.len() {
            code.set(place);
        }
        if code.len() == codes.width() {
            codes.push(CompactRow::of(alloc, &code)?)?;
        }
    }
    if !are_some(&codes) {
        return Ok(None);
    }
    match Pairs::of(alloc, &codes) {
        Err(PairFault::TooManyGroups { groups }) => Ok(Some(groups)),
        _ => Ok(None),
    }
}

#[test]
fn fits_as_defined(rt: HostRuntime) -> Result<(), Fail> {
    let mut state = 5;
    for turn in 0..120_usize {
        // Up to six codes of up to nine columns, sparse ones and dense ones.
        let (count, width, of) = (1 + turn % 6, 1 + turn % 9, 1 + turn as u64 % 4);
        let codes = drawn(rt.alloc(), &mut state, count, width, turn % 3 != 0, of)?;
        let word = drawn_code(rt.alloc(), &mut state, width, 2)?;
        assert!(rt; agree(rt.alloc(), &codes, &word)?, "{turn}");
    }
    Ok(())
}

// Whether the calls answer as the plain program.
fn agree(alloc: Global, codes: &Codes, word: &Row) -> Result<bool, AllocError> {
    if !are_some(codes) {
        return Ok(false);
    }
    let guesses = all_guesses(alloc, codes.len() as u32)?;
    match fits_of(alloc, codes, word)? {
        Some(fits) => Ok(are_as_defined(codes, &guesses, word, &fits)),
        None => Ok(false),
    }
}

// Whether these fit a word, by the definition.
fn are_as_defined(codes: &Codes, guesses: &List<Guess>, word: &Row, fits: &Fits) -> bool {
    let least = least_from(codes, guesses, word);
    let sure = least <= radius(separation_of(codes, guesses));
    fits.distance == least && fits.sure == sure && are_nearest(codes, guesses, word, fits)
}

// At how many columns the nearest guess differs from a word.
fn least_from(codes: &Codes, guesses: &List<Guess>, word: &Row) -> u32 {
    let mut least = u32::MAX;
    for guess in guesses.as_slice() {
        least = least.min(from_word(codes, word, *guess));
    }
    least
}

// Whether exactly the guesses at the distance are listed, in order.
fn are_nearest(codes: &Codes, guesses: &List<Guess>, word: &Row, fits: &Fits) -> bool {
    let mut next: usize = 0;
    let mut same = true;
    for guess in guesses.as_slice() {
        if from_word(codes, word, *guess) == fits.distance {
            same = same && is_guess(fits, next, *guess);
            next = next.saturating_add(1);
        }
    }
    same && next == fits.guesses.len()
}

// Whether the guess at a position is this one.
fn is_guess(fits: &Fits, at: usize, guess: Guess) -> bool {
    match fits.guesses.as_slice().get(at) {
        Some(other) => other.first == guess.first && other.second == guess.second,
        None => false,
    }
}

// Each group alone, and then each two of them but the first.
fn all_guesses(alloc: Global, count: u32) -> Result<List<Guess>, AllocError> {
    let mut guesses = List::new(alloc);
    for first in 0..count {
        guesses.push(Guess {
            first,
            second: None,
        })?;
    }
    for first in 1..count.max(1) {
        add_later(&mut guesses, first, count)?;
    }
    Ok(guesses)
}

// A group with each later one.
fn add_later(guesses: &mut List<Guess>, first: u32, count: u32) -> Result<(), AllocError> {
    for second in first.saturating_add(1)..count {
        guesses.push(Guess {
            first,
            second: Some(second),
        })?;
    }
    Ok(())
}

// The least distance of two guesses that isn't 0, or 1.
fn separation_of(codes: &Codes, guesses: &List<Guess>) -> u32 {
    let mut least: u32 = u32::MAX;
    for one in guesses.as_slice() {
        least = least.min(least_apart(codes, *one, guesses));
    }
    if least == u32::MAX { 1 } else { least }
}

// The least distance of a guess from one that differs.
fn least_apart(codes: &Codes, one: Guess, guesses: &List<Guess>) -> u32 {
    let mut least: u32 = u32::MAX;
    for other in guesses.as_slice() {
        let apart = apart(codes, one, *other);
        if 0 < apart && apart < least {
            least = apart;
        }
    }
    least
}

// At how many columns two guesses differ.
fn apart(codes: &Codes, one: Guess, other: Guess) -> u32 {
    let mut count: u32 = 0;
    for column in 0..codes.width() {
        if says(codes, one, column) != says(codes, other, column) {
            count = count.saturating_add(1);
        }
    }
    count
}

// At how many columns a word and a guess differ.
fn from_word(codes: &Codes, word: &Row, guess: Guess) -> u32 {
    let mut count: u32 = 0;
    for column in 0..word.len() {
        if word.get(column) != says(codes, guess, column) {
            count = count.saturating_add(1);
        }
    }
    count
}

// Whether a guess has a column.
fn says(codes: &Codes, guess: Guess, column: usize) -> bool {
    match guess.second {
        Some(second) => has(codes, guess.first, column) || has(codes, second, column),
        None => has(codes, guess.first, column),
    }
}

// Whether a group has a column.
fn has(codes: &Codes, group: u32, column: usize) -> bool {
    let place = group as usize;
    if place >= codes.len() {
        return false;
    }
    let code = codes.row(place);
    column < code.len() && code.get(column)
}
