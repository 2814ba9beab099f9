//! The words of a line.
ghost use Rattle.std.specs.Prelude.{◌≡◌, ◌≤◌, ◌↔◌, ℕ, List, [], ◌∷◌, length, IsTrue, IfSome, IfNone};
ghost use Rattle.std.specs.List.{prefix_len, position_or_len};
ghost use Rattle.std.specs.Iterator.{YieldsFirstRef, item_count};
ghost use Rattle.cb_text.specs.Words.{is_blank, words_of, IsPassedOver};

use std::marker::Model;

/// The words of a line that are still to come, in order.
#[derive(Drop)]
pub struct WordIter<'a> {
    rest: &'a [u8],
}

impl<'a> Model for WordIter<'a> {
    ghost use Rattle.std.specs.Prelude.{List, ℕ};
    ghost use Rattle.cb_text.specs.Words.{words_of};

    ghost Value = { List (List ℕ) };

    ghost view = { λ words. words_of words.rest.now };
}

impl<'a> Iterator for WordIter<'a> {
    type Item = &'a [u8];

    ghost next_gives = { YieldsFirstRef (λ words. words) };

    ghost remaining = { item_count (λ words. words) };

    fn next(&mut self) -> Option<&'a [u8]> {
        let (word, rest) = first_word(self.rest)?;
        self.rest = rest;
        Some(word)
    }
}

/// The words of a line. A LF in the line counts as a byte of a word.
pub fn words(line: &[u8]) -> WordIter<'_>
    ensures { result ≡ words_of line.now }
{
    WordIter { rest: line }
}

/// Whether the line has no word. No byte after the first one of a word is looked at.
pub fn has_no_word(line: &[u8]) -> bool
    ensures { IsTrue result ↔ (words_of line.now ≡ []) }
{
    line.iter().all(|byte| is_blank(*byte))
}

/// Whether the line has no word, or is a comment.
pub fn is_passed_over(line: &[u8]) -> bool
    ensures { IsTrue result ↔ IsPassedOver line.now }
{
    match words(line).next() {
        None => true,
        Some(word) => word.first() == Some(&b'#'),
    }
}

/// The word of a line that has just one.
pub fn only_word(line: &[u8]) -> Option<&[u8]>
    ensures one { IfSome result (λ word. words_of line.now ≡ word.now ∷ []) }
    ensures other { IfNone result ((word : List ℕ) → ¬ (words_of line.now ≡ word ∷ [])) }
{
    let mut words = words(line);
    let word = words.next()?;
    match words.next() {
        None => Some(word),
        Some(_) => None,
    }
}

// The first word of a line, and what follows it.
fn first_word(line: &[u8]) -> Option<(&[u8], &[u8])>
    ensures none { IfNone result (words_of line.now ≡ []) }
    ensures some { IfSome result (λ parts. words_of line.now ≡ parts.0.now ∷ words_of parts.1.now) }
{
    let start = blank_prefix(line);
    if start == line.len() {
        return None;
    }
    let rest = &line[start..];
    Some(rest.split_at(word_prefix(rest)))
}

// How many blank bytes a line begins with.
fn blank_prefix(line: &[u8]) -> usize
    ensures value { result ≡ prefix_len is_blank line.now }
    ensures within { result ≤ length line.now }
{
    line.iter().take_while(|b| is_blank(**b)).count()
}

// How many other bytes a line begins with.
fn word_prefix(line: &[u8]) -> usize
    ensures value { result ≡ position_or_len is_blank line.now }
    ensures within { result ≤ length line.now }
{
    line.iter().take_while(|b| !is_blank(**b)).count()
}

fn is_blank(byte: u8) -> bool
    ensures { result ≡ is_blank byte }
{
    matches!(byte, b' ' | b'\t' | b'\r')
}
