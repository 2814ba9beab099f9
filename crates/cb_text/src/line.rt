//! The lines of a text.
ghost use Rattle.std.specs.Prelude.{◌≡◌, ◌≤◌, [], ◌∷◌, ◌↔◌, length, drop, slice_range, IsNone, IfSome, IfNone};
ghost use Rattle.std.specs.Iterator.{YieldsFirstRef, item_count};
ghost use Rattle.cb_text.specs.Lines.{lines_of, IsLineAt, LinesAreMet, HasShortLines, IsFirstLong};

use crate::limits::LONGEST_LINE;
use memchr::memchr;
use std::marker::Model;

/// A line of a text: its bytes from `start` up to `end`, and the position at which the next line begins.
#[derive(Clone, Copy, Debug, PartialEq, Eq)]
pub struct LineAt {
    pub start: usize,
    pub end: usize,
    pub next: usize,
}

/// The line that begins at a position, which is 0 or the `next` of the line before.
pub fn line_from(text: &[u8], from: usize) -> Option<LineAt>
    requires { from ≤ length text.now }
    ensures none { IsNone result ↔ (from ≡ length text.now) }
    ensures line { IfSome result (λ line. IsLineAt text.now from line) }
    ensures first { IfSome result (λ line. lines_of (drop from text.now) ≡ slice_range text.now line.start line.end ∷ lines_of (drop line.next text.now)) }
{
    if from == text.len() {
        return None;
    }
    let line = match memchr(b'\n', &text[from..]) {
        Some(length) => LineAt {
            start: from,
            end: from + length,
            next: from + length + 1,
        },
        None => LineAt {
            start: from,
            end: text.len(),
            next: text.len(),
        },
    };
    Some(line)
}

/// The lines of a text that are still to come, in order.
#[derive(Drop)]
pub struct LineIter<'a> {
    rest: &'a [u8],
}

impl<'a> Model for LineIter<'a> {
    ghost use Rattle.std.specs.Prelude.{List, ℕ};
    ghost use Rattle.cb_text.specs.Lines.{lines_of};

    ghost Value = { List (List ℕ) };

    ghost view = { λ lines. lines_of lines.rest.now };
}

impl<'a> Iterator for LineIter<'a> {
    type Item = &'a [u8];

    ghost next_gives = { YieldsFirstRef (λ lines. lines) };

    ghost remaining = { item_count (λ lines. lines) };

    fn next(&mut self) -> Option<&'a [u8]> {
        let (line, rest) = first_line(self.rest)?;
        self.rest = rest;
        Some(line)
    }
}

/// The lines of a text, without their LFs.
pub fn lines(text: &[u8]) -> LineIter<'_>
    ensures { result ≡ lines_of text.now }
{
    LineIter { rest: text }
}

/// The number of the first line that is too long, counted from 1.
pub fn first_long(text: &[u8]) -> Option<u64>
    ensures long { IfSome result (IsFirstLong text.now) }
    ensures short { IfNone result (HasShortLines text.now) }
{
    let mut number = 0;
    for line in lines(text) {
        number += 1;
        if line.len() > LONGEST_LINE {
            return Some(number);
        }
    }
    None
}

/// Whoever goes from `next` to `next` meets the lines of the text, in order and numbered from 1.
pub fn lines_are_met()
    ensures { LinesAreMet }
{}

// The first line of a text, and what follows it.
fn first_line(text: &[u8]) -> Option<(&[u8], &[u8])>
    ensures none { IfNone result (lines_of text.now ≡ []) }
    ensures some { IfSome result (λ parts. lines_of text.now ≡ parts.0.now ∷ lines_of parts.1.now) }
{
    let line = line_from(text, 0)?;
    Some((&text[line.start..line.end], &text[line.next..]))
}
