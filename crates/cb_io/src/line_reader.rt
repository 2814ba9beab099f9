//! A file line by line, over any files.
ghost use Rattle.std.specs.Prelude.{◌≡◌, ◌+◌, ◌≤◌, length, true, false, IfOk, IfSome, OnErr, IsErrOf};
ghost use Rattle.cb_io.specs.LineGiving.{IsGivenLine};
ghost use Rattle.cb_io.specs.LineReading.{Reading, unread, coming, ReadsSame, AnswerSays, IsOneLine, HasLineNumber, ReadingGoesOn, Advances};
ghost use Rattle.cb_io.specs.LineSearch.{length_with_lf, size_of};
ghost use Rattle.cb_io.specs.Pieces.{piece_limit};
ghost use Rattle.cb_io.specs.Outside.{ReadsPrefix, KeepsOthers, NoCountFalls, ReadFailed};

use crate::hand::Hand;
use crate::line_end::{LineEnd, find_end};
use crate::{Files, ReadStop};
use std::alloc::{AllocError, Global};
use std::marker::Model;

/// One answer of a reader of lines.
#[derive(Clone, Copy, PartialEq, Eq)]
pub enum Line {
    /// The line of this number, counted from 1; its bytes are the reader's text.
    Text { number: u64 },
    /// The line of this number has too many bytes, which are ignored.
    Long { number: u64 },
    /// There is no line any more.
    End,
}

/// Reads a file line by line, in pieces of one buffer.
#[derive(Drop)]
pub struct LineReader<'n> {
    name: &'n str,
    line_most: usize,
    total_most: u64,
    number: u64,
    given: u64,
    hand: Hand,
    ended: bool,
    refused: bool,
}

impl<'n> Model for LineReader<'n> {
    ghost use Rattle.std.specs.Prelude.{◌≡◌, ◌≤◌, ◌<◌, length, false};
    ghost use Rattle.cb_io.specs.LineReading.{Reading};
    ghost use Rattle.cb_io.specs.Pieces.{piece_limit};

    ghost Value = { Reading };

    ghost view = { λ r. record {
      name = r.name.now;
      line_most = r.line_most;
      total_most = r.total_most;
      number = r.number;
      given = r.given;
      text = r.hand.text;
      kept = r.hand.kept;
      ended = r.ended;
      refused = r.refused;
    } };

    ghost invariant = { λ r.
        (r.number ≤ r.given) × (r.given ≤ r.total_most) × (r.line_most < r.hand.size) × (r.refused ≡ false → length r.hand.kept ≤ piece_limit) };
}

impl<'n> LineReader<'n> {
    /// A reader that stands before the first byte left of the name. A line has at most `line_most` bytes without its LF, and all lines
    /// together, with their LFs, have at most `total_most`.
    pub fn new(
        alloc: Global,
        name: &'n str,
        line_most: usize,
        total_most: u64,
    ) -> Result<LineReader<'n>, AllocError>
        ensures { IfOk result (λ reader. reader ≡ unread name.now line_most total_most) }
    {
        Ok(LineReader {
            name,
            line_most,
            total_most,
            number: 0,
            given: 0,
            hand: Hand::new(alloc, line_most)?,
            ended: false,
            refused: false,
        })
    }

    /// The next line. If a whole one is buffered, nothing is read. A reader that was refused is of no more use: a prefix of the line
    /// that comes next may be lost.
    pub fn next_line<F: Files>(&mut self, files: &mut F) -> Result<Line, ReadStop>
        requires { self.old.refused ≡ false }
        ensures same { ReadsSame self.old self.new }
        // What the answer says of the bytes that come, where the files tell them.
        ensures says { IfSome (coming self.old (F.tells files.old)) (AnswerSays self.old self.new (F.tells files.new) result) }
        ensures number { IfOk result (HasLineNumber self.new) }
        ensures goes_on { IfOk result (λ line. ReadingGoesOn self.new) }
        ensures advances { IfOk result (Advances self.old self.new) }
        ensures in_hand { (¬ IsOneLine self.old.kept) → files.new ≡ files.old }
        ensures refused { OnErr result (self.new.refused ≡ true) }
        ensures failed { IsErrOf result ReadStop.ReadFault → ReadFailed (F.tells files.old) (F.tells files.new) self.old.name }
        // In every case:
        ensures prefix { ReadsPrefix (F.tells files.old) (F.tells files.new) self.old.name }
        ensures others { KeepsOthers (F.tells files.old) (F.tells files.new) self.old.name }
        ensures counts { NoCountFalls (F.tells files.old) (F.tells files.new) }
    {
        self.refused = true;
        let capacity = self.total_most - self.given;
        let end = find_end(&mut self.hand, files, self.name, self.line_most, capacity)?;
        Ok(self.take_line(end))
    }

    // Moves after the line whose end was found, which fits.
    fn take_line(&mut self, end: LineEnd) -> Line
        requires in_hand { length_with_lf end ≤ length self.old.kept }
        requires within { self.old.given + size_of end ≤ self.old.total_most }
        requires few { length self.old.kept ≤ length_with_lf end + piece_limit }
        ensures { IsGivenLine self.old end self.new result }
    {
        self.ended = end.is_last;
        self.refused = false;
        let beyond = end.bytes_with_lf();
        let size = end.size();
        self.given += size;
        if size == 0 {
            self.hand.take_text(0, beyond);
            return Line::End;
        }
        self.number += 1;
        let number = self.number;
        if end.lost + end.length as u64 > self.line_most as u64 {
            self.hand.take_text(0, beyond);
            return Line::Long { number };
        }
        self.hand.take_text(end.length, beyond);
        Line::Text { number }
    }

    /// The bytes of the last answer, where it was a text; else none.
    pub fn text(&self) -> &[u8]
        ensures { result.now ≡ self.now.text }
    {
        self.hand.text()
    }

    /// Whether the end has come, so that no line comes after the one that was given.
    pub fn has_ended(&self) -> bool
        ensures { result ≡ self.now.ended }
    {
        self.ended
    }
}
