//! The buffered bytes of a file that is read line by line.
ghost use Rattle.std.specs.Prelude.{◌≡◌, ◌+◌, ◌-◌, ◌<◌, ◌≤◌, [], length, take, drop, slice_range, vec_len, IfOk, IsErrOf};
ghost use Rattle.cb_io.specs.Hand.{Refills, with_text};
ghost use Rattle.cb_io.specs.Outside.{KeepsOthers, NoCountFalls, ReadFailed, ReadsBytes};
ghost use Rattle.cb_io.specs.Pieces.{piece_limit};

use crate::whole::PIECE;
use crate::{FileStop, Files};
use std::alloc::{AllocError, Global};
use std::marker::Model;

// The text of the last line and the bytes that were taken after it, two parts of one buffer.
#[derive(Drop)]
pub(crate) struct Hand {
    buffer: Vec<u8>,
    text_from: usize,
    text_to: usize,
    kept_from: usize,
    kept_to: usize,
}

impl Model for Hand {
    ghost use Rattle.std.specs.Prelude.{slice_range, vec_len};
    ghost use Rattle.cb_io.specs.Hand.{Held, IsPart};

    ghost Value = { Held };

    ghost view = { λ h. record {
      text = slice_range h.buffer.items h.text_from h.text_to;
      kept = slice_range h.buffer.items h.kept_from h.kept_to;
      size = vec_len h.buffer;
    } };

    ghost invariant = { λ h.
        IsPart (vec_len h.buffer) h.text_from h.text_to × IsPart (vec_len h.buffer) h.kept_from h.kept_to };
}

impl Hand {
    // An empty buffer, with capacity for `most` bytes and a piece after them.
    pub(crate) fn new(alloc: Global, most: usize) -> Result<Self, AllocError>
        ensures text { IfOk result (λ hand. hand.text ≡ []) }
        ensures kept { IfOk result (λ hand. hand.kept ≡ []) }
        ensures size { IfOk result (λ hand. most < hand.size) }
    {
        Ok(Hand {
            buffer: make_buffer(alloc, most)?,
            text_from: 0,
            text_to: 0,
            kept_from: 0,
            kept_to: 0,
        })
    }

    pub(crate) fn text(&self) -> &[u8]
        ensures { result.now ≡ self.now.text }
    {
        &self.buffer[self.text_from..self.text_to]
    }

    pub(crate) fn kept(&self) -> &[u8]
        ensures { result.now ≡ self.now.kept }
    {
        &self.buffer[self.kept_from..self.kept_to]
    }

    // The first bytes of what was kept become the text, and those from a position on are kept.
    pub(crate) fn take_text(&mut self, line: usize, beyond: usize)
        requires text { line ≤ length self.old.kept }
        requires kept { beyond ≤ length self.old.kept }
        ensures { self.new ≡ with_text self.old line beyond }
    {
        self.text_from = self.kept_from;
        self.text_to = self.kept_from + line;
        self.kept_from += beyond;
    }

    // Reads a piece of the file after what is kept, which moves to the start. The last text is gone.
    pub(crate) fn refill<F: Files>(&mut self, files: &mut F, name: &str) -> Result<usize, FileStop>
        requires { length self.old.kept < self.old.size }
        ensures size { self.new.size ≡ self.old.size }
        ensures bytes { Refills self.old self.new (F.tells files.old) (F.tells files.new) name.now result }
        ensures others { KeepsOthers (F.tells files.old) (F.tells files.new) name.now }
        ensures counts { NoCountFalls (F.tells files.old) (F.tells files.new) }
        ensures failed { IsErrOf result FileStop.Failed → ReadFailed (F.tells files.old) (F.tells files.new) name.now }
    {
        let length = self.kept_to - self.kept_from;
        self.buffer.copy_within(self.kept_from..self.kept_to, 0);
        self.text_from = 0;
        self.text_to = 0;
        self.kept_from = 0;
        self.kept_to = length;
        let count = read_beyond(files, name, &mut self.buffer, length)?;
        self.kept_to += count;
        Ok(count)
    }
}

// A buffer of `most` bytes and a piece.
fn make_buffer(alloc: Global, most: usize) -> Result<Vec<u8>, AllocError>
    ensures { IfOk result (λ buffer. most < vec_len buffer) }
{
    match most.checked_add(PIECE) {
        Some(size) => vec![in alloc; 0; size],
        None => Err(AllocError),
    }
}

// Reads a piece of the file into a buffer, after its first bytes.
fn read_beyond<F: Files>(
    files: &mut F,
    name: &str,
    buffer: &mut Vec<u8>,
    length: usize,
) -> Result<usize, FileStop>
    requires { length < vec_len buffer.old }
    ensures size { vec_len buffer.new ≡ vec_len buffer.old }
    ensures prefix { take length buffer.new.items ≡ take length buffer.old.items }
    ensures few { IfOk result (λ count. count ≤ piece_limit) }
    ensures within { IfOk result (λ count. length + count ≤ vec_len buffer.new) }
    ensures bytes { ReadsBytes (F.tells files.old) (F.tells files.new) name.now result (drop length buffer.new.items) }
    ensures others { KeepsOthers (F.tells files.old) (F.tells files.new) name.now }
    ensures counts { NoCountFalls (F.tells files.old) (F.tells files.new) }
    ensures failed { IsErrOf result FileStop.Failed → ReadFailed (F.tells files.old) (F.tells files.new) name.now }
{
    let capacity = (buffer.len() - length).min(PIECE);
    files.read(name, &mut buffer[length..length + capacity])
}
