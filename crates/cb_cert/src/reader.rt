//! A certificate's text, one line after the other.
ghost use Rattle.std.specs.Prelude.{◌≡◌, ◌≢◌, ◌<◌, ◌≤◌, ◌++◌, [], ◌∷◌, ℕ, decimal, IfOk, IfErr};
ghost use Rattle.cb_cert.specs.declared.fault.CertText.TheVariants.{BadLine, Truncated};
ghost use Rattle.cb_cert.specs.declared.line.CertificateLine.TheVariants as line;
ghost use Rattle.cb_cert.specs.Ahead.{at_kind, at_end};
ghost use Rattle.cb_cert.specs.Format.{IsBetween, HasValidNames, IsEntry};
ghost use Rattle.cb_cert.specs.Prefixes.{IsFault};
ghost use Rattle.cb_cert.specs.Lines.{line_text};
ghost use Rattle.cb_cert.specs.Steps.{HasRead, Moves, TakesForm, CountsSpan, Finishes};

use crate::certificate::Entry;
use crate::fault::CertText;
use crate::limits::{MOST_ENTRIES, MOST_NODES};
use crate::line::Version;
use crate::words::{entry_of, header_version, is_between, is_text, node_of, number_after};
use cb_model::NodeName;
use cb_text::{LineIter, lines};
use std::alloc::Global;

/// A text of which some lines were read.
#[derive(Drop)]
pub struct Reader<'a> {
    /// The version of the format.
    pub version: Version,
    /// The lines that are still to be read.
    lines: LineIter<'a>,
    /// How many lines were read.
    number: u64,
    /// How many entries the spans have together whose first lines were read.
    entries: u32,
}

impl<'a> Reader<'a> {
    /// The text after its header.
    pub fn after_header(text: &'a [u8]) -> Result<Reader<'a>, CertText>
        ensures reader { IfOk result (λ reader. HasRead text.now reader (line.Header reader.version ∷ []) 0 (at_kind reader.version ∷ at_end ∷ [])) }
        ensures fault { IfErr result (IsFault text.now) }
    {
        let mut lines = lines(text);
        let Some(header) = lines.next() else {
            return Err(CertText::Truncated);
        };
        let Some(version) = header_version(header) else {
            return Err(CertText::BadHeader);
        };
        Ok(Reader {
            version,
            lines,
            number: 1,
            entries: 0,
        })
    }

    /// The next line.
    pub fn next(&mut self) -> Result<&'a [u8], CertText>
        ensures line { IfOk result (λ line. Moves self.old self.new line.now) }
        ensures none { IfErr result (λ why. (why ≡ Truncated) × (self.old.lines ≡ [])) }
    {
        match self.lines.next() {
            Some(line) => {
                self.number = self.number.saturating_add(1);
                Ok(line)
            }
            None => Err(CertText::Truncated),
        }
    }

    /// That the line read last is wrong.
    pub fn bad(&self) -> CertText
        ensures { result ≡ BadLine self.now.number }
    {
        CertText::BadLine { line: self.number }
    }

    /// The number after a word.
    pub fn number(&mut self, word: &[u8], least: u32, most: u32) -> Result<u32, CertText>
        ensures { TakesForm (λ n. word.now ++ decimal n) (IsBetween least most) self.old self.new result }
    {
        let line = self.next()?;
        let Some(number) = number_after(line, word) else {
            return Err(self.bad());
        };
        if !is_between(number, least, most) {
            return Err(self.bad());
        }
        Ok(number)
    }

    /// A node.
    pub fn node(&mut self, alloc: Global) -> Result<NodeName, CertText>
        ensures { TakesForm (λ n. line_text (line.Node n)) HasValidNames self.old self.new result }
    {
        let line = self.next()?;
        let Some(node) = node_of(alloc, line)? else {
            return Err(self.bad());
        };
        Ok(node)
    }

    /// An entry, in a certificate with `nodes` nodes.
    pub fn entry(&mut self, nodes: u32) -> Result<Entry, CertText>
        ensures { TakesForm (λ e. line_text (line.Entry e)) (IsEntry nodes) self.old self.new result }
    {
        let line = self.next()?;
        let Some(entry) = entry_of(line) else {
            return Err(self.bad());
        };
        if !is_between(entry.node, 1, nodes) {
            return Err(self.bad());
        }
        if MOST_NODES < entry.parent {
            return Err(self.bad());
        }
        Ok(entry)
    }

    /// How many entries the span has that begins with this line, which was read last.
    pub fn span_of(&mut self, line: &[u8]) -> Result<u32, CertText>
        ensures { CountsSpan line.now self.old self.new result }
    {
        let Some(length) = number_after(line, b"span ") else {
            return Err(self.bad());
        };
        if !is_between(length, 1, MOST_NODES) {
            return Err(self.bad());
        }
        if MOST_ENTRIES.saturating_sub(self.entries) < length {
            return Err(CertText::TooManyEntries { line: self.number });
        }
        self.entries += length;
        Ok(length)
    }

    /// The text's end.
    pub fn finish(&mut self) -> Result<(), CertText>
        ensures { Finishes self.old result }
    {
        let line = self.next()?;
        if !is_text(line, b"end") {
            return Err(self.bad());
        }
        match self.lines.next() {
            Some(_) => Err(CertText::Extra {
                line: self.number.saturating_add(1),
            }),
            None => Ok(()),
        }
    }
}
