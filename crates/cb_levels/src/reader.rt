//! A text of levels, one line after the other.
ghost use Rattle.std.specs.Prelude.{◌≡◌, ◌++◌, [], ◌∷◌, decimal, IfOk, IfErr};
ghost use Rattle.cb_cert.specs.Format.{HasValidNames};
ghost use Rattle.cb_levels.specs.declared.fault.LevelText.TheVariants.{BadLine, Truncated};
ghost use Rattle.cb_levels.specs.declared.line.LevelLine.TheVariants as line;
ghost use Rattle.cb_levels.specs.Text.{level_line_text};
ghost use Rattle.cb_levels.specs.Format.{IsLevelCount, IsLevelEntry};
ghost use Rattle.cb_levels.specs.Faults.{IsLevelFault};
ghost use Rattle.cb_levels.specs.Steps.{HasReadLines, ReadsLine, TakesLevelLine, ReadsNodes, ReadsEntries, FinishesLevels};

use crate::fault::LevelText;
use crate::levels::LevelEntry;
use crate::words::{count_after, entry_of, is_text, node_of};
use cb_model::{List, NodeName};
use cb_text::{LineIter, lines};
use std::alloc::Global;

/// A text of which some lines were read.
#[derive(Drop)]
pub struct LevelReader<'a> {
    /// The lines that are still to be read.
    lines: LineIter<'a>,
    /// How many lines were read.
    number: u64,
}

impl<'a> LevelReader<'a> {
    /// The text after its header.
    pub fn after_header(text: &'a [u8]) -> Result<LevelReader<'a>, LevelText>
        ensures reader { IfOk result (λ reader. HasReadLines text.now reader (line.Header ∷ [])) }
        ensures fault { IfErr result (IsLevelFault text.now) }
    {
        let mut reader = LevelReader {
            lines: lines(text),
            number: 0,
        };
        let header = reader.next()?;
        if is_text(header, b"codebook levels 1") {
            Ok(reader)
        } else {
            Err(LevelText::BadHeader)
        }
    }

    /// The nodes.
    pub fn nodes(&mut self, alloc: Global) -> Result<List<NodeName>, LevelText>
        ensures { ReadsNodes self.old self.new result }
    {
        let count = self.count(b"nodes ")?;
        let mut nodes = List::new(alloc);
        for _ in 0..count {
            nodes.push(self.node(alloc)?)?;
        }
        Ok(nodes)
    }

    /// The entries, among `nodes` nodes.
    pub fn entries(&mut self, alloc: Global, nodes: u32) -> Result<List<LevelEntry>, LevelText>
        ensures { ReadsEntries nodes self.old self.new result }
    {
        let count = self.count(b"entries ")?;
        let mut entries = List::new(alloc);
        for _ in 0..count {
            entries.push(self.entry(nodes)?)?;
        }
        Ok(entries)
    }

    /// The text's end.
    pub fn finish(&mut self) -> Result<(), LevelText>
        ensures { FinishesLevels self.old result }
    {
        let line = self.next()?;
        if !is_text(line, b"end") {
            return Err(self.bad());
        }
        match self.lines.next() {
            Some(_) => Err(LevelText::Extra {
                line: self.number.saturating_add(1),
            }),
            None => Ok(()),
        }
    }

    // How many items follow, after a word.
    fn count(&mut self, word: &[u8]) -> Result<u32, LevelText>
        ensures { TakesLevelLine (λ n. word.now ++ decimal n) IsLevelCount self.old self.new result }
    {
        let line = self.next()?;
        let Some(count) = count_after(line, word) else {
            return Err(self.bad());
        };
        Ok(count)
    }

    // A node.
    fn node(&mut self, alloc: Global) -> Result<NodeName, LevelText>
        ensures { TakesLevelLine (λ n. level_line_text (line.Node n)) HasValidNames self.old self.new result }
    {
        let line = self.next()?;
        let Some(node) = node_of(alloc, line)? else {
            return Err(self.bad());
        };
        Ok(node)
    }

    // An entry, among `nodes` nodes.
    fn entry(&mut self, nodes: u32) -> Result<LevelEntry, LevelText>
        ensures { TakesLevelLine (λ e. level_line_text (line.Entry e)) (IsLevelEntry nodes) self.old self.new result }
    {
        let line = self.next()?;
        let Some(entry) = entry_of(line, nodes) else {
            return Err(self.bad());
        };
        Ok(entry)
    }

    // The next line.
    fn next(&mut self) -> Result<&'a [u8], LevelText>
        ensures line { IfOk result (λ line. ReadsLine self.old self.new line.now) }
        ensures none { IfErr result (λ why. (why ≡ Truncated) × (self.old.lines ≡ [])) }
    {
        match self.lines.next() {
            Some(line) => {
                self.number = self.number.saturating_add(1);
                Ok(line)
            }
            None => Err(LevelText::Truncated),
        }
    }

    // That the line read last is wrong.
    fn bad(&self) -> LevelText
        ensures { result ≡ BadLine self.now.number }
    {
        LevelText::BadLine { line: self.number }
    }
}
