//! The parts of a certificate, read: lists whose length their first line tells.
ghost use Rattle.std.specs.Prelude.{[], ◌∷◌, ◌≤◌, ℕ, IfOk, length, replicate};
ghost use Rattle.cb_cert.specs.declared.line.CertificateLine.TheVariants as line;
ghost use Rattle.cb_cert.specs.Ahead.{at_nodes, at_columns, at_radii, at_spans, at_span, at_side, at_entry};
ghost use Rattle.cb_cert.specs.Format.{certificate_node_limit};
ghost use Rattle.cb_cert.specs.Lines.{node_lines, column_lines, radius_lines, all_span_lines, span_lines, side_lines};
ghost use Rattle.cb_cert.specs.Steps.{ReadsLines, ReadsAfter};

use crate::certificate::{Side, Span};
use crate::fault::CertText;
use crate::limits::{GREATEST_RADIUS, MOST_COLUMNS, MOST_NODES, MOST_RADII};
use crate::reader::Reader;
use crate::words::is_text;
use cb_model::{List, NodeName};
use std::alloc::Global;

impl<'a> Reader<'a> {
    /// The nodes.
    pub fn nodes(&mut self, alloc: Global) -> Result<List<NodeName>, CertText>
        ensures lines { ReadsLines 0 (at_nodes ∷ []) node_lines length self.old self.new result }
        ensures few { IfOk result (λ nodes. length nodes ≤ certificate_node_limit) }
    {
        let count = self.number(b"nodes ", 0, MOST_NODES)?;
        let mut nodes = List::new(alloc);
        for _ in 0..count {
            nodes.push(self.node(alloc)?)?;
        }
        Ok(nodes)
    }

    /// The columns, which are numbers of some of the nodes.
    pub fn columns(&mut self, alloc: Global, nodes: u32) -> Result<List<u32>, CertText>
        ensures { ReadsLines nodes (at_columns ∷ []) column_lines (λ columns. nodes) self.old self.new result }
    {
        let count = self.number(b"columns ", 0, MOST_COLUMNS)?;
        let mut columns = List::new(alloc);
        for _ in 0..count {
            columns.push(self.number(b"column ", 1, nodes)?)?;
        }
        Ok(columns)
    }

    /// The radii.
    pub fn radii(&mut self, alloc: Global) -> Result<List<u32>, CertText>
        ensures { (nodes : ℕ) → ReadsLines nodes (at_radii ∷ []) radius_lines (λ radii. nodes) self.old self.new result }
    {
        let count = self.number(b"radii ", 1, MOST_RADII)?;
        let mut radii = List::new(alloc);
        for _ in 0..count {
            radii.push(self.number(b"radius ", 0, GREATEST_RADIUS)?)?;
        }
        Ok(radii)
    }

    /// The spans of a codebook.
    pub fn spans(&mut self, alloc: Global, nodes: u32) -> Result<List<Span>, CertText>
        ensures { ReadsLines nodes (at_spans ∷ []) all_span_lines (λ spans. nodes) self.old self.new result }
    {
        let count = self.number(b"spans ", 0, MOST_COLUMNS)?;
        let mut spans = List::new(alloc);
        for _ in 0..count {
            spans.push(self.span(alloc, nodes)?)?;
        }
        Ok(spans)
    }

    /// A span.
    pub fn span(&mut self, alloc: Global, nodes: u32) -> Result<Span, CertText>
        ensures { ReadsLines nodes (at_span ∷ []) span_lines (λ span. nodes) self.old self.new result }
    {
        let line = self.next()?;
        let length = self.span_of(line)?;
        self.entries(alloc, nodes, length)
    }

    /// The first side of a thin certificate.
    pub fn side(&mut self, alloc: Global, nodes: u32) -> Result<Side, CertText>
        ensures { ReadsLines nodes (at_side ∷ []) side_lines (λ side. nodes) self.old self.new result }
    {
        let line = self.next()?;
        if is_text(line, b"quiet") {
            return Ok(Side::Quiet);
        }
        let length = self.span_of(line)?;
        Ok(Side::Root(self.entries(alloc, nodes, length)?))
    }

    // The entries of a span whose first line tells their number.
    fn entries(&mut self, alloc: Global, nodes: u32, count: u32) -> Result<Span, CertText>
        ensures { ReadsAfter (line.Span count) nodes (replicate count at_entry) span_lines (λ span. nodes) self.old self.new result }
    {
        let mut entries = List::new(alloc);
        for _ in 0..count {
            entries.push(self.entry(nodes)?)?;
        }
        Ok(Span { entries })
    }
}
