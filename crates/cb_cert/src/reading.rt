//! A whole certificate, read.
ghost use Rattle.std.specs.Prelude.{◌≡◌, ◌⊎◌, [], ◌∷◌, IfOk, IfErr, length};
ghost use Rattle.cb_cert.specs.declared.fault.CertText.TheVariants.{NoMemory};
ghost use Rattle.cb_cert.specs.declared.line.CertificateLine.TheVariants as line;
ghost use Rattle.cb_cert.specs.Ahead.{at_kind, at_wanted, at_distance, at_thin_distance, at_cap, at_nodes, at_columns, at_radii, at_spans, at_side, at_span};
ghost use Rattle.cb_cert.specs.declared.line.Version.TheVariants.{First, Second};
ghost use Rattle.cb_cert.specs.Format.{SpellsCertificate, nodes_of};
ghost use Rattle.cb_cert.specs.Prefixes.{IsFault};
ghost use Rattle.cb_cert.specs.Lines.{claim_lines, version_of};
ghost use Rattle.cb_cert.specs.Steps.{ReadsLines, ReadsAfter};

use crate::certificate::Certificate;
use crate::fault::CertText;
use crate::limits::{LONGEST_WANTED, MOST_COLUMNS};
use crate::line::Version;
use crate::reader::Reader;
use crate::words::is_text;
use std::alloc::Global;

/// The certificate that a text spells. The text is read once, line by line, and no line of it is kept; counts that it
/// claims take no memory before their lines are there.
pub fn read(alloc: Global, text: &[u8]) -> Result<Certificate, CertText>
    ensures certificate { IfOk result (SpellsCertificate text.now) }
    ensures fault { IfErr result (λ why. (why ≡ NoMemory) ⊎ IsFault text.now why) }
{
    let mut reader = Reader::after_header(text)?;
    let certificate = reader.claim(alloc)?;
    reader.finish()?;
    Ok(certificate)
}

impl<'a> Reader<'a> {
    // What the certificate claims, with its reasons.
    fn claim(&mut self, alloc: Global) -> Result<Certificate, CertText>
        ensures lines { ReadsLines 0 (at_kind self.old.version ∷ []) claim_lines (λ c. length (nodes_of c)) self.old self.new result }
        ensures version { IfOk result (λ c. version_of c ≡ self.old.version) }
    {
        match self.version {
            Version::First => self.first_claim(alloc),
            Version::Second => self.second_claim(alloc),
        }
    }

    // What a certificate of the first version claims.
    fn first_claim(&mut self, alloc: Global) -> Result<Certificate, CertText>
        ensures lines { ReadsLines 0 (at_kind First ∷ []) claim_lines (λ c. length (nodes_of c)) self.old self.new result }
        ensures version { IfOk result (λ c. version_of c ≡ First) }
    {
        let kind = self.next()?;
        if is_text(kind, b"kind book") {
            return self.book(alloc);
        }
        if is_text(kind, b"kind thin") {
            return self.thin(alloc);
        }
        Err(self.bad())
    }

    // What one of the second version claims.
    fn second_claim(&mut self, alloc: Global) -> Result<Certificate, CertText>
        ensures lines { ReadsLines 0 (at_kind Second ∷ []) claim_lines (λ c. length (nodes_of c)) self.old self.new result }
        ensures version { IfOk result (λ c. version_of c ≡ Second) }
    {
        let kind = self.next()?;
        if !is_text(kind, b"kind book") {
            return Err(self.bad());
        }
        self.capped(alloc)
    }

    // A book, whose kind was read.
    fn book(&mut self, alloc: Global) -> Result<Certificate, CertText>
        ensures lines { ReadsAfter line.Book 0 (at_distance ∷ at_nodes ∷ at_columns ∷ at_spans ∷ []) claim_lines (λ c. length (nodes_of c)) self.old self.new result }
        ensures version { IfOk result (λ c. version_of c ≡ First) }
    {
        let distance = self.number(b"distance ", 1, LONGEST_WANTED)?;
        let nodes = self.nodes(alloc)?;
        let count = nodes.len() as u32;
        let columns = self.columns(alloc, count)?;
        let spans = self.spans(alloc, count)?;
        Ok(Certificate::Book {
            distance,
            nodes,
            columns,
            spans,
        })
    }

    // A book for a cap, whose kind was read.
    fn capped(&mut self, alloc: Global) -> Result<Certificate, CertText>
        ensures lines { ReadsAfter line.Book 0 (at_cap ∷ at_nodes ∷ at_columns ∷ at_radii ∷ at_spans ∷ []) claim_lines (λ c. length (nodes_of c)) self.old self.new result }
        ensures version { IfOk result (λ c. version_of c ≡ Second) }
    {
        let cap = self.number(b"cap ", 1, LONGEST_WANTED)?;
        let nodes = self.nodes(alloc)?;
        let count = nodes.len() as u32;
        let columns = self.columns(alloc, count)?;
        let radii = self.radii(alloc)?;
        let spans = self.spans(alloc, count)?;
        Ok(Certificate::Capped {
            cap,
            nodes,
            columns,
            radii,
            spans,
        })
    }

    // A thin certificate, whose kind was read.
    fn thin(&mut self, alloc: Global) -> Result<Certificate, CertText>
        ensures lines { ReadsAfter line.Thin 0 (at_wanted ∷ at_thin_distance ∷ at_nodes ∷ at_side ∷ at_span ∷ []) claim_lines (λ c. length (nodes_of c)) self.old self.new result }
        ensures version { IfOk result (λ c. version_of c ≡ First) }
    {
        let wanted = self.number(b"wanted ", 1, LONGEST_WANTED)?;
        let distance = self.number(b"distance ", 0, MOST_COLUMNS)?;
        let nodes = self.nodes(alloc)?;
        let count = nodes.len() as u32;
        let first = self.side(alloc, count)?;
        let second = self.span(alloc, count)?;
        Ok(Certificate::Thin {
            wanted,
            distance,
            nodes,
            first,
            second,
        })
    }
}
