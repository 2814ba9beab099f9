//! What stands on a line.
ghost use Rattle.std.specs.Prelude.{◌≡◌, ◌≢◌, ◌<◌, ◌^◌, ◌++◌, ℕ, List, decimal, IfSome, IfNone, IfOk, IsTrue, ◌↔◌};
ghost use Rattle.cb_cert.specs.Lines.{line_text};
ghost use Rattle.cb_cert.specs.Format.{IsBetween};
ghost use Rattle.cb_cert.specs.LineForms.{IsNoPair, IsNoEntry, IsNodeLine, numbers_text};
ghost use Rattle.cb_cert.specs.declared.line.CertificateLine.TheVariants as line;
ghost use Rattle.cb_cert.specs.declared.line.Version.{Version as CertificateVersion};

use crate::certificate::Entry;
use crate::line::Version;
use cb_model::NodeName;
use cb_text::{decimal_of, node_parts};
use memchr::memchr;
use std::alloc::{AllocError, Global};

// What follows the word.
fn rest_after<'a>(bytes: &'a [u8], word: &[u8]) -> Option<&'a [u8]>
    ensures some { IfSome result (λ rest. bytes.now ≡ word.now ++ rest.now) }
    ensures none { IfNone result ((rest : List ℕ) → bytes.now ≢ word.now ++ rest) }
{
    let n = word.len();
    if bytes.len() < n {
        return None;
    }
    let prefix = &bytes[..n];
    if prefix == word {
        Some(&bytes[n..])
    } else {
        None
    }
}

// The number that the bytes are, where it has at most 32 bits.
fn short_number(bytes: &[u8]) -> Option<u32>
    ensures some { IfSome result (λ n. bytes.now ≡ decimal n) }
    ensures none { IfNone result ((n : ℕ) → n < 2 ^ 32 → bytes.now ≢ decimal n) }
{
    match decimal_of(bytes) {
        Some(number) => {
            if number < 4_294_967_296 {
                Some(number as u32)
            } else {
                None
            }
        }
        None => None,
    }
}

/// The number after a word, where it has at most 32 bits.
pub(crate) fn number_after(bytes: &[u8], word: &[u8]) -> Option<u32>
    ensures some { IfSome result (λ n. bytes.now ≡ word.now ++ decimal n) }
    ensures none { IfNone result ((n : ℕ) → n < 2 ^ 32 → bytes.now ≢ word.now ++ decimal n) }
{
    match rest_after(bytes, word) {
        Some(rest) => match short_number(rest) {
            Some(number) => Some(number),
            None => None,
        },
        None => None,
    }
}

/// Whether these are the bytes of the text.
pub(crate) fn is_text(bytes: &[u8], text: &[u8]) -> bool
    ensures { IsTrue result ↔ (bytes.now ≡ text.now) }
{
    bytes == text
}

/// The version that a header tells.
pub(crate) fn header_version(bytes: &[u8]) -> Option<Version>
    ensures some { IfSome result (λ version. bytes.now ≡ line_text (line.Header version)) }
    ensures none { IfNone result ((version : CertificateVersion) → bytes.now ≢ line_text (line.Header version)) }
{
    if is_text(bytes, b"codebook certificate 1") {
        return Some(Version::First);
    }
    if is_text(bytes, b"codebook certificate 2") {
        return Some(Version::Second);
    }
    None
}

// Two numbers with a space between.
fn two_numbers(bytes: &[u8]) -> Option<Entry>
    ensures some { IfSome result (λ e. bytes.now ≡ numbers_text e) }
    ensures none { IfNone result (IsNoPair bytes.now) }
{
    let Some(at) = memchr(b' ', bytes) else {
        return None;
    };
    let Some(node) = short_number(&bytes[..at]) else {
        return None;
    };
    let Some(parent) = short_number(&bytes[at + 1..]) else {
        return None;
    };
    Some(Entry { node, parent })
}

/// The entry of a line.
pub(crate) fn entry_of(bytes: &[u8]) -> Option<Entry>
    ensures some { IfSome result (λ e. bytes.now ≡ line_text (line.Entry e)) }
    ensures none { IfNone result (IsNoEntry bytes.now) }
{
    let Some(rest) = rest_after(bytes, b"entry ") else {
        return None;
    };
    let Some(entry) = two_numbers(rest) else {
        return None;
    };
    Some(entry)
}

/// The node of a line, which may lack memory for its names.
pub(crate) fn node_of(alloc: Global, bytes: &[u8]) -> Result<Option<NodeName>, AllocError>
    ensures { IfOk result (IsNodeLine bytes.now) }
{
    let Some(rest) = rest_after(bytes, b"node ") else {
        return Ok(None);
    };
    let Some((event, instance)) = node_parts(rest) else {
        return Ok(None);
    };
    Ok(Some(NodeName::of(alloc, event, instance)?))
}

/// Whether the number is in the range.
pub(crate) fn is_between(number: u32, least: u32, most: u32) -> bool
    ensures { IsTrue result ↔ IsBetween least most number }
{
    least <= number && number <= most
}
