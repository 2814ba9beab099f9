//! Parts of lines.
ghost use Rattle.std.specs.Prelude.{◌≡◌, ◌≢◌, ◌++◌, ◌∷◌, ℕ, List, decimal, IfSome, IfNone, IfOk, IsTrue, ◌↔◌};
ghost use Rattle.cb_cert.specs.Format.{IsBetween};
ghost use Rattle.cb_levels.specs.Numbers.{AreAroundSpace, AreEntryNumbers, IsEntryLine, IsLevelNodeLine};

use crate::levels::LevelEntry;
use crate::limits::MOST_NODES;
use cb_model::NodeName;
use cb_text::{decimal_of, node_parts};
use memchr::memchr;
use std::alloc::{AllocError, Global};

// What follows the word.
fn rest_after<'a>(bytes: &'a [u8], word: &[u8]) -> Option<&'a [u8]>
    ensures some { IfSome result (λ rest. bytes.now ≡ word.now ++ rest.now) }
    ensures none { IfNone result ((rest : List ℕ) → bytes.now ≢ word.now ++ rest) }
{
    let length = word.len();
    if bytes.len() < length {
        return None;
    }
    let prefix = &bytes[..length];
    if prefix == word {
        Some(&bytes[length..])
    } else {
        None
    }
}

// What stands before the first space, and after it.
fn around_space(bytes: &[u8]) -> Option<(&[u8], &[u8])>
    ensures some { IfSome result (λ parts. AreAroundSpace bytes.now parts.0.now parts.1.now) }
    ensures none { IfNone result ((before after : List ℕ) → bytes.now ≢ before ++ 32 ∷ after) }
{
    let at = memchr(b' ', bytes)?;
    Some((&bytes[..at], &bytes[at + 1..]))
}

// The number that the bytes are, if it is in the range.
fn number_in(bytes: &[u8], least: u32, most: u32) -> Option<u32>
    ensures some { IfSome result (λ n. (bytes.now ≡ decimal n) × IsBetween least most n) }
    ensures none { IfNone result ((n : ℕ) → IsBetween least most n → bytes.now ≢ decimal n) }
{
    let number = decimal_of(bytes)?;
    if number < u64::from(least) || u64::from(most) < number {
        return None;
    }
    Some(number as u32)
}

/// How many items follow, after a word.
pub(crate) fn count_after(bytes: &[u8], word: &[u8]) -> Option<u32>
    ensures some { IfSome result (λ n. (bytes.now ≡ word.now ++ decimal n) × IsBetween 1 65536 n) }
    ensures none { IfNone result ((n : ℕ) → IsBetween 1 65536 n → bytes.now ≢ word.now ++ decimal n) }
{
    let rest = rest_after(bytes, word)?;
    let count = number_in(rest, 1, MOST_NODES)?;
    Some(count)
}

// The three numbers of an entry, among `nodes` nodes.
fn numbers_of(bytes: &[u8], nodes: u32) -> Option<LevelEntry>
    ensures { AreEntryNumbers nodes bytes.now result }
{
    let (node, rest) = around_space(bytes)?;
    let (level, parent) = around_space(rest)?;
    let node = number_in(node, 1, nodes)?;
    let level = number_in(level, 0, MOST_NODES)?;
    let parent = number_in(parent, 0, MOST_NODES)?;
    Some(LevelEntry {
        node,
        level,
        parent,
    })
}

/// The entry of a line, among `nodes` nodes.
pub(crate) fn entry_of(bytes: &[u8], nodes: u32) -> Option<LevelEntry>
    ensures { IsEntryLine nodes bytes.now result }
{
    let rest = rest_after(bytes, b"entry ")?;
    let entry = numbers_of(rest, nodes)?;
    Some(entry)
}

/// Whether the bytes are those of the text.
pub(crate) fn is_text(bytes: &[u8], text: &[u8]) -> bool
    ensures { IsTrue result ↔ (bytes.now ≡ text.now) }
{
    bytes == text
}

/// The node of a line. Memory may run out for its names.
pub(crate) fn node_of(alloc: Global, bytes: &[u8]) -> Result<Option<NodeName>, AllocError>
    ensures { IfOk result (IsLevelNodeLine bytes.now) }
{
    let Some(rest) = rest_after(bytes, b"node ") else {
        return Ok(None);
    };
    let Some((event, instance)) = node_parts(rest) else {
        return Ok(None);
    };
    Ok(Some(NodeName::of(alloc, event, instance)?))
}
