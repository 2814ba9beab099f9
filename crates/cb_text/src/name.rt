//! Names, as bytes.
ghost use Rattle.std.specs.Prelude.{◌≡◌, ◌↔◌, IsTrue};
ghost use Rattle.std.specs.List.{Contains};
ghost use Rattle.cb_text.specs.Names.{is_letter, is_name_byte, is_instance_byte, reserved_words, IsRun, IsName, IsInstance};

use crate::limits::LONGEST_NAME;

/// The words that are no names.
const RESERVED: [&str; 13] = [
    "class", "extends", "problem", "symptom", "event", "relation", "to", "one", "many", "inverse",
    "rule", "block", "hide",
];

/// Whether the bytes are the name of a class, an event, a relation or a rule.
pub fn is_name(bytes: &[u8]) -> bool
    ensures { IsTrue result ↔ IsName bytes.now }
{
    bytes.len() <= LONGEST_NAME && is_run(bytes) && !is_reserved(bytes)
}

/// Whether the bytes are the name of an instance or of a source. Reserved words are.
pub fn is_instance(bytes: &[u8]) -> bool
    ensures { IsTrue result ↔ IsInstance bytes.now }
{
    !bytes.is_empty() && bytes.len() <= LONGEST_NAME && bytes.iter().all(|b| is_instance_byte(*b))
}

// A letter and then bytes of names.
fn is_run(bytes: &[u8]) -> bool
    ensures { IsTrue result ↔ IsRun bytes.now }
{
    match bytes.split_first() {
        None => false,
        Some((first, others)) => is_letter(*first) && others.iter().all(|b| is_name_byte(*b)),
    }
}

// One of the words that are no names.
fn is_reserved(bytes: &[u8]) -> bool
    ensures { IsTrue result ↔ Contains reserved_words bytes.now }
{
    RESERVED.iter().any(|word| bytes == word.as_bytes())
}

fn is_letter(byte: u8) -> bool
    ensures { result ≡ is_letter byte }
{
    matches!(byte, b'a'..=b'z' | b'A'..=b'Z')
}

fn is_name_byte(byte: u8) -> bool
    ensures { result ≡ is_name_byte byte }
{
    is_letter(byte) || matches!(byte, b'0'..=b'9') || byte == b'_' || byte == b'-'
}

fn is_instance_byte(byte: u8) -> bool
    ensures { result ≡ is_instance_byte byte }
{
    is_name_byte(byte) || matches!(byte, b'.' | b'/' | b':')
}
