//! Nodes, as bytes.
ghost use Rattle.std.specs.Prelude.{ℕ, List, IfSome, IfNone};
ghost use Rattle.cb_text.specs.Names.{IsNodeText, NodesAreReadOnce};

use crate::name::{is_instance, is_name};
use memchr::memchr;

/// The event and the instance of a node, which is written `event@instance`.
pub fn node_parts(bytes: &[u8]) -> Option<(&[u8], &[u8])>
    ensures parts { IfSome result (λ parts. IsNodeText bytes.now parts.0.now parts.1.now) }
    ensures none { IfNone result ((event instance : List ℕ) → ¬ IsNodeText bytes.now event instance) }
{
    let at = memchr(b'@', bytes)?;
    let event = &bytes[..at];
    let instance = &bytes[at + 1..];
    if is_name(event) && is_instance(instance) {
        Some((event, instance))
    } else {
        None
    }
}

/// The bytes of a node have one event and one instance.
pub fn nodes_are_read_once()
    ensures { NodesAreReadOnce }
{}
