//! What accepted levels show, and what is wrong with others, as texts.
ghost use Rattle.std.specs.Prelude.{◌≡◌, ◌≢◌, ◌++◌, IfOk, OnOk};
ghost use Rattle.cb_levels.specs.declared.fault.LevelText.TheVariants.{NoMemory as NoTextMemory};
ghost use Rattle.cb_levels.specs.declared.verdict.LevelFault.TheVariants.{NoMemory};
ghost use Rattle.cb_report.specs.FaultSources.{fault_of_level_text, fault_of_levels};
ghost use Rattle.cb_report.specs.FaultTexts.{fault_text};
ghost use Rattle.cb_report.specs.LevelTexts.{proved_text as text_of_proved};
ghost use Rattle.cb_report.specs.Lines.{successor_end, successor_text};

use crate::piece::{push_count, push_node, push_number};
use cb_levels::{LevelFault, LevelText, Proved};
use cb_model::NodeName;
use std::alloc::{AllocError, Global};

/// What `prove` prints: one line.
pub fn proved_text(alloc: Global, proved: &Proved) -> Result<Vec<u8>, AllocError>
    ensures { IfOk result (λ text. text.items ≡ text_of_proved proved.now) }
{
    let mut out = Vec::from_slice(alloc, b"accepted levels")?;
    push_node(&mut out, &proved.root)?;
    push_number(&mut out, b" reached ", u64::from(proved.reached))?;
    push_count(&mut out, b" deepest ", u64::from(proved.deepest))?;
    Ok(out)
}

/// The line for a text that isn't one of levels, where the reason isn't that memory ran out.
pub fn level_format_text(alloc: Global, fault: &LevelText) -> Result<Vec<u8>, AllocError>
    requires { fault.now ≢ NoTextMemory }
    ensures { IfOk result (λ text. text.items ≡ fault_text (fault_of_level_text fault.now)) }
{
    let mut out = Vec::new(alloc);
    match fault {
        LevelText::BadHeader => out.extend_from_slice(b"error 5 levels bad-header\n")?,
        LevelText::BadLine { line } => {
            push_count(&mut out, b"error 5 levels bad-line line ", *line)?
        }
        LevelText::Truncated => out.extend_from_slice(b"error 5 levels truncated\n")?,
        LevelText::Extra { line } => push_count(&mut out, b"error 5 levels extra line ", *line)?,
        LevelText::NoMemory => out.extend_from_slice(b"error 10 memory\n")?,
    }
    Ok(out)
}

/// The line for levels that aren't valid, where the reason isn't that memory ran out.
pub fn level_fault_text(alloc: Global, fault: &LevelFault) -> Result<Vec<u8>, AllocError>
    requires { fault.now ≢ NoMemory }
    ensures { IfOk result (λ text. text.items ≡ fault_text (fault_of_levels fault.now)) }
{
    let mut out = Vec::new(alloc);
    push_fault(&mut out, fault)?;
    Ok(out)
}

// Adds the line for levels that aren't valid.
fn push_fault(out: &mut Vec<u8>, fault: &LevelFault) -> Result<(), AllocError>
    ensures { OnOk result (out.new.items ≡ out.old.items ++ fault_text (fault_of_levels fault.now)) }
{
    match fault {
        LevelFault::BadNode { place } => {
            push_count(out, b"error 5 levels bad-node place ", u64::from(*place))
        }
        LevelFault::BadRoot { entry } => {
            push_count(out, b"error 5 levels bad-root entry ", u64::from(*entry))
        }
        LevelFault::BadParent { entry } => {
            push_count(out, b"error 5 levels bad-parent entry ", u64::from(*entry))
        }
        LevelFault::NoEdge { entry } => {
            push_count(out, b"error 5 levels no-edge entry ", u64::from(*entry))
        }
        LevelFault::Repeated { entry } => {
            push_count(out, b"error 5 levels repeated entry ", u64::from(*entry))
        }
        LevelFault::BadLevel { entry } => {
            push_count(out, b"error 5 levels bad-level entry ", u64::from(*entry))
        }
        LevelFault::NotClosed { entry, successor } => push_successor(
            out,
            b"error 5 levels not-closed entry ",
            *entry,
            successor,
        ),
        LevelFault::NotShort { entry, successor } => push_successor(
            out,
            b"error 5 levels not-short entry ",
            *entry,
            successor,
        ),
        LevelFault::NoMemory => out.extend_from_slice(b"error 10 memory\n"),
    }
}

// Adds words, an entry, and a successor of its node.
fn push_successor(
    out: &mut Vec<u8>,
    words: &[u8],
    entry: u32,
    successor: &NodeName,
) -> Result<(), AllocError>
    ensures { OnOk result (out.new.items ≡ out.old.items ++ successor_text words.now entry successor.now) }
{
    push_number(out, words, u64::from(entry))?;
    push_successor_end(out, successor)
}

// Adds a successor, and the end of the line.
fn push_successor_end(out: &mut Vec<u8>, successor: &NodeName) -> Result<(), AllocError>
    ensures { OnOk result (out.new.items ≡ out.old.items ++ successor_end successor.now) }
{
    out.extend_from_slice(b" successor ")?;
    out.extend_from_slice(successor.event.bytes())?;
    out.extend_from_slice(b"@")?;
    out.extend_from_slice(successor.instance.bytes())?;
    out.extend_from_slice(b"\n")
}
