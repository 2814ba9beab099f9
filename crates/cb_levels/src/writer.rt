//! The text of levels, written.
ghost use Rattle.std.specs.Prelude.{◌≡◌, ◌++◌, decimal, codes, IfOk, OnOk};
ghost use Rattle.std.specs.List.{flat_map};
ghost use Rattle.cb_levels.specs.declared.line.LevelLine.TheVariants as line;
ghost use Rattle.cb_levels.specs.Text.{levels_text, ended_line, node_part, entry_part};
ghost use Rattle.cb_levels.specs.Format.{IsLevels, SpellsLevels};

use crate::levels::{LevelEntry, Levels};
use cb_model::NodeName;
use itoa::Buffer;
use std::alloc::{AllocError, Global};

/// The one text of levels of the format.
pub fn write_levels(alloc: Global, levels: &Levels) -> Result<Vec<u8>, AllocError>
    requires { IsLevels levels.now }
    ensures text { IfOk result (λ text. text.items ≡ levels_text levels.now) }
    ensures spells { IfOk result (λ text. SpellsLevels text.items levels.now) }
{
    let mut out = Vec::from_slice(alloc, b"codebook levels 1\n")?;
    push_nodes(&mut out, levels.nodes.as_slice())?;
    push_entries(&mut out, levels.entries.as_slice())?;
    out.extend_from_slice(b"end\n")?;
    Ok(out)
}

// Adds the lines of nodes.
fn push_nodes(out: &mut Vec<u8>, nodes: &[NodeName]) -> Result<(), AllocError>
    ensures { OnOk result (out.new.items ≡ out.old.items ++ flat_map ended_line (node_part nodes.now)) }
{
    push_count(out, b"nodes ", nodes.len() as u64)?;
    for node in nodes {
        push_node(out, node)?;
    }
    Ok(())
}

// Adds the lines of entries.
fn push_entries(out: &mut Vec<u8>, entries: &[LevelEntry]) -> Result<(), AllocError>
    ensures { OnOk result (out.new.items ≡ out.old.items ++ flat_map ended_line (entry_part entries.now)) }
{
    push_count(out, b"entries ", entries.len() as u64)?;
    for entry in entries {
        push_entry(out, *entry)?;
    }
    Ok(())
}

// Adds words, and the digits of a number.
fn push_number(out: &mut Vec<u8>, words: &[u8], number: u64) -> Result<(), AllocError>
    ensures { OnOk result (out.new.items ≡ out.old.items ++ words.now ++ decimal number) }
{
    let mut digits = Buffer::new();
    out.extend_from_slice(words)?;
    out.extend_from_slice(digits.format(number).as_bytes())
}

// Adds a line of words and a number.
fn push_count(out: &mut Vec<u8>, words: &[u8], number: u64) -> Result<(), AllocError>
    ensures { OnOk result (out.new.items ≡ out.old.items ++ (words.now ++ decimal number ++ codes "\n")) }
{
    push_number(out, words, number)?;
    out.extend_from_slice(b"\n")
}

// Adds the line of a node.
fn push_node(out: &mut Vec<u8>, node: &NodeName) -> Result<(), AllocError>
    ensures { OnOk result (out.new.items ≡ out.old.items ++ ended_line (line.Node node.now)) }
{
    out.extend_from_slice(b"node ")?;
    out.extend_from_slice(node.event.bytes())?;
    out.extend_from_slice(b"@")?;
    out.extend_from_slice(node.instance.bytes())?;
    out.extend_from_slice(b"\n")
}

// Adds the line of an entry.
fn push_entry(out: &mut Vec<u8>, entry: LevelEntry) -> Result<(), AllocError>
    ensures { OnOk result (out.new.items ≡ out.old.items ++ ended_line (line.Entry entry)) }
{
    push_number(out, b"entry ", u64::from(entry.node))?;
    push_number(out, b" ", u64::from(entry.level))?;
    push_number(out, b" ", u64::from(entry.parent))?;
    out.extend_from_slice(b"\n")
}
