//! Symptom files.
ghost use Rattle.std.specs.Prelude.{◌≡◌, OnOk, IfOk, IfErr};
ghost use Rattle.cb_line_files.specs.declared.symptoms.SymptomStop.TheVariants.{NoMemory};
ghost use Rattle.cb_line_files.specs.Symptoms.{SpellsNode, IsSymptomLine, ListsNodes, Stops};
ghost use Rattle.cb_line_files.specs.Steps.{AddsNodes, StopsSymptomLine};

use crate::nodes::{add, in_order};
use cb_model::{List, NodeName};
use cb_text::{first_long, is_passed_over, lines, node_parts, only_word};
use std::alloc::{AllocError, Global};
use std::collections::BTreeSet;

/// Why a symptom file isn't read. Lines are counted from 1.
#[derive(Clone, Copy, Debug, PartialEq, Eq)]
pub enum SymptomStop {
    /// The line is the first that is too long.
    LongLine { line: u64 },
    /// The line is the first that is neither blank, nor a comment, nor one node.
    BadName { line: u64 },
    /// There is not memory enough.
    NoMemory,
}

impl From<AllocError> for SymptomStop {
    ghost from_gives = { λ _ stop. stop ≡ NoMemory };

    fn from(_error: AllocError) -> SymptomStop {
        SymptomStop::NoMemory
    }
}

/// The nodes that are raised, in order and each once.
pub fn read_symptoms(alloc: Global, text: &[u8]) -> Result<List<NodeName>, SymptomStop>
    ensures listed { IfOk result (ListsNodes text.now) }
    ensures stop { IfErr result (Stops text.now) }
{
    if let Some(line) = first_long(text) {
        return Err(SymptomStop::LongLine { line });
    }
    let mut raised = BTreeSet::new(alloc);
    let mut number = 0;
    for line in lines(text) {
        number += 1;
        read_line(alloc, &mut raised, line, number)?;
    }
    Ok(in_order(alloc, raised)?)
}

// Adds the node of a line, unless the line is ignored.
fn read_line(
    alloc: Global,
    raised: &mut BTreeSet<NodeName>,
    line: &[u8],
    number: u64,
) -> Result<(), SymptomStop>
    ensures good { OnOk result (IsSymptomLine line.now) }
    ensures added { OnOk result (AddsNodes (SpellsNode line.now) raised.old.keys raised.new.keys) }
    ensures stop { IfErr result (StopsSymptomLine number line.now) }
{
    if is_passed_over(line) {
        return Ok(());
    }
    let bad = SymptomStop::BadName { line: number };
    let word = only_word(line).ok_or(bad)?;
    let (event, instance) = node_parts(word).ok_or(bad)?;
    add(raised, NodeName::of(alloc, event, instance)?)?;
    Ok(())
}
