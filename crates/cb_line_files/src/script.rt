//! Scripts.
ghost use Rattle.std.specs.Prelude.{◌≡◌, ◌↔◌, ◌∷◌, [], ◌++◌, codes, IsTrue, IfOk, IfErr, OnOk};
ghost use Rattle.cb_text.specs.Words.{words_of, IsPassedOver};
ghost use Rattle.cb_line_files.specs.declared.script.ScriptStop.TheVariants.{NoMemory};
ghost use Rattle.cb_line_files.specs.Scripts.{SpellsMove, ReadsScript, HaveGoodNames, StopsScript};
ghost use Rattle.cb_line_files.specs.Steps.{AddsMove, StopsMove, StopsScriptLine, move_stop};

use cb_edits::{EditText, read_edit};
use cb_history::{Move, ScriptLine};
use cb_text::{first_long, is_passed_over, lines, only_word};
use std::alloc::{AllocError, Global};

/// Why a script isn't read. Lines are counted from 1.
#[derive(Clone, Copy, Debug, PartialEq, Eq)]
pub enum ScriptStop {
    /// The line is the first that is too long.
    LongLine { line: u64 },
    /// The line is the first that is neither blank, nor a comment, nor an edit, nor an undo.
    BadWords { line: u64 },
    /// There is not memory enough.
    NoMemory,
}

impl From<AllocError> for ScriptStop {
    ghost from_gives = { λ _ stop. stop ≡ NoMemory };

    fn from(_error: AllocError) -> ScriptStop {
        ScriptStop::NoMemory
    }
}

/// The edits and undos of a script, in order.
pub fn read_script(alloc: Global, text: &[u8]) -> Result<Vec<ScriptLine>, ScriptStop>
    ensures read { IfOk result (λ script. ReadsScript text.now script.items) }
    ensures names { IfOk result (λ script. HaveGoodNames script.items) }
    ensures stop { IfErr result (StopsScript text.now) }
{
    if let Some(line) = first_long(text) {
        return Err(ScriptStop::LongLine { line });
    }
    let mut script = Vec::new(alloc);
    let mut number = 0;
    for line in lines(text) {
        number += 1;
        read_line(alloc, &mut script, line, number)?;
    }
    Ok(script)
}

// Adds the edit or the undo of the line of this number, unless the line is ignored.
fn read_line(
    alloc: Global,
    script: &mut Vec<ScriptLine>,
    line: &[u8],
    number: u64,
) -> Result<(), ScriptStop>
    ensures adds { OnOk result (AddsMove number line.now script.old.items script.new.items) }
    ensures stop { IfErr result (StopsScriptLine number line.now) }
{
    if is_passed_over(line) {
        return Ok(());
    }
    let what = read_move(alloc, line, number)?;
    add(script, ScriptLine { line: number, what })?;
    Ok(())
}

// Adds an edit or an undo.
fn add(script: &mut Vec<ScriptLine>, line: ScriptLine) -> Result<(), AllocError>
    ensures { OnOk result (script.new.items ≡ script.old.items ++ line ∷ []) }
{
    script.push(line)?;
    Ok(())
}

// The edit or the undo of a line.
fn read_move(alloc: Global, line: &[u8], number: u64) -> Result<Move, ScriptStop>
    ensures spells { IfOk result (SpellsMove line.now) }
    ensures stop { IfErr result (StopsMove number line.now) }
{
    if is_undo(line) {
        return Ok(Move::Undo);
    }
    match read_edit(alloc, line) {
        Ok(edit) => Ok(Move::Make(edit)),
        Err(text) => Err(no_move(number, text)),
    }
}

// The one word of the line is `undo`.
fn is_undo(line: &[u8]) -> bool
    ensures { IsTrue result ↔ (words_of line.now ≡ codes "undo" ∷ []) }
{
    match only_word(line) {
        Some(word) => word == b"undo".as_slice(),
        None => false,
    }
}

// Why the line has no move.
fn no_move(line: u64, text: EditText) -> ScriptStop
    ensures { result ≡ move_stop line text }
{
    match text {
        EditText::BadWords => ScriptStop::BadWords { line },
        EditText::NoMemory => ScriptStop::NoMemory,
    }
}
