//! A whole text of levels, read.
ghost use Rattle.std.specs.Prelude.{IfOk, IfErr};
ghost use Rattle.cb_levels.specs.Format.{SpellsLevels};
ghost use Rattle.cb_levels.specs.Steps.{StopsFor};

use crate::fault::LevelText;
use crate::levels::Levels;
use crate::reader::LevelReader;
use std::alloc::Global;

/// The levels that a text spells. The text is read once, line by line, and no line of it is kept. A count that it claims
/// takes no memory before its lines are there.
pub fn read_levels(alloc: Global, text: &[u8]) -> Result<Levels, LevelText>
    ensures levels { IfOk result (SpellsLevels text.now) }
    ensures fault { IfErr result (StopsFor text.now) }
{
    let mut reader = LevelReader::after_header(text)?;
    let nodes = reader.nodes(alloc)?;
    let entries = reader.entries(alloc, nodes.len() as u32)?;
    reader.finish()?;
    Ok(Levels { nodes, entries })
}
