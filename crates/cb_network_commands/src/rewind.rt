//! The command `rewind`.
ghost use Rattle.cb_outcome.specs.Commands.Rewind.{rewind as command};
ghost use Rattle.cb_file_kinds.specs.Ending.{Comes};

use crate::rewinding::lines_of_rewind;
use cb_file_kinds::{Output, ScriptFile, read_as, read_network};
use cb_io::Files;
use cb_report::Fault;
use cb_request::FileName;
use cb_steps::Steps;
use std::alloc::Global;
use std::sync::ledger::Ledger;

/// The files of `rewind`.
#[derive(Drop)]
pub struct RewindFiles<'w> {
    pub model: FileName<'w>,
    pub topology: FileName<'w>,
    pub script: FileName<'w>,
}

/// Reads the three files, and gives what `rewind` prints. A file is judged before the next one is read.
pub fn rewind<'w, F: Files, L: Ledger>(
    alloc: Global,
    files: &mut F,
    names: RewindFiles<'w>,
    depth: u64,
    steps: &mut Steps<L>,
) -> Result<Output<'w>, Fault<'w>>
    requires { (command names.model names.topology names.script depth).range }
    ensures comes { Comes (command names.entry.model names.entry.topology names.entry.script depth) (F.tells files.old) (F.tells files.new) result }
    ensures steps { (command names.entry.model names.entry.topology names.entry.script depth).counts (F.tells files.old) (F.tells files.new) steps.old steps.new }
{
    let topology = read_network(alloc, files, names.model, names.topology)?;
    let kind = ScriptFile {
        topology: &topology,
    };
    let script = read_as(alloc, files, names.script, kind)?;
    let text = lines_of_rewind(alloc, topology, &script, depth as usize, steps)?;
    Ok(Output { text, fault: None })
}
