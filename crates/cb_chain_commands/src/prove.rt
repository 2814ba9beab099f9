//! The command `prove`.
ghost use Rattle.cb_outcome.specs.Commands.Prove.{prove as command};
ghost use Rattle.cb_file_kinds.specs.Ending.{Comes};

use cb_file_kinds::{Output, read_network, read_proved};
use cb_io::Files;
use cb_report::{Fault, Text, proved_text};
use cb_request::FileName;
use cb_steps::Steps;
use std::alloc::Global;
use std::sync::ledger::Ledger;

/// Reads the three files, and gives what `prove` prints: what the levels show.
pub fn prove<'w, F: Files, L: Ledger>(
    alloc: Global,
    files: &mut F,
    model: FileName<'w>,
    topology: FileName<'w>,
    levels: FileName<'w>,
    steps: &mut Steps<L>,
) -> Result<Output<'w>, Fault<'w>>
    ensures comes { Comes (command model.entry topology.entry levels.entry) (F.tells files.old) (F.tells files.new) result }
    ensures steps { (command model.entry topology.entry levels.entry).counts (F.tells files.old) (F.tells files.new) steps.old steps.new }
{
    let topology = read_network(alloc, files, model, topology)?;
    let valid = read_proved(alloc, files, levels, topology, steps)?;
    Ok(Output {
        text: Text::Bytes(proved_text(alloc, &valid.proved)?),
        fault: None,
    })
}
