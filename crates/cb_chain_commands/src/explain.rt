//! The command `explain`.
ghost use Rattle.cb_outcome.specs.Commands.Explain.{explain as command};
ghost use Rattle.cb_file_kinds.specs.Ending.{Comes};

use crate::explaining::lines_of_explain;
use cb_file_kinds::{Output, SymptomFile, read_as, read_network};
use cb_io::Files;
use cb_report::{Fault, Text};
use cb_request::FileName;
use cb_steps::Steps;
use std::alloc::Global;
use std::sync::ledger::Ledger;

/// Reads the three files, and gives what `explain` prints. A file is judged before the next one is read.
pub fn explain<'w, F: Files, L: Ledger>(
    alloc: Global,
    files: &mut F,
    model: FileName<'w>,
    topology: FileName<'w>,
    symptoms: FileName<'w>,
    steps: &mut Steps<L>,
) -> Result<Output<'w>, Fault<'w>>
    ensures comes { Comes (command model.entry topology.entry symptoms.entry) (F.tells files.old) (F.tells files.new) result }
    ensures steps { (command model.entry topology.entry symptoms.entry).counts (F.tells files.old) (F.tells files.new) steps.old steps.new }
{
    let topology = read_network(alloc, files, model, topology)?;
    let kind = SymptomFile {
        topology: &topology,
    };
    let raised = read_as(alloc, files, symptoms, kind)?;
    Ok(Output {
        text: Text::Explained(lines_of_explain(alloc, topology, &raised, steps)?),
        fault: None,
    })
}
