//! The command `matrix`.
ghost use Rattle.cb_outcome.specs.Commands.Matrix.{matrix as command};
ghost use Rattle.cb_file_kinds.specs.Ending.{Comes};

use crate::judge::lines_of_matrix;
use cb_file_kinds::{Output, read_network};
use cb_io::Files;
use cb_report::{Fault, Text};
use cb_request::FileName;
use cb_steps::Steps;
use std::alloc::Global;
use std::sync::ledger::Ledger;

/// Reads the two files, and gives what `matrix` prints.
pub fn matrix<'w, F: Files, L: Ledger>(
    alloc: Global,
    files: &mut F,
    model: FileName<'w>,
    topology: FileName<'w>,
    steps: &mut Steps<L>,
) -> Result<Output<'w>, Fault<'w>>
    ensures comes { Comes (command model.entry topology.entry) (F.tells files.old) (F.tells files.new) result }
    ensures steps { (command model.entry topology.entry).counts (F.tells files.old) (F.tells files.new) steps.old steps.new }
{
    let topology = read_network(alloc, files, model, topology)?;
    Ok(Output {
        text: Text::Matrix(lines_of_matrix(alloc, topology, steps)?),
        fault: None,
    })
}
