//! The command `verify`.
ghost use Rattle.cb_outcome.specs.Commands.Verify.{verify as command};
ghost use Rattle.cb_file_kinds.specs.Ending.{Comes};

use cb_file_kinds::{CertificateFile, Output, read_as, read_network};
use cb_io::Files;
use cb_report::{Fault, Text, accepted_text};
use cb_request::FileName;
use cb_steps::Steps;
use std::alloc::Global;
use std::sync::ledger::Ledger;

/// Reads the three files, and gives what `verify` prints: what the certificate shows.
pub fn verify<'w, F: Files, L: Ledger>(
    alloc: Global,
    files: &mut F,
    model: FileName<'w>,
    topology: FileName<'w>,
    certificate: FileName<'w>,
    steps: &mut Steps<L>,
) -> Result<Output<'w>, Fault<'w>>
    ensures { Comes (command model.entry topology.entry certificate.entry) (F.tells files.old) (F.tells files.new) result }
{
    let topology = read_network(alloc, files, model, topology)?;
    let valid = read_as(
        alloc,
        files,
        certificate,
        CertificateFile { topology, steps },
    )?;
    Ok(Output {
        text: Text::Bytes(accepted_text(alloc, &valid.shown.accepted)?),
        fault: None,
    })
}
