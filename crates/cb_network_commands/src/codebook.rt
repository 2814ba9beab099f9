//! The command `codebook`.
ghost use Rattle.std.specs.Prelude.{IfOk};
ghost use Rattle.cb_outcome.specs.Commands.Codebook.{codebook as command};
ghost use Rattle.cb_file_kinds.specs.Ending.{Comes};
ghost use Rattle.cb_report.specs.Text.{bytes_of_text};
ghost use Rattle.cb_network_commands.specs.Written.{CanBeWritten, IsWritten};

use cb_cert::write;
use cb_certify::{Codebook, codebook_of};
use cb_file_kinds::{Output, read_network};
use cb_io::Files;
use cb_model::{GroupName, Wish};
use cb_report::{Fault, Text};
use cb_request::FileName;
use cb_steps::Steps;
use std::alloc::{AllocError, Global};
use std::sync::ledger::Ledger;

/// Reads the two files, and gives what `codebook` prints: the certificate of the codebook for a wanted distance or a cap, or that two
/// groups are too close for the distance.
pub fn codebook<'w, F: Files, L: Ledger>(
    alloc: Global,
    files: &mut F,
    model: FileName<'w>,
    topology: FileName<'w>,
    wish: Wish,
    steps: &mut Steps<L>,
) -> Result<Output<'w>, Fault<'w>>
    requires { (command model topology wish).range }
    ensures { Comes (command model.entry topology.entry wish) (F.tells files.old) (F.tells files.new) result }
{
    let topology = read_network(alloc, files, model, topology)?;
    let made = codebook_of(alloc, topology, wish, steps)?;
    let output = written(alloc, made)?;
    Ok(output)
}

// The certificate as its text, and what is wrong if there is no codebook, or if its certificate has too many entries.
fn written<'w>(alloc: Global, made: Codebook) -> Result<Output<'w>, AllocError>
    requires { CanBeWritten made }
    ensures { IfOk result (λ output. IsWritten made (bytes_of_text output.text) output.fault) }
{
    match made {
        Codebook::Certified(certificate) => Ok(Output {
            text: Text::Bytes(write(alloc, &certificate)?),
            fault: None,
        }),
        Codebook::TooManyEntries => Ok(Output {
            text: Text::Bytes(Vec::new(alloc)),
            fault: Some(Fault::LimitEntries),
        }),
        Codebook::TooClose {
            wanted,
            first,
            second,
            distance,
            certificate,
        } => Ok(Output {
            text: Text::Bytes(write(alloc, &certificate)?),
            fault: Some(Fault::Distance {
                wanted,
                first,
                second: GroupName::Least(second),
                distance,
            }),
        }),
    }
}
