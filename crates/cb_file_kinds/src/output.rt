//! What a command has for the output, and how it is written.
ghost use Rattle.std.specs.Prelude.{Ok};
ghost use Rattle.cb_file_kinds.specs.Ending.{Delivers, wrong};

use cb_io::Sink;
use cb_report::{Fault, Text};

/// The text for the output, and the fault that comes beside it, if there is one.
#[derive(Drop)]
pub struct Output<'w> {
    pub text: Text,
    pub fault: Option<Fault<'w>>,
}

/// Writes what a command has made, if it has made something. What is wrong is reported by the caller.
pub fn deliver<'w, O: Sink>(
    made: Result<Output<'w>, Fault<'w>>,
    out: &mut O,
) -> Result<(), Fault<'w>>
    ensures { Delivers made.entry (wrong result) (O.tells out.old) (O.tells out.new) }
{
    match made {
        Ok(output) => write(output, out),
        Err(fault) => Err(fault),
    }
}

// Writes the text, and then reports the fault that comes beside it.
fn write<'w, O: Sink>(output: Output<'w>, out: &mut O) -> Result<(), Fault<'w>>
    ensures { Delivers (Ok output.entry) (wrong result) (O.tells out.old) (O.tells out.new) }
{
    let Output { text, fault } = output;
    if text.write(out).is_err() {
        return Err(Fault::WriteFault);
    }
    match fault {
        Some(fault) => Err(fault),
        None => Ok(()),
    }
}
