//! The command `model`.
ghost use Rattle.cb_outcome.specs.Commands.Model.{model as command};
ghost use Rattle.cb_file_kinds.specs.Ending.{Comes};

use cb_file_kinds::{Output, TreeFile, read_as};
use cb_io::Files;
use cb_report::{Fault, Text};
use cb_request::FileName;
use cb_syntax::print;
use std::alloc::Global;

/// Reads the file, and gives what `model` prints.
pub fn model<'w, F: Files>(
    alloc: Global,
    files: &mut F,
    model: FileName<'w>,
) -> Result<Output<'w>, Fault<'w>>
    ensures { Comes (command model.entry) (F.tells files.old) (F.tells files.new) result }
{
    let tree = read_as(alloc, files, model, TreeFile)?;
    Ok(Output {
        text: Text::Bytes(print(alloc, &tree)?),
        fault: None,
    })
}
