//! The end of a run: one line on the error sink tells what is wrong, if something is.
ghost use Rattle.std.specs.Prelude.{◌≡◌};
ghost use Rattle.cb_report.specs.Faults.{ending};
ghost use Rattle.cb_report.specs.FaultTexts.{fault_line_text};
ghost use Rattle.cb_report.specs.Said.{TakesLine};
ghost use Rattle.cb_file_kinds.specs.Ending.{wrong};

use cb_io::Sink;
use cb_report::{Fault, Status, say_fault};

/// Tells on the error sink what is wrong, and answers the status. A failing error sink changes no status.
pub(crate) fn conclude<E: Sink>(end: Result<(), Fault<'_>>, err: &mut E) -> Status
    ensures status { result ≡ ending (wrong end.entry) }
    ensures says { TakesLine (E.tells err.old) (E.tells err.new) (fault_line_text (wrong end.entry)) }
{
    match end {
        Ok(()) => Status::Done,
        Err(fault) => {
            say_fault(err, &fault);
            fault.status()
        }
    }
}
