//! The lines of what is reported of a script.
ghost use Rattle.std.specs.Prelude.{◌≡◌, ◌++◌, OnOk};
ghost use Rattle.cb_report.specs.RewoundText.{report_text};

use crate::fault_words::refusal_word;
use crate::piece::push_at_line;
use cb_history::LineReport;
use std::alloc::AllocError;

/// Adds the line of a report.
pub fn push_report(out: &mut Vec<u8>, report: LineReport) -> Result<(), AllocError>
    ensures { OnOk result (out.new.items ≡ out.old.items ++ report_text report) }
{
    match report {
        LineReport::Refused { line, why } => {
            push_at_line(out, b"refused ", line, refusal_word(why))
        }
        LineReport::Nothing { line } => push_at_line(out, b"refused ", line, b"nothing"),
    }
}
