//! The text of what results from a line, and from the end.
ghost use Rattle.std.specs.Prelude.{◌≡◌, ◌≤◌, ◌++◌, ℕ, List, length, OnOk, IfOk};
ghost use Rattle.cb_alarm.specs.Lines.{log_line_limit};
ghost use Rattle.cb_log_commands.specs.Counting.{CountsGiven, CountsLine};
ghost use Rattle.cb_log_commands.specs.Telling.{TellsGiven, TellsLine, TellsEnd};
ghost use Rattle.cb_session.specs.State.{IsFitting, log_line_of, network_of};

use cb_io::Line;
use cb_report::events_text;
use cb_session::{LogLine, Session};
use cb_steps::Steps;
use std::alloc::{AllocError, Global};
use std::sync::ledger::Ledger;

/// The text of what results from a line of a log that was read, if one was; `bytes` are its own where it isn't too long.
pub(crate) fn text_of_line<L: Ledger>(
    alloc: Global,
    line: Line,
    bytes: &[u8],
    session: &mut Session,
    steps: &mut Steps<L>,
) -> Result<Vec<u8>, AllocError>
    requires { length bytes.now ≤ log_line_limit }
    ensures mode { session.new.mode ≡ session.old.mode }
    ensures length { session.new.windows.length ≡ session.old.windows.length }
    ensures tells { IfOk result (λ text. TellsGiven session.old session.new line bytes.now text.items) }
    ensures counts { CountsGiven (network_of session.old) line bytes.now steps.old steps.new }
{
    match line {
        Line::Text { number } => text_of_step(
            alloc,
            LogLine::Text { number, bytes },
            session,
            steps,
        ),
        Line::Long { number } => text_of_step(alloc, LogLine::Long { number }, session, steps),
        Line::End => Ok(Vec::new(alloc)),
    }
}

// The text of what results from a line.
fn text_of_step<L: Ledger>(
    alloc: Global,
    line: LogLine<'_>,
    session: &mut Session,
    steps: &mut Steps<L>,
) -> Result<Vec<u8>, AllocError>
    requires { IsFitting line }
    ensures mode { session.new.mode ≡ session.old.mode }
    ensures length { session.new.windows.length ≡ session.old.windows.length }
    ensures tells { IfOk result (λ text. TellsLine session.old session.new (log_line_of line.entry) text.items) }
    ensures counts { CountsLine (network_of session.old) (log_line_of line.entry) steps.old steps.new }
{
    let events = session.step(alloc, line, steps)?;
    events_text(alloc, &events)
}

/// Puts the text of what results from the end after a text.
pub(crate) fn text_of_end(
    alloc: Global,
    session: &Session,
    text: &mut Vec<u8>,
) -> Result<(), AllocError>
    ensures { OnOk result ((ends : List ℕ) × TellsEnd session.now ends × (text.new.items ≡ text.old.items ++ ends)) }
{
    let events = session.finish(alloc)?;
    text.extend_from_slice(&events_text(alloc, &events)?)
}
