//! What is wrong with levels.
ghost use Rattle.cb_report.specs.LevelTexts.{failed_level_text, level_error_text};
ghost use Rattle.cb_report.specs.Said.{TakesLine};

use crate::level_fault::{FailedLevelCheck, LevelTextError};
use crate::parts::{say, say_counted, say_number, say_successor};
use cb_io::Sink;

/// Says why a text isn't one of levels.
pub(crate) fn say_level_error<E: Sink>(err: &mut E, error: &LevelTextError)
    ensures { TakesLine (E.tells err.old) (E.tells err.new) (level_error_text error.now) }
{
    match error {
        LevelTextError::BadHeader => say(err, &[b"error 5 levels bad-header\n"]),
        LevelTextError::BadLine { line } => {
            say_counted(err, b"error 5 levels bad-line line ", *line)
        }
        LevelTextError::Truncated => say(err, &[b"error 5 levels truncated\n"]),
        LevelTextError::Extra { line } => say_counted(err, b"error 5 levels extra line ", *line),
    }
}

/// Says why levels aren't valid.
pub(crate) fn say_failed_level<E: Sink>(err: &mut E, check: &FailedLevelCheck)
    ensures { TakesLine (E.tells err.old) (E.tells err.new) (failed_level_text check.now) }
{
    match check {
        FailedLevelCheck::BadNode { place } => {
            say_number(err, b"error 5 levels bad-node place ", *place)
        }
        FailedLevelCheck::BadRoot { entry } => {
            say_number(err, b"error 5 levels bad-root entry ", *entry)
        }
        FailedLevelCheck::BadParent { entry } => {
            say_number(err, b"error 5 levels bad-parent entry ", *entry)
        }
        FailedLevelCheck::NoEdge { entry } => {
            say_number(err, b"error 5 levels no-edge entry ", *entry)
        }
        FailedLevelCheck::Repeated { entry } => {
            say_number(err, b"error 5 levels repeated entry ", *entry)
        }
        FailedLevelCheck::BadLevel { entry } => {
            say_number(err, b"error 5 levels bad-level entry ", *entry)
        }
        FailedLevelCheck::NotClosed { entry, successor } => say_successor(
            err,
            b"error 5 levels not-closed entry ",
            *entry,
            successor,
        ),
        FailedLevelCheck::NotShort { entry, successor } => say_successor(
            err,
            b"error 5 levels not-short entry ",
            *entry,
            successor,
        ),
    }
}
