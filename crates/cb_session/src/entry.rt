//! What a line comes to.
ghost use Rattle.std.specs.Prelude.{◌↔◌, IfOk, IsTrue};
ghost use Rattle.cb_alarm.specs.Lines.{text, IsBlank, ComesTo};
ghost use Rattle.cb_session.specs.State.{log_line_of};
ghost use Rattle.cb_session.specs.Taken.{entry_of_taken};

use crate::line::LogLine;
use cb_alarm::{Scratch, Skip, plain_record, read_record};
use cb_log::{Record, SkipWhy};
use cb_text::has_no_word;
use std::alloc::{AllocError, Global};

/// What a line comes to.
#[derive(Drop)]
pub(crate) enum Taken {
    /// Nothing: it has no word.
    Blank,
    /// It has no record.
    Skipped { number: u64, why: SkipWhy },
    /// A record, with the number of the line.
    Said { number: u64, record: Record },
}

/// What the line comes to. The scratch may be kept from line to line.
pub(crate) fn entry_of(
    alloc: Global,
    scratch: &mut Scratch,
    line: LogLine<'_>,
) -> Result<Taken, AllocError>
    ensures { IfOk result (λ taken. ComesTo (log_line_of line.entry) (entry_of_taken taken)) }
{
    match line {
        LogLine::Text { number, bytes } => entry_of_text(alloc, scratch, number, bytes),
        LogLine::Long { number } => Ok(Taken::Skipped {
            number,
            why: SkipWhy::Long,
        }),
    }
}

// What the line of these bytes comes to. Most lines of a log spell their record plainly; of the others it is found, or why there is none, by
// their JSON value.
fn entry_of_text(
    alloc: Global,
    scratch: &mut Scratch,
    number: u64,
    bytes: &[u8],
) -> Result<Taken, AllocError>
    ensures { IfOk result (λ taken. ComesTo (text number bytes.now) (entry_of_taken taken)) }
{
    if is_blank(bytes) {
        return Ok(Taken::Blank);
    }
    if let Some(record) = plain_record(alloc, scratch, bytes)? {
        return Ok(Taken::Said { number, record });
    }
    match read_record(alloc, bytes) {
        Ok(record) => Ok(Taken::Said { number, record }),
        Err(Skip::Bad(kind)) => Ok(Taken::Skipped {
            number,
            why: SkipWhy::Bad(kind),
        }),
        Err(Skip::NoMemory) => Err(AllocError),
    }
}

// Whether the line has no word.
fn is_blank(line: &[u8]) -> bool
    ensures { IsTrue result ↔ IsBlank line.now }
{
    has_no_word(line)
}
