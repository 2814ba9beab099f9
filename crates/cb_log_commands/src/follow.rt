//! A log, followed line by line: what results from each is written before the next one is asked for.
ghost use Rattle.std.specs.Prelude.{◌≡◌, ◌⊎◌, ◌<◌, ◌≤◌, ℕ, true, IfOk, IfErr, IfSome, IsErrOf};
ghost use Rattle.cb_alarm.specs.Lines.{log_line_limit};
ghost use Rattle.cb_io.specs.LineReading.{coming, unread, ReadsSame, ReadingGoesOn};
ghost use Rattle.cb_io.specs.Outside.{FilesReport, SinkReport, ReadFailed};
ghost use Rattle.cb_log.specs.Basis.{wanted as for_wanted};
ghost use Rattle.cb_model.specs.declared.wish.Wish.{Wish as WishOf};
ghost use Rattle.cb_outcome.specs.LogJobs.{Watch, log_limit};
ghost use Rattle.cb_log_commands.specs.Counting.{PieceTakes, PieceCounts, HasCounted, CountsOn, CountsTaken};
ghost use Rattle.cb_log_commands.specs.Following.{EndsLog};
ghost use Rattle.cb_file_kinds.specs.Kinds.{ReadsOnly};
ghost use Rattle.cb_log_commands.specs.Telling.{PieceSays, StopSays, ReadsLog, Going, wrong_of, GoesOrEnds, OpensLog};
ghost use Rattle.cb_file_kinds.specs.Ending.{wrong};

use crate::stop::LogStop;
use crate::telling::{text_of_end, text_of_line};
use cb_io::{Files, LineReader, ReadStop, Sink, write_all};
use cb_report::Fault;
use cb_request::FileName;
use cb_session::Session;
use cb_steps::Steps;
use std::alloc::{AllocError, Global};
use std::sync::ledger::Ledger;

/// A line of a log has at most this many bytes, without its LF.
pub const MOST_LINE: usize = 65_536;

/// A log has at most this many bytes.
const MOST_LOG: u64 = 1 << 40;

/// Follows a log from its beginning: writes what results from each line, and then from the end.
pub(crate) fn follow<'w, F: Files, O: Sink, L: Ledger>(
    alloc: Global,
    files: &mut F,
    out: &mut O,
    log: FileName<'w>,
    session: &mut Session,
    steps: &mut Steps<L>,
) -> Result<(), Fault<'w>>
    ensures ends { (watch : Watch) (before : SinkReport) → OpensLog watch session.old before (O.tells out.old)
        → EndsLog watch log.entry (F.tells files.old) (F.tells files.new) before (O.tells out.new) (wrong result) }
    ensures steps { (watch : Watch) (before : SinkReport) (wish : WishOf) → watch.mode ≡ for_wanted wish → OpensLog watch session.old before (O.tells out.old)
        → CountsTaken watch.from log.entry (F.tells files.old) (F.tells files.new) steps.old steps.new }
{
    match follow_lines(alloc, files, out, log.as_str(), session, steps) {
        Ok(()) => Ok(()),
        Err(stop) => Err(stop.fault(log)),
    }
}

// Follows the log in the file of this name.
fn follow_lines<F: Files, O: Sink, L: Ledger>(
    alloc: Global,
    files: &mut F,
    out: &mut O,
    log: &str,
    session: &mut Session,
    steps: &mut Steps<L>,
) -> Result<(), LogStop>
    ensures ends { (watch : Watch) (before : SinkReport) → OpensLog watch session.old before (O.tells out.old)
        → EndsLog watch log.now (F.tells files.old) (F.tells files.new) before (O.tells out.new) (wrong_of log.now result) }
    ensures steps { (watch : Watch) (before : SinkReport) (wish : WishOf) → watch.mode ≡ for_wanted wish → OpensLog watch session.old before (O.tells out.old)
        → CountsTaken watch.from log.now (F.tells files.old) (F.tells files.new) steps.old steps.new }
{
    let mut reader = reader_of(alloc, log)?;
    let end = tell_all(alloc, files, out, &mut reader, session, steps);
    drop(reader);
    end
}

// A reader at the beginning of a log.
fn reader_of(alloc: Global, log: &str) -> Result<LineReader<'_>, AllocError>
    ensures { IfOk result (λ reader. reader ≡ unread log.now log_line_limit log_limit) }
{
    LineReader::new(alloc, log, MOST_LINE, MOST_LOG)
}

// Writes the events of each line, then those of the end of the log.
fn tell_all<F: Files, O: Sink, L: Ledger>(
    alloc: Global,
    files: &mut F,
    out: &mut O,
    reader: &mut LineReader<'_>,
    session: &mut Session,
    steps: &mut Steps<L>,
) -> Result<(), LogStop>
    requires { ReadsLog reader.old }
    ensures ends { (watch : Watch) (now : FilesReport) (before : SinkReport)
        → Going watch now before reader.old (F.tells files.old) (O.tells out.old) session.old
        → EndsLog watch reader.old.name now (F.tells files.new) before (O.tells out.new) (wrong_of reader.old.name result) }
    ensures steps { (watch : Watch) (now : FilesReport) (before : SinkReport) (start : ℕ)
        → Going watch now before reader.old (F.tells files.old) (O.tells out.old) session.old → HasCounted watch now reader.old start steps.old
        → CountsTaken watch.from reader.old.name now (F.tells files.new) start steps.new }
{
    while !tell_next(alloc, files, out, reader, session, steps)? {}
    Ok(())
}

// Writes what results from the next line, and from the end, where no line follows; and says whether that was the end.
fn tell_next<F: Files, O: Sink, L: Ledger>(
    alloc: Global,
    files: &mut F,
    out: &mut O,
    reader: &mut LineReader<'_>,
    session: &mut Session,
    steps: &mut Steps<L>,
) -> Result<bool, LogStop>
    requires { ReadsLog reader.old }
    ensures same { ReadsSame reader.old reader.new }
    ensures goes_on { IfOk result (λ ended. ReadsLog reader.new) }
    ensures advances { IfOk result (λ ended. (ended ≡ true) ⊎ ((reader.old.given < reader.new.given) × (reader.new.given ≤ reader.old.total_most))) }
    ensures tells { (watch : Watch) (now : FilesReport) (before : SinkReport)
        → Going watch now before reader.old (F.tells files.old) (O.tells out.old) session.old
        → GoesOrEnds watch now before reader.new (F.tells files.new) (O.tells out.new) session.new result }
    ensures steps { (watch : Watch) (now : FilesReport) (before : SinkReport) (start : ℕ)
        → Going watch now before reader.old (F.tells files.old) (O.tells out.old) session.old → HasCounted watch now reader.old start steps.old
        → CountsTaken watch.from reader.old.name now (F.tells files.new) start steps.new }
    ensures counts { (watch : Watch) (now : FilesReport) (before : SinkReport) (start : ℕ)
        → Going watch now before reader.old (F.tells files.old) (O.tells out.old) session.old → HasCounted watch now reader.old start steps.old
        → CountsOn watch now reader.new start steps.new result }
{
    let text = next_piece(alloc, files, reader, session, steps)?;
    write_all(out, &text)?;
    Ok(reader.has_ended())
}

// What is to be written next: the events of a line, and those of the end, where no line follows.
fn next_piece<F: Files, L: Ledger>(
    alloc: Global,
    files: &mut F,
    reader: &mut LineReader<'_>,
    session: &mut Session,
    steps: &mut Steps<L>,
) -> Result<Vec<u8>, ReadStop>
    requires { ReadsLog reader.old }
    ensures same { ReadsSame reader.old reader.new }
    ensures goes_on { IfOk result (λ text. ReadingGoesOn reader.new) }
    ensures advances { IfOk result (λ text. (reader.new.ended ≡ true) ⊎ ((reader.old.given < reader.new.given) × (reader.new.given ≤ reader.old.total_most))) }
    ensures only { ReadsOnly reader.old.name (F.tells files.old) (F.tells files.new) }
    ensures failed { IsErrOf result ReadStop.ReadFault → ReadFailed (F.tells files.old) (F.tells files.new) reader.old.name }
    ensures says { IfOk result (λ text. IfSome (coming reader.old (F.tells files.old))
        (PieceSays reader.old reader.new (F.tells files.new) session.old session.new text.items)) }
    ensures stops { IfErr result (λ stop. IfSome (coming reader.old (F.tells files.old)) (StopSays reader.old (F.tells files.new) stop)) }
    ensures takes { IfSome (coming reader.old (F.tells files.old)) (PieceTakes reader.old (F.tells files.new) session.old steps.old steps.new) }
    ensures counts { IfOk result (λ text. IfSome (coming reader.old (F.tells files.old))
        (PieceCounts reader.old reader.new session.old steps.old steps.new)) }
{
    let line = reader.next_line(files)?;
    let mut text = text_of_line(alloc, line, reader.text(), session, steps)?;
    if reader.has_ended() {
        text_of_end(alloc, session, &mut text)?;
    }
    Ok(text)
}
