//! The top call.
ghost use Rattle.std.specs.Prelude.{◌≡◌, []};
ghost use Rattle.cb_outcome.specs.Asked.{command_in};
ghost use Rattle.cb_outcome.specs.Command.{file_words};
ghost use Rattle.cb_outcome.specs.Clauses.{AnswersOutcome, WritesDue, KeepsQuiet, SaysStatus, ReadsInOrder, Blames, IsComplete, BoundsSteps};
ghost use Rattle.cb_outcome.specs.Ends.{MayEnd};
ghost use Rattle.cb_outcome.specs.Finds.{Finds};
ghost use Rattle.cb_outcome.specs.Seen.{seen_from};
ghost use Rattle.cb_log_commands.specs.Ways.{Ends};
ghost use Rattle.cb_file_kinds.specs.Ending.{wrong};

use crate::conclude::conclude;
use crate::perform::perform;
use cb_io::{Files, Sink};
use cb_report::{Fault, Status};
use cb_request::Request;
use cb_steps::Steps;
use std::alloc::Global;
use std::sync::ledger::Ledger;

/// Does what the words of the command line say: reads the files that they name, writes the output to `out`, and where
/// the status isn't `Done`, one line to `err`.
pub fn run<F: Files, O: Sink, E: Sink, L: Ledger>(
    alloc: Global,
    words: &[String],
    files: &mut F,
    out: &mut O,
    err: &mut E,
    steps: &mut Steps<L>,
) -> Status
    // What comes out. At every status but 8, 9 and 10 status, output, line and the files read are those of the outcome.
    ensures answer { AnswersOutcome (command_in words.now) result (seen_from F.tells O.tells E.tells files.old files.new out.old out.new err.old err.new) }
    // At each, what was written is a prefix of what was due at some point of the run.
    ensures prefix { WritesDue (command_in words.now) (seen_from F.tells O.tells E.tells files.old files.new out.old out.new err.old err.new) }
    // At 2, 3, 4, 5, 12 and 13 nothing was written; at 7, 8 and 10 nothing, unless the run has come to a log.
    ensures quiet { KeepsQuiet (command_in words.now) result (seen_from F.tells O.tells E.tells files.old files.new out.old out.new err.old err.new) }
    // The line is that of a fault of this status, which names no file but a file word; at 0 there is none.
    ensures line { SaysStatus (command_in words.now) result (seen_from F.tells O.tells E.tells files.old files.new out.old out.new err.old err.new) }

    // Which words end how, whatever the files have: 2 comes exactly where they are none of the table, 4 only for commands with a topology and for
    // `grow`, 12 only for `levels`, and 13 only for `pairs`.
    ensures ends { MayEnd (command_in words.now) result }
    // Nothing is read where no word names a file.
    ensures unread { file_words (command_in words.now) ≡ [] → files.new ≡ files.old }

    // What was read: files in the order of the words, each whole before the next, and no other.
    ensures order { ReadsInOrder (command_in words.now) (seen_from F.tells O.tells E.tells files.old files.new out.old out.new err.old err.new) }
    // At 8 a read of the file failed that the line names, and those before it have passed; at 9 a write failed, once all have passed, and the
    // log was read at most 65,536 bytes past the first line whose events weren't all written; at 10 in a log all was written that was due at
    // a point of it.
    ensures fault { Blames (command_in words.now) result (seen_from F.tells O.tells E.tells files.old files.new out.old out.new err.old err.new) }

    // Where no read of a file word and no write fails, the run answers the outcome, or 10.
    ensures complete { IsComplete (command_in words.now) result (seen_from F.tells O.tells E.tells files.old files.new out.old out.new err.old err.new) }

    // The headline: what `burst` prints at 0 are exactly the groups nearest to what is raised, by codes from what causes what; and
    // where no more symptoms of one group are lost or spurious than the radius says, that group alone, and it is sure. What
    // `codebook` prints at 0 and at 6 is a valid certificate, and at 6 its line names two groups that are closer than wanted, with their
    // distance. What `pairs` prints at 0 are exactly the nearest guesses, of one group or of two, and within the radius of one exactly those with
    // its code. What `explain` prints at 0 are the groups as those of `burst`, and of each exactly the short chains from its members to the
    // columns that they cause. What `levels` prints at 0 spells valid levels, and those that `prove` accepts are valid: they list exactly what their
    // problem causes, each node with its least number of edges. What `rewind` prints at 0 is the matrix of the topology to which the edits and
    // undos of the script lead in order, after what is reported of its lines. Of each window of a log that `correlate` or `decode` follows to 0 the same as of
    // `burst` is said, over the codebook in use and by the radius of each group, and each thin line names two groups that are closer than wanted, too.
    // No distance of 1 is refused so, nor a cap.
    ensures finds { Finds (command_in words.now) result (seen_from F.tells O.tells E.tells files.old files.new out.old out.new err.old err.new) }
    // How many steps are counted. None by `model`, nor where the words are no command. By `burst`, `matrix` and `pairs` no more than it costs to
    // search from each problem of the topology. By `explain` no more than that, and then from each problem of a listed group but `quiet` as many
    // as it causes nodes. By `levels` no more than its problem causes nodes. By `prove` no more than the levels have entries. By `rewind` no more
    // than it costs to search from each problem of the topology that the script leaves. By `correlate` and `grow` no more than it costs to search
    // from each problem of the topology, and again after each edit of the log for the problems that it makes dirty or new; of `correlate` as far
    // as the log was read. By all of these none where no topology results. Of `codebook`, `verify` and `decode` nothing is said.
    ensures steps { BoundsSteps (command_in words.now) (seen_from F.tells O.tells E.tells files.old files.new out.old out.new err.old err.new) steps.old steps.new }
{
    let end = answer(alloc, words, files, out, steps);
    conclude(end, err)
}

// Does what is asked for, but for telling what is wrong.
fn answer<'w, F: Files, O: Sink, L: Ledger>(
    alloc: Global,
    words: &'w [String],
    files: &mut F,
    out: &mut O,
    steps: &mut Steps<L>,
) -> Result<(), Fault<'w>>
    ensures ends { Ends (command_in words.now) (F.tells files.old) (F.tells files.new) (O.tells out.old) (O.tells out.new) (wrong result) }
    ensures unread { file_words (command_in words.now) ≡ [] → files.new ≡ files.old }
    ensures steps { (command_in words.now).counts (F.tells files.old) (F.tells files.new) steps.old steps.new }
{
    match Request::of(words) {
        Some(request) => perform(alloc, request, files, out, steps),
        None => Err(Fault::Usage),
    }
}
