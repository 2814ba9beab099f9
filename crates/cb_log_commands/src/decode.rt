//! The command `decode`.
ghost use Rattle.std.specs.Prelude.{◌≡◌, ◌≤◌, IfOk};
ghost use Rattle.cb_network.specs.Topology.{Topology as TopologyOf};
ghost use Rattle.cb_cert.specs.declared.certificate.Certificate.{Certificate};
ghost use Rattle.cb_outcome.specs.Commands.Decode.{decode as command};
ghost use Rattle.cb_outcome.specs.LogJobs.{Watch};
ghost use Rattle.cb_log_commands.specs.Following.{EndsLog};
ghost use Rattle.cb_file_kinds.specs.Given.{IsGivenBy, IsGivenBySome};
ghost use Rattle.cb_log_commands.specs.Fixed.{StandsFixed, stated_of};
ghost use Rattle.cb_log_commands.specs.Telling.{OpensAfter};
ghost use Rattle.cb_log_commands.specs.Ways.{Ends};
ghost use Rattle.cb_file_kinds.specs.Ending.{wrong};

use crate::follow::follow;
use cb_cache::Cache;
use cb_file_kinds::{BookFile, GivenBook, GivenWish, ShownBook, read_as, read_network};
use cb_io::{Files, Sink, write_all};
use cb_report::Fault;
use cb_request::FileName;
use cb_session::{Session, StatedBook, StatedWish};
use cb_steps::Steps;
use std::alloc::{AllocError, Global};
use std::sync::ledger::Ledger;

/// The files of `decode`.
#[derive(Drop)]
pub struct DecodeFiles<'w> {
    pub model: FileName<'w>,
    pub topology: FileName<'w>,
    pub book: FileName<'w>,
    pub log: FileName<'w>,
}

/// Reads the model, the topology and the certificate of a codebook, writes what the certificate shows, and then follows the log by it.
pub fn decode<'w, F: Files, O: Sink, L: Ledger>(
    alloc: Global,
    files: &mut F,
    out: &mut O,
    names: DecodeFiles<'w>,
    window: u64,
    steps: &mut Steps<L>,
) -> Result<(), Fault<'w>>
    requires { (command names.model names.topology names.book names.log window).range }
    ensures { Ends (command names.entry.model names.entry.topology names.entry.book names.entry.log window) (F.tells files.old) (F.tells files.new)
        (O.tells out.old) (O.tells out.new) (wrong result) }
{
    let topology = read_network(alloc, files, names.model, names.topology)?;
    let kind = BookFile {
        topology,
        steps: &mut *steps,
    };
    let ShownBook { book, line } = read_as(alloc, files, names.book, kind)?;
    let mut session = session_over(alloc, book, window, steps)?;
    let end = follow_rest(alloc, files, out, &line, names.log, &mut session, steps);
    drop(session);
    end
}

// A session at the beginning of a log, by the codebook.
fn session_over<L: Ledger>(
    alloc: Global,
    given: GivenBook,
    window: u64,
    steps: &mut Steps<L>,
) -> Result<Session, AllocError>
    requires given { IsGivenBySome given }
    requires window { 1 ≤ window }
    ensures { IfOk result (λ session. (t : TopologyOf) (c : Certificate) → IsGivenBy t c given → StandsFixed t c window session) }
{
    let GivenBook {
        wish,
        nodes,
        columns,
        graph,
    } = given;
    let cache = Cache::open(alloc, graph, steps)?;
    let _typed = cache.graph().topology().model();
    let stated = StatedBook {
        wish: to_stated(wish),
        nodes,
        columns,
    };
    Session::by_stated(alloc, cache, stated, window)
}

// What a given codebook keeps, as a session asks for it.
fn to_stated(wish: GivenWish) -> StatedWish
    ensures { result ≡ stated_of wish }
{
    match wish {
        GivenWish::Plain(distance) => StatedWish::Plain(distance),
        GivenWish::Cap { cap, radii } => StatedWish::Cap { cap, radii },
    }
}

// Writes a text, and follows a log after it.
fn follow_rest<'w, F: Files, O: Sink, L: Ledger>(
    alloc: Global,
    files: &mut F,
    out: &mut O,
    opening: &[u8],
    log: FileName<'w>,
    session: &mut Session,
    steps: &mut Steps<L>,
) -> Result<(), Fault<'w>>
    ensures { (watch : Watch) → OpensAfter watch opening.now session.old
        → EndsLog watch log.entry (F.tells files.old) (F.tells files.new) (O.tells out.old) (O.tells out.new) (wrong result) }
{
    if write_all(out, opening).is_err() {
        return Err(Fault::WriteFault);
    }
    follow(alloc, files, out, log, session, steps)
}
