//! The command `correlate`.
ghost use Rattle.std.specs.Prelude.{◌≡◌, ◌≤◌, ◌+◌, ℕ, [], IfOk};
ghost use Rattle.cb_change.specs.Costs.{IsOpenCost};
ghost use Rattle.cb_log.specs.Basis.{wanted as for_wanted};
ghost use Rattle.cb_network.specs.Regular.{IsRegular};
ghost use Rattle.cb_outcome.specs.Commands.Correlate.{correlate as command};
ghost use Rattle.cb_session.specs.State.{StandsForEntries};
ghost use Rattle.cb_topo.specs.Numbered.{topology_of};
ghost use Rattle.cb_log_commands.specs.Ways.{Ends};
ghost use Rattle.cb_file_kinds.specs.Ending.{wrong};

use crate::follow::follow;
use cb_cache::Cache;
use cb_file_kinds::read_network;
use cb_graph::Graph;
use cb_io::{Files, Sink};
use cb_model::Wish;
use cb_report::Fault;
use cb_request::FileName;
use cb_session::Session;
use cb_steps::Steps;
use cb_topo::Topology;
use std::alloc::{AllocError, Global};
use std::sync::ledger::Ledger;

/// How a log is correlated: what is wanted of codebooks, and the length of windows.
#[derive(Clone, Copy)]
pub struct Correlation {
    pub wish: Wish,
    pub window: u64,
}

/// Reads the model and the topology, and then follows the log. What results from a line is written before the next one is asked for.
pub fn correlate<'w, F: Files, O: Sink, L: Ledger>(
    alloc: Global,
    files: &mut F,
    out: &mut O,
    model: FileName<'w>,
    topology: FileName<'w>,
    log: FileName<'w>,
    asked: Correlation,
    steps: &mut Steps<L>,
) -> Result<(), Fault<'w>>
    requires { (command model topology log asked.wish asked.window).range }
    ensures ends { Ends (command model.entry topology.entry log.entry asked.wish asked.window) (F.tells files.old) (F.tells files.new)
        (O.tells out.old) (O.tells out.new) (wrong result) }
    ensures steps { (command model.entry topology.entry log.entry asked.wish asked.window).counts (F.tells files.old) (F.tells files.new)
        steps.old steps.new }
{
    let topology = read_network(alloc, files, model, topology)?;
    let mut session = open_session(alloc, topology, asked, steps)?;
    let end = follow(alloc, files, out, log, &mut session, steps);
    drop(session);
    end
}

/// A session at the beginning of a log, over the topology.
pub fn open_session<L: Ledger>(
    alloc: Global,
    topology: Topology,
    asked: Correlation,
    steps: &mut Steps<L>,
) -> Result<Session, AllocError>
    requires window { 1 ≤ asked.window }
    ensures mode { IfOk result (λ session. session.mode ≡ for_wanted asked.wish) }
    ensures length { IfOk result (λ session. session.windows.length ≡ asked.window) }
    ensures stands { IfOk result (λ session. StandsForEntries session (topology_of topology) []) }
    ensures regular { IsRegular (topology_of topology).model }
    ensures cost { (cost : ℕ) → IsOpenCost (topology_of topology) cost → steps.new ≤ steps.old + cost }
{
    let _typed = topology.model();
    let graph = Graph::new(alloc, topology)?;
    let cache = Cache::open(alloc, graph, steps)?;
    session_for(alloc, cache, asked)
}

// A session at the beginning of a log, over the topology of a cache.
fn session_for(alloc: Global, cache: Cache, asked: Correlation) -> Result<Session, AllocError>
    requires window { 1 ≤ asked.window }
    ensures mode { IfOk result (λ session. session.mode ≡ for_wanted asked.wish) }
    ensures length { IfOk result (λ session. session.windows.length ≡ asked.window) }
    ensures stands { IfOk result (λ session. StandsForEntries session (topology_of cache.graph) []) }
{
    match asked.wish {
        Wish::Plain(distance) => Session::open(alloc, cache, distance, asked.window),
        Wish::Cap(cap) => Session::open_cap(alloc, cache, cap, asked.window),
    }
}
