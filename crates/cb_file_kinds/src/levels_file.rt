//! Files of levels.
ghost use Rattle.std.specs.Prelude.{◌≡◌, ◌⊎◌, ◌≤◌, ◌+◌, length, IfOk, IfErr, IfSome};
ghost use Rattle.cb_io.specs.Outside.{left_of};
ghost use Rattle.cb_levels.specs.Format.{IsLevels};
ghost use Rattle.cb_topo.specs.Numbered.{topology_of};
ghost use Rattle.cb_outcome.specs.Roles.{Role, byte_limit};
ghost use Rattle.cb_outcome.specs.Costs.{CountsEntries};
ghost use Rattle.cb_outcome.specs.Judged.{network, IsLevelRejection};
ghost use Rattle.cb_file_kinds.specs.Kinds.{file_in_role, IsWant, AreProved, IsLevelled, SaysAfter, StopsJudging, ReadsOnly, ReadsSaying, StopsReading};

use crate::certificate_file::MOST_BYTES;
use crate::kind::unread;
use cb_explain::check_levels;
use cb_graph::Graph;
use cb_io::{Files, read_whole};
use cb_levels::{Levels, Proved, read_levels};
use cb_report::Fault;
use cb_request::FileName;
use cb_steps::Steps;
use cb_text::first_long;
use cb_topo::Topology;
use std::alloc::Global;
use std::sync::ledger::Ledger;

/// Levels that are valid for a topology, and what they show.
#[derive(Drop)]
pub struct ProvedLevels {
    pub levels: Levels,
    pub proved: Proved,
}

/// Reads a file of levels, after the topology, and judges it. To check levels, edges are asked for, which are counted.
pub fn read_proved<'w, F: Files, L: Ledger>(
    alloc: Global,
    files: &mut F,
    name: FileName<'w>,
    topology: Topology,
    steps: &mut Steps<L>,
) -> Result<ProvedLevels, Fault<'w>>
    ensures value { IfOk result (λ value. ReadsSaying Role.levels name.entry (λ known. known ≡ network (topology_of topology)) (IsLevelled (topology_of topology) value)
        (F.tells files.old) (F.tells files.new)) }
    ensures stops { IfErr result (StopsReading Role.levels name.entry (λ known. known ≡ network (topology_of topology)) (F.tells files.old) (F.tells files.new)) }
    ensures only { ReadsOnly name.entry (F.tells files.old) (F.tells files.new) }
    ensures steps { IfSome (left_of (F.tells files.old) name.entry) (λ text. CountsEntries text steps.old steps.new) }
{
    match read_whole(alloc, files, name.as_str(), MOST_BYTES) {
        Ok(text) => judge(alloc, topology, name, &text, steps),
        Err(stop) => Err(unread(name, stop)),
    }
}

// The levels of a text that isn't too long.
fn judge<'w, L: Ledger>(
    alloc: Global,
    topology: Topology,
    name: FileName<'w>,
    text: &[u8],
    steps: &mut Steps<L>,
) -> Result<ProvedLevels, Fault<'w>>
    requires { length text.now ≤ byte_limit Role.levels }
    ensures says { IfOk result (λ value. SaysAfter (λ known. known ≡ network (topology_of topology)) (IsLevelled (topology_of topology) value)
        (file_in_role Role.levels name.entry text.now)) }
    ensures stops { IfErr result (StopsJudging (λ known. known ≡ network (topology_of topology)) (file_in_role Role.levels name.entry text.now)) }
    ensures steps { CountsEntries text.now steps.old steps.new }
{
    if let Some(line) = first_long(text) {
        return Err(Fault::LimitLine { name, line });
    }
    let levels = read_levels(alloc, text)?;
    match proved_by(alloc, topology, &levels, steps) {
        Ok(proved) => Ok(ProvedLevels { levels, proved }),
        Err(fault) => {
            drop(levels);
            Err(fault)
        }
    }
}

// What the levels show of the topology, or why they aren't valid.
fn proved_by<'w, L: Ledger>(
    alloc: Global,
    topology: Topology,
    levels: &Levels,
    steps: &mut Steps<L>,
) -> Result<Proved, Fault<'w>>
    requires { IsLevels levels.now }
    ensures proved { IfOk result (AreProved (topology_of topology) levels.now) }
    ensures rejected { IfErr result (λ fault. IsWant fault ⊎ IsLevelRejection (topology_of topology) levels.now fault) }
    ensures asked { steps.new ≤ steps.old + length levels.now.entries }
{
    let mut graph = Graph::new(alloc, topology)?;
    match checked(alloc, &mut graph, levels, steps) {
        Ok(proved) => {
            drop(graph);
            Ok(proved)
        }
        Err(fault) => {
            drop(graph);
            Err(fault)
        }
    }
}

// What the levels show of the graph's topology.
fn checked<'w, L: Ledger>(
    alloc: Global,
    graph: &mut Graph,
    levels: &Levels,
    steps: &mut Steps<L>,
) -> Result<Proved, Fault<'w>>
    requires { IsLevels levels.now }
    ensures same { graph.new ≡ graph.old }
    ensures proved { IfOk result (AreProved (topology_of graph.old) levels.now) }
    ensures rejected { IfErr result (λ fault. IsWant fault ⊎ IsLevelRejection (topology_of graph.old) levels.now fault) }
    ensures asked { steps.new ≤ steps.old + length levels.now.entries }
{
    Ok(check_levels(alloc, graph, levels, steps)?)
}
