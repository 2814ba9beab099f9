//! The command `grow`.
ghost use Rattle.std.specs.Prelude.{◌⊎◌, ◌≤◌, IfOk, IfErr};
ghost use Rattle.cb_io.specs.Outside.{FilesReport};
ghost use Rattle.cb_outcome.specs.Commands.Grow.{grow as command};
ghost use Rattle.cb_gen.specs.Log.{log_text as made_up_log};
ghost use Rattle.cb_outcome.specs.Grown.{MakesUp, HasMadeUpFault};
ghost use Rattle.cb_outcome.specs.Costs.{CountsLog, CountsGrow};
ghost use Rattle.cb_topo.specs.Numbered.{topology_of};
ghost use Rattle.cb_file_kinds.specs.Ending.{Comes};
ghost use Rattle.cb_file_kinds.specs.Kinds.{IsWant};
ghost use Rattle.cb_log_commands.specs.Summing.{AnswersFault, GivesSummary};

use crate::correlate::{Correlation, open_session};
use crate::sum_up::sum_up;
use cb_check::check;
use cb_file_kinds::Output;
use cb_gen::{log_text, model_text, topology_text};
use cb_line_files::{LineFault, TopologyStop, read_topology};
use cb_model::Wish;
use cb_report::{Fault, Status, Summary, Text, grow_text};
use cb_steps::Steps;
use cb_syntax::parse;
use cb_topo::Topology;
use std::alloc::{AllocError, Global};
use std::sync::ledger::Ledger;

/// Codebooks are wanted at this distance, and windows have this length.
const ASKED: Correlation = Correlation {
    wish: Wish::Plain(2),
    window: 40,
};

/// Makes up a network of `sites` sites and a log of it, follows the log as `correlate` does, and gives what `grow` prints of that.
pub fn grow<'w, L: Ledger>(
    alloc: Global,
    sites: u64,
    start: u64,
    steps: &mut Steps<L>,
) -> Result<Output<'w>, Fault<'w>>
    requires { (command sites start).range }
    ensures comes { (files : FilesReport) → Comes (command sites start) files files result }
    ensures steps { CountsGrow sites start steps.old steps.new }
{
    match made_up(alloc, sites as u32) {
        Ok(topology) => Ok(Output {
            text: Text::Bytes(summary_of(alloc, topology, sites as u32, start, steps)?),
            fault: None,
        }),
        Err(fault) => refused(alloc, fault),
    }
}

// The network of the model and the topology that are made up.
fn made_up<'w>(alloc: Global, sites: u32) -> Result<Topology, Fault<'w>>
    requires some { 1 ≤ sites }
    requires few { sites ≤ 256 }
    ensures network { IfOk result (λ made. MakesUp sites (topology_of made)) }
    ensures fault { IfErr result (λ fault. IsWant fault ⊎ HasMadeUpFault sites fault) }
{
    let model = model_text(alloc)?;
    let tree = parse(alloc, &model)?;
    let tables = check(alloc, &tree)?;
    let topology = topology_text(alloc, sites)?;
    match read_topology(alloc, tables, &topology) {
        Ok(topology) => Ok(topology),
        Err(TopologyStop::LongLine { .. }) => unreachable!(),
        Err(TopologyStop::BadLine { line, fault }) => match fault {
            LineFault::BadWords => Err(Fault::EditWords { line }),
            LineFault::Refused(why) => Err(Fault::Edit { line, why }),
        },
        Err(TopologyStop::NoMemory) => Err(Fault::Memory),
    }
}

// What is printed of the log that is made up, followed from the network.
fn summary_of<L: Ledger>(
    alloc: Global,
    topology: Topology,
    sites: u32,
    start: u64,
    steps: &mut Steps<L>,
) -> Result<Vec<u8>, AllocError>
    requires some { 1 ≤ sites }
    requires few { sites ≤ 256 }
    ensures gives { IfOk result (λ text. GivesSummary sites start (topology_of topology) text.items) }
    ensures steps { CountsLog (topology_of topology) (made_up_log sites start) steps.old steps.new }
{
    let log = log_text(alloc, sites, start)?;
    let mut session = open_session(alloc, topology, ASKED, steps)?;
    let mut summary = Summary::new(sites, start);
    let end = sum_up(alloc, &log, &mut session, &mut summary, steps);
    drop(session);
    end?;
    grow_text(alloc, &summary)
}

// What is wrong with what was made up, as an output without bytes, unless memory ran out.
fn refused<'w>(alloc: Global, fault: Fault<'w>) -> Result<Output<'w>, Fault<'w>>
    ensures { AnswersFault fault.entry result }
{
    match fault.status() {
        Status::Memory => Err(fault),
        _ => Ok(Output {
            text: Text::Bytes(Vec::new(alloc)),
            fault: Some(fault),
        }),
    }
}
