//! A log that stands in memory, summed up: what results from its lines is counted, and not printed.
ghost use Rattle.std.specs.Prelude.{◌≡◌, ◌↔◌, ◌++◌, List as Items, [], ◌∷◌, false, IsTrue, OnOk};
ghost use Rattle.cb_alarm.specs.Lines.{NumberedLine, numbered_line as line_of_numbered, log_lines, IsBlank};
ghost use Rattle.cb_log.specs.declared.event.Event.{Event as EventOf};
ghost use Rattle.cb_network.specs.Regular.{IsRegular};
ghost use Rattle.cb_network.specs.Topology.{Topology as TopologyOf};
ghost use Rattle.cb_report.specs.SummaryText.{CountsAlone, CountsEvents};
ghost use Rattle.cb_outcome.specs.Grown.{CountsNetwork, SumsUpLog};
ghost use Rattle.cb_session.specs.State.{StandsForEntries, log_line_of, network_of, IsFitting};
ghost use Rattle.cb_topo.specs.Numbered.{topology_of};
ghost use Rattle.cb_log_commands.specs.Counting.{CountsLine, CountsSummed};
ghost use Rattle.cb_log_commands.specs.Summing.{skips, HasSummedUp, KeepsRequest, KeepsCounts};

use crate::follow::MOST_LINE;
use cb_cache::Cache;
use cb_log::Event;
use cb_matrix::Matrix;
use cb_model::List;
use cb_report::Summary;
use cb_session::{LogLine, Session};
use cb_steps::Steps;
use cb_text::{lines, words};
use std::alloc::{AllocError, Global};
use std::sync::ledger::Ledger;

/// Takes a log from its beginning to its end, and counts what results from it, and at last the network as it is then.
pub(crate) fn sum_up<L: Ledger>(
    alloc: Global,
    log: &[u8],
    session: &mut Session,
    summary: &mut Summary,
    steps: &mut Steps<L>,
) -> Result<(), AllocError>
    ensures asked { KeepsRequest summary.old summary.new }
    ensures sums { OnOk result ((opening : TopologyOf) → IsRegular opening.model → StandsForEntries session.old opening []
        → CountsEvents [] summary.old → summary.old.records ≡ 0
        → SumsUpLog opening session.old.mode session.old.windows.length log.now summary.new) }
    ensures counts { CountsSummed session.old summary.old (log_lines log.now) steps.old steps.new }
{
    take_lines(alloc, log, session, summary, steps)?;
    let events = session.finish(alloc)?;
    count_all(summary, &events)?;
    count_network(alloc, session.cache(), summary)
}

// Takes the lines of a log, and counts what results from them.
fn take_lines<L: Ledger>(
    alloc: Global,
    log: &[u8],
    session: &mut Session,
    summary: &mut Summary,
    steps: &mut Steps<L>,
) -> Result<(), AllocError>
    ensures asked { KeepsRequest summary.old summary.new }
    ensures mode { session.new.mode ≡ session.old.mode }
    ensures length { session.new.windows.length ≡ session.old.windows.length }
    ensures takes { OnOk result ((opening : TopologyOf) → IsRegular opening.model → HasSummedUp opening [] session.old summary.old
        → HasSummedUp opening (log_lines log.now) session.new summary.new) }
    ensures counts { CountsSummed session.old summary.old (log_lines log.now) steps.old steps.new }
{
    let mut number = 0;
    for line in lines(log) {
        number += 1;
        take_line(alloc, number, line, session, summary, steps)?;
    }
    Ok(())
}

// Takes a line, and counts what results from it.
fn take_line<L: Ledger>(
    alloc: Global,
    number: u64,
    bytes: &[u8],
    session: &mut Session,
    summary: &mut Summary,
    steps: &mut Steps<L>,
) -> Result<(), AllocError>
    ensures asked { KeepsRequest summary.old summary.new }
    ensures mode { session.new.mode ≡ session.old.mode }
    ensures length { session.new.windows.length ≡ session.old.windows.length }
    ensures takes { OnOk result ((opening : TopologyOf) (before : Items NumberedLine) → IsRegular opening.model → HasSummedUp opening before session.old summary.old
        → HasSummedUp opening (before ++ line_of_numbered (number, bytes.now) ∷ []) session.new summary.new) }
    ensures counts { CountsLine (network_of session.old) (line_of_numbered (number, bytes.now)) steps.old steps.new }
{
    let events = session.step(alloc, log_line(number, bytes), steps)?;
    if is_record(bytes, &events) {
        summary.count_record()?;
    }
    count_all(summary, &events)
}

// The line, without its bytes where they are too many.
fn log_line(number: u64, bytes: &[u8]) -> LogLine<'_>
    ensures line { log_line_of result ≡ line_of_numbered (number, bytes.now) }
    ensures fits { IsFitting result }
{
    if bytes.len() <= MOST_LINE {
        LogLine::Text { number, bytes }
    } else {
        LogLine::Long { number }
    }
}

// Whether a line was a record, by what resulted from it: it is neither blank nor skipped.
fn is_record(bytes: &[u8], events: &List<Event>) -> bool
    ensures { IsTrue result ↔ ((¬ IsBlank bytes.now) × (skips events.now ≡ false)) }
{
    words(bytes).next().is_some() && !is_skip(events)
}

// Whether these events say that a line was skipped.
fn is_skip(events: &List<Event>) -> bool
    ensures { result ≡ skips events.now }
{
    matches!(events.as_slice().first(), Some(Event::Skipped { .. }))
}

// Counts events.
fn count_all(summary: &mut Summary, events: &List<Event>) -> Result<(), AllocError>
    ensures alone { CountsAlone summary.old summary.new }
    ensures counts { OnOk result ((before : Items EventOf) → CountsEvents before summary.old → CountsEvents (before ++ events.now) summary.new) }
{
    for event in events.as_slice() {
        summary.count(event)?;
    }
    Ok(())
}

// Counts the network of a cache.
fn count_network(alloc: Global, cache: &Cache, summary: &mut Summary) -> Result<(), AllocError>
    ensures keeps { KeepsCounts summary.old summary.new }
    ensures counts { OnOk result (CountsNetwork (topology_of cache.now.graph) summary.new) }
{
    let topology = cache.graph().topology();
    // It keeps within its limits.
    let _capacity = topology.node_capacity();
    let matrix = Matrix::of(alloc, cache)?;
    summary.instances = topology.instance_count() as u32;
    summary.nodes = topology.node_count() as u32;
    summary.problems = matrix.problems().len() as u32;
    summary.symptoms = matrix.columns().len() as u32;
    summary.groups = matrix.groups().len() as u32;
    Ok(())
}
