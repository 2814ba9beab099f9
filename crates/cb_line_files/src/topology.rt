//! Topology files.
ghost use Rattle.std.specs.Prelude.{◌≡◌, OnOk, IfOk, IfErr};
ghost use Rattle.cb_topo.specs.Numbered.{topology_of};
ghost use Rattle.cb_line_files.specs.Topologies.{LineMakes, MakesTopology, Stops};
ghost use Rattle.cb_line_files.specs.Steps.{StopsTopologyLine, text_stop, edit_stop};

use cb_edits::{EditText, read_edit};
use cb_model::Model;
use cb_network::EditRefusal;
use cb_text::{first_long, is_passed_over, lines};
use cb_topo::{EditFault, Topology};
use std::alloc::Global;

/// What is wrong with a line of a topology file.
#[derive(Clone, Copy, Debug, PartialEq, Eq)]
pub enum LineFault {
    /// Its words are no edit.
    BadWords,
    /// Its edit is refused.
    Refused(EditRefusal),
}

/// Why a topology file isn't read. Lines are counted from 1.
#[derive(Clone, Copy, Debug, PartialEq, Eq)]
pub enum TopologyStop {
    /// The line is the first that is too long.
    LongLine { line: u64 },
    /// The line is the first that is wrong.
    BadLine { line: u64, fault: LineFault },
    /// There is not memory enough.
    NoMemory,
}

/// The topology that the lines of a text make.
pub fn read_topology(alloc: Global, model: Model, text: &[u8]) -> Result<Topology, TopologyStop>
    ensures made { IfOk result (λ topology. MakesTopology model text.now (topology_of topology)) }
    ensures stop { IfErr result (Stops model text.now) }
{
    if let Some(line) = first_long(text) {
        return Err(TopologyStop::LongLine { line });
    }
    let mut topology = Topology::new(alloc, model);
    let mut number = 0;
    for line in lines(text) {
        number += 1;
        read_line(alloc, &mut topology, line, number)?;
    }
    Ok(topology)
}

// Makes the edit of the line of this number, unless the line is ignored.
fn read_line(
    alloc: Global,
    topology: &mut Topology,
    line: &[u8],
    number: u64,
) -> Result<(), TopologyStop>
    ensures makes { OnOk result (LineMakes (topology_of topology.old) line.now (topology_of topology.new)) }
    ensures stop { IfErr result (StopsTopologyLine (topology_of topology.old) number line.now) }
{
    if is_passed_over(line) {
        return Ok(());
    }
    match read_edit(alloc, line) {
        Ok(edit) => match topology.apply(alloc, &edit) {
            Ok(()) => Ok(()),
            Err(fault) => Err(not_made(number, fault)),
        },
        Err(text) => Err(no_edit(number, text)),
    }
}

// Why the line is no edit.
fn no_edit(line: u64, text: EditText) -> TopologyStop
    ensures { result ≡ text_stop line text }
{
    match text {
        EditText::BadWords => TopologyStop::BadLine {
            line,
            fault: LineFault::BadWords,
        },
        EditText::NoMemory => TopologyStop::NoMemory,
    }
}

// Why the edit of the line isn't made.
fn not_made(line: u64, fault: EditFault) -> TopologyStop
    ensures { result ≡ edit_stop line fault }
{
    match fault {
        EditFault::Refused(why) => TopologyStop::BadLine {
            line,
            fault: LineFault::Refused(why),
        },
        EditFault::NoMemory => TopologyStop::NoMemory,
    }
}
