//! The files that tell a network.
ghost use Rattle.std.specs.Prelude.{IfOk, IfErr};
ghost use Rattle.cb_topo.specs.Numbered.{topology_of};
ghost use Rattle.cb_outcome.specs.Judged.{network};
ghost use Rattle.cb_file_kinds.specs.Ending.{Passed, RunEndsWith, network_files};

use crate::kind::read_as;
use crate::model_file::ModelFile;
use crate::topology_file::TopologyFile;
use cb_io::Files;
use cb_report::Fault;
use cb_request::FileName;
use cb_topo::Topology;
use std::alloc::Global;

/// Reads the model, and then the topology, with which all commands on a network begin.
pub fn read_network<'w, F: Files>(
    alloc: Global,
    files: &mut F,
    model: FileName<'w>,
    topology: FileName<'w>,
) -> Result<Topology, Fault<'w>>
    ensures passed { IfOk result (λ made. Passed (network_files model.entry topology.entry) (network (topology_of made)) (F.tells files.old) (F.tells files.new)) }
    ensures stops { IfErr result (RunEndsWith (network_files model.entry topology.entry) (F.tells files.old) (F.tells files.new)) }
{
    let model = read_as(alloc, files, model, ModelFile)?;
    read_as(alloc, files, topology, TopologyFile { model })
}
