//! Topology files.
ghost use Rattle.std.specs.Prelude.{◌≡◌};
ghost use Rattle.cb_grammar.specs.declared.tree.Tree.{Tree};
ghost use Rattle.cb_check.specs.Stands.{Stands};
ghost use Rattle.cb_topo.specs.Numbered.{topology_of};
ghost use Rattle.cb_outcome.specs.Roles.{Role};
ghost use Rattle.cb_outcome.specs.Judged.{parsed, network};
ghost use Rattle.cb_file_kinds.specs.Faults.{fault_of_topology};

use crate::kind::{FileKind, MOST_BYTES};
use cb_line_files::{LineFault, TopologyStop, read_topology};
use cb_model::Model;
use cb_report::Fault;
use cb_request::FileName;
use cb_topo::Topology;
use std::alloc::Global;

/// A topology file, after the model.
#[derive(Drop)]
pub struct TopologyFile {
    pub model: Model,
}

impl FileKind for TopologyFile {
    type Value = Topology;

    ghost role = { Role.topology };

    ghost before = { λ file known. (tree : Tree) × (known ≡ parsed tree) × Stands tree file.model };

    ghost after = { λ _ topology known. known ≡ network (topology_of topology) };

    fn most_bytes(&self) -> usize {
        MOST_BYTES
    }

    fn judge<'w>(
        self,
        alloc: Global,
        name: FileName<'w>,
        text: &[u8],
    ) -> Result<Topology, Fault<'w>> {
        match read_topology(alloc, self.model, text) {
            Ok(topology) => Ok(topology),
            Err(stop) => Err(fault_of(name, stop)),
        }
    }
}

// The fault of a topology file that isn't read.
fn fault_of(name: FileName<'_>, stop: TopologyStop) -> Fault<'_>
    ensures { result ≡ fault_of_topology name.entry stop }
{
    match stop {
        TopologyStop::LongLine { line } => Fault::LimitLine { name, line },
        TopologyStop::BadLine { line, fault } => match fault {
            LineFault::BadWords => Fault::EditWords { line },
            LineFault::Refused(why) => Fault::Edit { line, why },
        },
        TopologyStop::NoMemory => Fault::Memory,
    }
}
