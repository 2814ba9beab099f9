//! Symptom files.
ghost use Rattle.std.specs.Prelude.{◌≡◌};
ghost use Rattle.cb_model.specs.Order.{Rises};
ghost use Rattle.cb_model.specs.NodeOrder.{node_cmp};
ghost use Rattle.cb_topo.specs.Numbered.{topology_of};
ghost use Rattle.cb_outcome.specs.Roles.{Role};
ghost use Rattle.cb_outcome.specs.Judged.{network, raised};
ghost use Rattle.cb_file_kinds.specs.Faults.{fault_of_symptoms};

use crate::kind::{FileKind, MOST_BYTES};
use cb_line_files::{SymptomStop, read_symptoms};
use cb_model::{List, NodeName};
use cb_report::Fault;
use cb_request::FileName;
use cb_topo::Topology;
use std::alloc::Global;

/// A symptom file, after the topology.
#[derive(Drop)]
pub struct SymptomFile<'t> {
    pub topology: &'t Topology,
}

impl<'t> FileKind for SymptomFile<'t> {
    type Value = List<NodeName>;

    ghost role = { Role.symptoms };

    ghost before = { λ file known. known ≡ network (topology_of file.topology.now) };

    ghost after = { λ file nodes known. (known ≡ raised (topology_of file.topology.now) nodes) × Rises node_cmp nodes };

    fn most_bytes(&self) -> usize {
        MOST_BYTES
    }

    fn judge<'w>(
        self,
        alloc: Global,
        name: FileName<'w>,
        text: &[u8],
    ) -> Result<List<NodeName>, Fault<'w>> {
        match read_symptoms(alloc, text) {
            Ok(nodes) => Ok(nodes),
            Err(stop) => Err(fault_of(name, stop)),
        }
    }
}

// The fault of a symptom file that isn't read.
fn fault_of(name: FileName<'_>, stop: SymptomStop) -> Fault<'_>
    ensures { result ≡ fault_of_symptoms name.entry stop }
{
    match stop {
        SymptomStop::LongLine { line } => Fault::LimitLine { name, line },
        SymptomStop::BadName { line } => Fault::SymptomLine { line },
        SymptomStop::NoMemory => Fault::Memory,
    }
}
