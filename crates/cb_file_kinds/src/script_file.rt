//! Scripts.
ghost use Rattle.std.specs.Prelude.{◌≡◌};
ghost use Rattle.cb_topo.specs.Numbered.{topology_of};
ghost use Rattle.cb_outcome.specs.Roles.{Role};
ghost use Rattle.cb_outcome.specs.Judged.{network, scripted};
ghost use Rattle.cb_line_files.specs.Scripts.{HaveGoodNames};
ghost use Rattle.cb_file_kinds.specs.Faults.{fault_of_script};

use crate::kind::{FileKind, MOST_BYTES};
use cb_history::ScriptLine;
use cb_line_files::{ScriptStop, read_script};
use cb_report::Fault;
use cb_request::FileName;
use cb_topo::Topology;
use std::alloc::Global;

/// A script, after the topology.
#[derive(Drop)]
pub struct ScriptFile<'t> {
    pub topology: &'t Topology,
}

impl<'t> FileKind for ScriptFile<'t> {
    type Value = Vec<ScriptLine>;

    ghost role = { Role.script };

    ghost before = { λ file known. known ≡ network (topology_of file.topology.now) };

    ghost after = { λ file script known. (known ≡ scripted (topology_of file.topology.now) script.items) × HaveGoodNames script.items };

    fn most_bytes(&self) -> usize {
        MOST_BYTES
    }

    fn judge<'w>(
        self,
        alloc: Global,
        name: FileName<'w>,
        text: &[u8],
    ) -> Result<Vec<ScriptLine>, Fault<'w>> {
        match read_script(alloc, text) {
            Ok(script) => Ok(script),
            Err(stop) => Err(fault_of(name, stop)),
        }
    }
}

// The fault of a script that isn't read.
fn fault_of(name: FileName<'_>, stop: ScriptStop) -> Fault<'_>
    ensures { result ≡ fault_of_script name.entry stop }
{
    match stop {
        ScriptStop::LongLine { line } => Fault::LimitLine { name, line },
        ScriptStop::BadWords { line } => Fault::ScriptWords { line },
        ScriptStop::NoMemory => Fault::Memory,
    }
}
