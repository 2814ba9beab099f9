//! A script over a topology: what is reported of its lines, and the matrix of the topology that they leave.
ghost use Rattle.std.specs.Prelude.{◌≡◌, ◌≤◌, ◌+◌, ◌∷◌, [], ℕ, IfOk, OnOk};
ghost use Rattle.cb_history.specs.Histories.{History as Past, new_history};
ghost use Rattle.cb_history.specs.Records.{StandFor};
ghost use Rattle.cb_history.specs.declared.moves.Move.TheVariants.{Make as MakeMove, Undo as UndoMove};
ghost use Rattle.cb_line_files.specs.Scripts.{HasGoodMove, HaveGoodNames};
ghost use Rattle.cb_network.specs.Laws.{HasGoodName};
ghost use Rattle.cb_outcome.specs.Costs.{IsRewindCost};
ghost use Rattle.cb_outcome.specs.Jobs.{RewoundMatrix, text_of_rewound};
ghost use Rattle.cb_report.specs.Text.{bytes_of_text};
ghost use Rattle.cb_topo.specs.Numbered.{topology_of};
ghost use Rattle.cb_network_commands.specs.Rewinding.{MovesOn, RunsOn, IsRewound};

use crate::judge::lines_of_matrix;
use cb_history::{LineReport, Move, ScriptLine};
use cb_network::Edit;
use cb_report::{Text, push_report};
use cb_steps::Steps;
use cb_topo::{EditFault, Topology};
use cb_undo::{History, UndoFault};
use std::alloc::{AllocError, Global};
use std::sync::ledger::Ledger;

// What is reported of a script, and the topology that it leaves.
#[derive(Drop)]
struct Rewound {
    reports: Vec<u8>,
    topology: Topology,
}

/// What `rewind` prints, to be written. The topology that the script leaves is the only one that is searched.
pub(crate) fn lines_of_rewind<L: Ledger>(
    alloc: Global,
    topology: Topology,
    script: &[ScriptLine],
    depth: usize,
    steps: &mut Steps<L>,
) -> Result<Text, AllocError>
    requires some { 1 ≤ depth }
    requires few { depth ≤ 1024 }
    requires names { HaveGoodNames script.now }
    ensures text { IfOk result (λ text. (rewound : RewoundMatrix (topology_of topology) script.now depth) × (bytes_of_text text ≡ text_of_rewound rewound)) }
    ensures cost { (cost : ℕ) → IsRewindCost (topology_of topology) script.now depth cost → steps.new ≤ steps.old + cost }
{
    // Its model is regular, so the script leads to one history.
    let _model = topology.model();
    let Rewound { reports, topology } = rewind_topology(alloc, topology, script, depth, steps)?;
    let matrix = lines_of_matrix(alloc, topology, steps)?;
    Ok(Text::Rewound { reports, matrix })
}

// What is reported of the script, and the topology after it.
fn rewind_topology<L: Ledger>(
    alloc: Global,
    topology: Topology,
    script: &[ScriptLine],
    depth: usize,
    steps: &mut Steps<L>,
) -> Result<Rewound, AllocError>
    requires some { 1 ≤ depth }
    requires few { depth ≤ 1024 }
    requires names { HaveGoodNames script.now }
    ensures rewound { IfOk result (λ rewound. IsRewound depth (new_history (topology_of topology)) script.now rewound.reports.items (topology_of rewound.topology)) }
    ensures steps { steps.new ≡ steps.old }
{
    let mut history = History::new(alloc, topology, depth)?;
    let reports = run_script(alloc, &mut history, script, steps);
    let topology = history.into_network();
    match reports {
        Ok(reports) => Ok(Rewound { reports, topology }),
        Err(out_of_memory) => {
            drop(topology);
            Err(out_of_memory)
        }
    }
}

// Makes and takes back edits as the lines say. Gives the lines of what is reported.
fn run_script<L: Ledger>(
    alloc: Global,
    history: &mut History<Topology>,
    script: &[ScriptLine],
    steps: &mut Steps<L>,
) -> Result<Vec<u8>, AllocError>
    requires { HaveGoodNames script.now }
    ensures runs { IfOk result (λ reports. (h : Past) → StandFor (topology_of history.old.network) history.old.records h → RunsOn history.old.depth h script.now [] reports.items (topology_of history.new.network) history.new.records) }
    ensures steps { steps.new ≡ steps.old }
{
    let mut reports = Vec::new(alloc);
    for line in script {
        run_line(alloc, history, line, &mut reports, steps)?;
    }
    Ok(reports)
}

// Does what a line says, and adds what is reported of it.
fn run_line<L: Ledger>(
    alloc: Global,
    history: &mut History<Topology>,
    line: &ScriptLine,
    reports: &mut Vec<u8>,
    steps: &mut Steps<L>,
) -> Result<(), AllocError>
    requires { HasGoodMove line.now.what }
    ensures depth { history.new.depth ≡ history.old.depth }
    ensures steps { steps.new ≡ steps.old }
    ensures runs { OnOk result ((h : Past) → StandFor (topology_of history.old.network) history.old.records h → RunsOn history.old.depth h (line.now ∷ []) reports.old.items reports.new.items (topology_of history.new.network) history.new.records) }
{
    match report_of(alloc, history, line, steps)? {
        Some(report) => push_report(reports, report),
        None => Ok(()),
    }
}

// Does what a line says. What is reported of it, if something is.
fn report_of<L: Ledger>(
    alloc: Global,
    history: &mut History<Topology>,
    line: &ScriptLine,
    steps: &mut Steps<L>,
) -> Result<Option<LineReport>, AllocError>
    requires { HasGoodMove line.now.what }
    ensures depth { history.new.depth ≡ history.old.depth }
    ensures steps { steps.new ≡ steps.old }
    ensures moves { IfOk result (λ report. (h : Past) → StandFor (topology_of history.old.network) history.old.records h → MovesOn history.old.depth h line.now.line line.now.what report (topology_of history.new.network) history.new.records) }
{
    match &line.what {
        Move::Make(edit) => make(alloc, history, edit, line.line, steps),
        Move::Undo => undo(alloc, history, line.line, steps),
    }
}

// Makes the edit of a line, or reports why it is refused.
fn make<L: Ledger>(
    alloc: Global,
    history: &mut History<Topology>,
    edit: &Edit,
    line: u64,
    steps: &mut Steps<L>,
) -> Result<Option<LineReport>, AllocError>
    requires { HasGoodName edit.now }
    ensures depth { history.new.depth ≡ history.old.depth }
    ensures steps { steps.new ≡ steps.old }
    ensures moves { IfOk result (λ report. (h : Past) → StandFor (topology_of history.old.network) history.old.records h → MovesOn history.old.depth h line (MakeMove edit.now) report (topology_of history.new.network) history.new.records) }
{
    match history.edit(alloc, edit, steps) {
        Ok(()) => Ok(None),
        Err(EditFault::Refused(why)) => Ok(Some(LineReport::Refused { line, why })),
        Err(EditFault::NoMemory) => Err(AllocError),
    }
}

// Takes the last edit back, or reports that there is none.
fn undo<L: Ledger>(
    alloc: Global,
    history: &mut History<Topology>,
    line: u64,
    steps: &mut Steps<L>,
) -> Result<Option<LineReport>, AllocError>
    ensures depth { history.new.depth ≡ history.old.depth }
    ensures steps { steps.new ≡ steps.old }
    ensures moves { IfOk result (λ report. (h : Past) → StandFor (topology_of history.old.network) history.old.records h → MovesOn history.old.depth h line UndoMove report (topology_of history.new.network) history.new.records) }
{
    match history.undo(alloc, steps) {
        Ok(()) => Ok(None),
        Err(UndoFault::Nothing) => Ok(Some(LineReport::Nothing { line })),
        Err(UndoFault::NoMemory) => Err(AllocError),
    }
}
