//! Lines of a script, and what is reported of them.
use crate::moves::Move;
use cb_network::EditRefusal;

/// An edit or an undo, and the number of its line.
#[derive(Drop)]
pub struct ScriptLine {
    pub line: u64,
    pub what: Move,
}

/// What is reported of a line that changes nothing.
#[derive(Clone, Copy, Debug, PartialEq, Eq)]
pub enum LineReport {
    /// The edit is refused.
    Refused { line: u64, why: EditRefusal },
    /// There is no edit to undo.
    Nothing { line: u64 },
}
