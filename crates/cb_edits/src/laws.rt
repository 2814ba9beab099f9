//! What holds of edit lines.
ghost use Rattle.cb_edits.specs.Laws.{EditIsOne};

/// A line spells one edit at most.
pub fn edit_is_one()
    ensures { EditIsOne }
{}
