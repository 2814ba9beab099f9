//! From a search to levels. Each law is the contract of a function that does nothing.
ghost use Rattle.cb_explain.specs.Made.{LevelTreeIsCanonical};

/// The visits of a search by levels, with names instead of ranks, are the canonical levels of the root.
pub fn level_tree_is_canonical()
    ensures { LevelTreeIsCanonical }
{}
