//! What holds of the lines of faults, and of those of groups with chains. A law is the contract of a function that does nothing.
ghost use Rattle.cb_report.specs.Laws.{GroupsAreExplainedInOrder, MemoryHasOneLine};

/// Each fault whose status is `Memory` has the line `error 10 memory`, whatever was out of memory.
pub fn memory_has_one_line()
    ensures { MemoryHasOneLine }
{}

/// The text of groups with chains grows by one group after the other.
pub fn groups_are_explained_in_order()
    ensures { GroupsAreExplainedInOrder }
{}
