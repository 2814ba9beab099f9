//! What exists, whatever the program does. Each law is the contract of a function that does nothing.
ghost use Rattle.cb_existence.specs.Windows.{WindowNodesExist, ClosingExists};
ghost use Rattle.cb_existence.specs.Results.{ResultExists, AfterAllExists, NowExists, StepExists, CostInTurnExists, MovesLead, LastCostExists};
ghost use Rattle.cb_existence.specs.Matrices.{ColumnsExist, ProblemsExist, CountsExist, ReachedExists, CausedAreCounted, GroupsExist, MatrixExists};
ghost use Rattle.cb_existence.specs.Choices.{ClosestPairExists, GoodOrFirstClose, ChoiceExists, ChoiceInUseExists};
ghost use Rattle.cb_existence.specs.Choices.{BookInUseExists, RadiiExist, CapBookExists};
ghost use Rattle.cb_existence.specs.Findings.{AnswerExists, FindingExists, BurstExists};
ghost use Rattle.cb_existence.specs.Events.{BookIsKnown, BasisExists, EntryHasEvents, EndHasEvents, EventsExist};
ghost use Rattle.cb_existence.specs.Events.{LineHasEntry, LinesHaveEvents, LogHasEvents, LinesHaveCost};

/// A window has nodes, perhaps none.
pub fn window_nodes_exist()
    ensures { WindowNodesExist }
{}

/// At each position some windows close, perhaps none.
pub fn closing_exists()
    ensures { ClosingExists }
{}

/// Over a regular model each edit is accepted, or refused for a reason.
pub fn result_exists()
    ensures { ResultExists }
{}

/// Over a regular model each list of edits comes to a topology.
pub fn after_all_exists()
    ensures { AfterAllExists }
{}

/// Over a regular model there is a topology after the records of a log.
pub fn now_exists()
    ensures { NowExists }
{}

/// An accepted edit of a sound topology makes a sound topology of it.
pub fn step_exists()
    ensures { StepExists }
{}

/// From a sound topology edits that are made in turn have a cost.
pub fn cost_in_turn_exists()
    ensures { CostInTurnExists }
{}

/// Over a regular model edits and undos lead to a history.
pub fn moves_lead()
    ensures { MovesLead }
{}

/// From a sound topology they lead to one whose search has a cost.
pub fn last_cost_exists()
    ensures { LastCostExists }
{}

/// Over a regular model a topology has columns, perhaps none.
pub fn columns_exist()
    ensures { ColumnsExist }
{}

/// Over a regular model a topology has problems, perhaps none.
pub fn problems_exist()
    ensures { ProblemsExist }
{}

/// Over a regular model nodes, problems and symptom nodes can be counted.
pub fn counts_exist()
    ensures { CountsExist }
{}

/// Over a regular model a node reaches a set of nodes.
pub fn reached_exists()
    ensures { ReachedExists }
{}

/// Over a regular model the nodes that a node causes can be counted.
pub fn caused_are_counted()
    ensures { CausedAreCounted }
{}

/// Problems with codes of one width have groups.
pub fn groups_exist()
    ensures { GroupsExist }
{}

/// Over a regular model a topology has a matrix: for each problem and column it is known whether the one causes the other.
pub fn matrix_exists()
    ensures { MatrixExists }
{}

/// Two codes or more have a closest pair.
pub fn closest_pair_exists()
    ensures { ClosestPairExists }
{}

/// Codes are as far apart over some columns as wanted, or one pair is the first that is closer.
pub fn good_or_first_close()
    ensures { GoodOrFirstClose }
{}

/// Where all columns are good for a need, some of them are a choice for it.
pub fn choice_exists()
    ensures { ChoiceExists }
{}

/// For each wish there is a choice of columns, and a wish that it meets.
pub fn choice_in_use_exists()
    ensures { ChoiceInUseExists }
{}

/// For each wanted distance a book is in use.
pub fn book_in_use_exists()
    ensures { BookInUseExists }
{}

/// For each cap each code has a radius.
pub fn radii_exist()
    ensures { RadiiExist }
{}

/// For each cap there is a book.
pub fn cap_book_exists()
    ensures { CapBookExists }
{}

/// Where there is a code, each word has an answer over each list of columns.
pub fn answer_exists()
    ensures { AnswerExists }
{}

/// Where there is a group, each set of raised nodes has a finding over each list of columns.
pub fn finding_exists()
    ensures { FindingExists }
{}

/// Over a regular model each set of raised nodes has a finding over all columns of a topology.
pub fn burst_exists()
    ensures { BurstExists }
{}

/// Over a regular model a codebook is in use after the records of a log, or none is.
pub fn book_is_known()
    ensures { BookIsKnown }
{}

/// Over a regular model a topology has a basis, by which windows are diagnosed: a matrix, and columns in use.
pub fn basis_exists()
    ensures { BasisExists }
{}

/// Over a regular model each entry of a log has events, perhaps none.
pub fn entry_has_events()
    ensures { EntryHasEvents }
{}

/// Over a regular model the end of a log has events, perhaps none.
pub fn end_has_events()
    ensures { EndHasEvents }
{}

/// Over a regular model the entries of each log and its end have events.
pub fn events_exist()
    ensures { EventsExist }
{}

/// Each line of a log gives a record, or is skipped for a reason, or is blank.
pub fn line_has_entry()
    ensures { LineHasEntry }
{}

/// Over a regular model each list of lines has events.
pub fn lines_have_events()
    ensures { LinesHaveEvents }
{}

/// Over a regular model the bytes of each log have events.
pub fn log_has_events()
    ensures { LogHasEvents }
{}

/// From a sound topology the edits in lines have a cost.
pub fn lines_have_cost()
    ensures { LinesHaveCost }
{}
