//! What holds of topologies and causes, whatever the program does. Each law is the contract of a function that does
//! nothing.
ghost use Rattle.cb_network.specs.Laws.{PlainIsOne, PlusIsOneOrMore, CausesItself, EdgeCauses, CausesFurther, ClosedHasCaused, ReachedIsOne};
ghost use Rattle.cb_network.specs.Laws.{ColumnsAreOne, ProblemsAreOne};
ghost use Rattle.cb_network.specs.Laws.{CountIsOne, TypedIsRegular, AfterIsOne, AfterAllIsOne, EmptyIsSound, EditKeepsSound, EditsKeepSound};

/// A place without the plus is followed by one link.
pub fn plain_is_one()
    ensures { PlainIsOne }
{}

/// A place with the plus is followed by one link or more.
pub fn plus_is_one_or_more()
    ensures { PlusIsOneOrMore }
{}

/// Every node causes itself, by the chain without an edge.
pub fn causes_itself()
    ensures { CausesItself }
{}

/// Where there is an edge, the first node causes the second.
pub fn edge_causes()
    ensures { EdgeCauses }
{}

/// Causes chain: what is caused by something that a node causes is caused by that node.
pub fn causes_further()
    ensures { CausesFurther }
{}

/// A set of nodes that no edge leaves has, with a node, everything that the node causes. So a search that has
/// followed every edge has found all.
pub fn closed_has_caused()
    ensures { ClosedHasCaused }
{}

/// A node reaches one set of nodes.
pub fn reached_is_one()
    ensures { ReachedIsOne }
{}

/// A topology has one list of columns.
pub fn columns_are_one()
    ensures { ColumnsAreOne }
{}

/// A topology has one list of problems.
pub fn problems_are_one()
    ensures { ProblemsAreOne }
{}

/// A topology has one number of nodes, one of problems and one of symptom nodes.
pub fn count_is_one()
    ensures { CountIsOne }
{}

/// The tables of a checked model are regular: its names, inverses and ancestors are as the laws below ask.
pub fn typed_is_regular()
    ensures { TypedIsRegular }
{}

/// An edit comes out in one way: one refusal, or one changed topology. The names of the model's classes and
/// relations must differ.
pub fn after_is_one()
    ensures { AfterIsOne }
{}

/// A list of edits leads to one topology.
pub fn after_all_is_one()
    ensures { AfterAllIsOne }
{}

/// The topology without any instance is sound.
pub fn empty_is_sound()
    ensures { EmptyIsSound }
{}

/// An accepted edit of a sound topology leaves it sound: links still fit their ends and stand both ways, mutes are of
/// symptoms, and no limit is passed.
pub fn edit_keeps_sound()
    ensures { EditKeepsSound }
{}

/// A list of edits leaves a sound topology sound, also where some are refused.
pub fn edits_keep_sound()
    ensures { EditsKeepSound }
{}
