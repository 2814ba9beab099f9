//! Laws of histories. Each law is the contract of a function that does nothing.
ghost use Rattle.cb_history.specs.Laws.{InverseTakesBack, InverseIsGoodNamed, PartIsDeletedAgain, PartIsMadeAgain, FirstSidesCoverAll, FewAreKept, UndoTakesBack, MovesAreOne, MovesKeepSound};
ghost use Rattle.cb_history.specs.Laws.{EditIsRecorded, LastIsTaken, RecordsAreOne, AllMakeOne, RewindIsOne, RewindMoves};

/// The inverse of an accepted edit is accepted edit by edit, and gives the topology before that edit.
pub fn inverse_takes_back()
    ensures { InverseTakesBack }
{}

/// A Create in an inverse has a name of the grammar, since an instance of this name was live.
pub fn inverse_is_good_named()
    ensures { InverseIsGoodNamed }
{}

/// A deleted instance of which a part was made again is live, and a second Delete gives the topology without it.
pub fn part_is_deleted_again()
    ensures { PartIsDeletedAgain }
{}

/// Where only a part of an inverse was made, the edit can be made again, with its old result.
pub fn part_is_made_again()
    ensures { PartIsMadeAgain }
{}

/// The links from an instance represent all its links. Of a link to itself and the one back, the one of lesser relation is enough.
pub fn first_sides_cover_all()
    ensures { FirstSidesCoverAll }
{}

/// A history keeps no more earlier topologies than its depth.
pub fn few_are_kept()
    ensures { FewAreKept }
{}

/// An accepted edit and its undo leave the topology as it was.
pub fn undo_takes_back()
    ensures { UndoTakesBack }
{}

/// Edits and undos lead to one history.
pub fn moves_are_one()
    ensures { MovesAreOne }
{}

/// All topologies of a history stay sound.
pub fn moves_keep_sound()
    ensures { MovesKeepSound }
{}

/// After an accepted edit, its inverse and the records before it, cut to the depth, represent the new history.
pub fn edit_is_recorded()
    ensures { EditIsRecorded }
{}

/// Once the edits of the first record are made, the other records represent the history after the undo.
pub fn last_is_taken()
    ensures { LastIsTaken }
{}

/// Records represent one list of topologies.
pub fn records_are_one()
    ensures { RecordsAreOne }
{}

/// Accepted edits make one topology.
pub fn all_make_one()
    ensures { AllMakeOne }
{}

/// A script reports one thing and leaves one history.
pub fn rewind_is_one()
    ensures { RewindIsOne }
{}

/// A script leaves the history that its edits and undos make.
pub fn rewind_moves()
    ensures { RewindMoves }
{}
