//! What holds of logs, whatever the program does. Each law is the contract of a function that does nothing.
ghost use Rattle.cb_log.specs.Laws.{WindowsAreOne, WindowsExist, ClosingIsOne, ClosingStays};
ghost use Rattle.cb_log.specs.Laws.{FreshStands, PassingStands, RaisingStands, ClearingStands, DueAreClosing, OpenAreClosing};
ghost use Rattle.cb_log.specs.Laws.{EventsAreOne, EventsGoOn, TopologyGoesOn, BookInUseSteps};
ghost use Rattle.cb_log.specs.Laws.{EachWindowIsDiagnosed, ThinsAreClose, ThinsSoFarAreClose, WantedKeepsApart, CauseIsNamedAlone};
ghost use Rattle.cb_log.specs.Laws.{SourcesAreIndependent, SourceStandsAlone};

/// Over given records a source has one list of windows.
pub fn windows_are_one()
    ensures { WindowsAreOne }
{}

/// At a record, or at the end, one list of windows closes.
pub fn closing_is_one()
    ensures { ClosingIsOne }
{}

/// What is kept at the beginning stands for no records.
pub fn fresh_stands()
    ensures { FreshStands }
{}

/// A record that no source says makes time go by, and the due windows go.
pub fn passing_stands()
    ensures { PassingStands }
{}

/// A raise goes into the source's open window, or opens one.
pub fn raising_stands()
    ensures { RaisingStands }
{}

/// A clear goes into the source's open window, if it has one.
pub fn clearing_stands()
    ensures { ClearingStands }
{}

/// The windows that are due are those that the next record closes.
pub fn due_are_closing()
    ensures { DueAreClosing }
{}

/// The open windows are those that the end closes.
pub fn open_are_closing()
    ensures { OpenAreClosing }
{}

/// A source has windows over any records.
pub fn windows_exist()
    ensures { WindowsExist }
{}

/// What closes at a record does so whatever follows.
pub fn closing_stays()
    ensures { ClosingStays }
{}

/// From a topology of a checked model, a log has at most one list of events.
pub fn events_are_one()
    ensures { EventsAreOne }
{}

/// A log has one diagnosis for each window, in the order in which the windows close.
pub fn each_window_is_diagnosed()
    ensures { EachWindowIsDiagnosed }
{}

/// Each thin event of a log names two groups that are closer than wanted, with their distance; none comes at a wanted
/// distance of 1, nor for a cap.
pub fn thins_are_close()
    ensures { ThinsAreClose }
{}

/// Each thin event so far, while a log goes on, names two groups that are closer than wanted.
pub fn thins_so_far_are_close()
    ensures { ThinsSoFarAreClose }
{}

/// The codebook for a wish keeps each two groups as far apart as they need by the wish that is met.
pub fn wanted_keeps_apart()
    ensures { WantedKeepsApart }
{}

/// Within its own radius the one group alone is listed, and the diagnosis is sure.
pub fn cause_is_named_alone()
    ensures { CauseIsNamedAlone }
{}

/// What other sources say doesn't matter to the diagnoses of a source.
pub fn sources_are_independent()
    ensures { SourcesAreIndependent }
{}

/// For a wish: a codebook is in use after a record exactly where the record is no accepted edit, and a codebook
/// was in use before it or the record closes a window.
pub fn book_in_use_steps()
    ensures { BookInUseSteps }
{}

/// The events of a log go on with those of the next line.
pub fn events_go_on()
    ensures { EventsGoOn }
{}

/// The topology goes on with the next record's edit, if it is one.
pub fn topology_goes_on()
    ensures { TopologyGoesOn }
{}

/// A source's diagnoses are those of the log that it alone would have made.
pub fn source_stands_alone()
    ensures { SourceStandsAlone }
{}
