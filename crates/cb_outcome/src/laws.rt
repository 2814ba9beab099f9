//! What holds of outcomes.
ghost use Rattle.cb_outcome.specs.Laws.{OutcomeIsOne, OutcomeGoesByBytes, PrefixGivesPrefix, DueIsPrefix, PrefixThinsAreClose, SummedThinsAreClose, PassedAreSound, ExplainCostExists, PassedGoToJob, PassedEndWell, DoneReadsAll, AskedIsInRange, FileWordsAreRead, WrittenIsAccepted, LevelsAreAccepted};

/// The words of the command line and the bytes of the files have one outcome: in how large pieces the files give their
/// bytes makes no difference.
pub fn outcome_is_one()
    ensures { OutcomeIsOne }
{}

/// The outcome goes by the bytes of the file words alone: what other files there are, and in what order names are listed, makes no difference.
pub fn outcome_goes_by_bytes()
    ensures { OutcomeGoesByBytes }
{}

/// The events of the first bytes of a log are its first events.
pub fn prefix_gives_prefix()
    ensures { PrefixGivesPrefix }
{}

/// What is due at any point of a run is a prefix of the outcome's output.
pub fn due_is_prefix()
    ensures { DueIsPrefix }
{}

/// Each thin event that is due before a log's end names two groups that are closer than wanted, with their distance; at a wanted distance
/// of 1 none comes.
pub fn prefix_thins_are_close()
    ensures { PrefixThinsAreClose }
{}

/// So does each thin event of a log that is summed up, as `grow` does.
pub fn summed_thins_are_close()
    ensures { SummedThinsAreClose }
{}

/// Where files pass, the topology that they give is sound, and its model regular. So what it costs to search it exists, and so does what results
/// from a log over it (cb_existence).
pub fn passed_are_sound()
    ensures { PassedAreSound }
{}

/// From a sound topology over a regular model, `explain` has a cost for raised nodes in order, as a symptom file lists them.
pub fn explain_cost_exists()
    ensures { ExplainCostExists }
{}

/// Where all judged files pass, the outcome is what the task gives.
pub fn passed_go_to_job()
    ensures { PassedGoToJob }
{}

/// Where all judged files pass, and the log isn't too long, nothing is wrong but what the task of the command may end with: for
/// `codebook` a distance or too many entries, for `levels` no such problem, for `pairs` too many groups, and for `grow` a fault of
/// the texts that it makes up. Words that are no command are refused.
pub fn passed_end_well()
    ensures { PassedEndWell }
{}

/// An outcome without a fault has read each file word whole.
pub fn done_reads_all()
    ensures { DoneReadsAll }
{}

/// The numbers that words ask with are in the range of their command.
pub fn asked_is_in_range()
    ensures { AskedIsInRange }
{}

/// The file words, by examples.
pub fn file_words_are_read()
    ensures { FileWordsAreRead }
{}

/// What `codebook` writes of a network, be it of its codebook or that there is none, `verify` accepts for the same files.
pub fn written_is_accepted()
    ensures { WrittenIsAccepted }
{}

/// What `levels` writes of a network, `prove` accepts for the same files.
pub fn levels_are_accepted()
    ensures { LevelsAreAccepted }
{}
