//! What holds of levels, whatever the program does. Each law is the contract of a function that does nothing.
ghost use Rattle.cb_levels.specs.Laws.{LevelIsOne, PreviousIsOne, ShortChainIsOne, ShortChainIsShortest};
ghost use Rattle.cb_levels.specs.Laws.{ValidListsLevels, CanonicalIsValid, CanonicalIsOne, TrailIsShortChain};
ghost use Rattle.cb_levels.specs.Laws.{ValidLevelsPassAll, LevelFaultIsOne, ValidLevelsAreNotRejected, ValidCanBeFollowed};
ghost use Rattle.cb_levels.specs.Laws.{ValidIsOfFormat, FormatIsSmall, LevelLinesAreOfOne, LevelTextSpells, LevelReadingIsOne, WrittenLevelsAreRead};
ghost use Rattle.cb_levels.specs.Laws.{LevelsTextIsShort, SpelledLevelsAreShort};

/// A node has one level.
pub fn level_is_one()
    ensures { LevelIsOne }
{}

/// A node has one previous one.
pub fn previous_is_one()
    ensures { PreviousIsOne }
{}

/// A node has one short chain.
pub fn short_chain_is_one()
    ensures { ShortChainIsOne }
{}

/// A short chain has as many edges as the node's level. There is none with fewer.
pub fn short_chain_is_shortest()
    ensures { ShortChainIsShortest }
{}

/// Valid levels list exactly what their problem causes, each node at its level.
pub fn valid_lists_levels()
    ensures { ValidListsLevels }
{}

/// The canonical levels of a problem are valid.
pub fn canonical_is_valid()
    ensures { CanonicalIsValid }
{}

/// A problem has one canonical list of levels.
pub fn canonical_is_one()
    ensures { CanonicalIsOne }
{}

/// Following parents in canonical levels gives the short chain of the node.
pub fn trail_is_short_chain()
    ensures { TrailIsShortChain }
{}

/// Levels are valid exactly if they pass all their checks.
pub fn valid_passes_all()
    ensures { ValidLevelsPassAll }
{}

/// Levels are rejected for one reason.
pub fn first_fail_is_one()
    ensures { LevelFaultIsOne }
{}

/// No valid levels are rejected.
pub fn valid_is_not_rejected()
    ensures { ValidLevelsAreNotRejected }
{}

/// Parents can be followed in valid levels.
pub fn valid_can_be_followed()
    ensures { ValidCanBeFollowed }
{}

/// Valid levels are of the format.
pub fn valid_is_of_format()
    ensures { ValidIsOfFormat }
{}

/// Levels of the format are small enough to be checked.
pub fn format_is_small()
    ensures { FormatIsSmall }
{}

/// No two levels have the same lines.
pub fn level_lines_are_of_one()
    ensures { LevelLinesAreOfOne }
{}

/// The text of levels of the format spells them.
pub fn level_text_spells()
    ensures { LevelTextSpells }
{}

/// A text has one reading: levels, or its first fault.
pub fn level_reading_is_one()
    ensures { LevelReadingIsOne }
{}

/// What is written is read again.
pub fn written_levels_are_read()
    ensures { WrittenLevelsAreRead }
{}

/// The text of levels of the format has at most 32 MiB.
pub fn levels_text_is_short()
    ensures { LevelsTextIsShort }
{}

/// No line of a text that spells levels is too long for a line of a file.
pub fn spelled_levels_are_short()
    ensures { SpelledLevelsAreShort }
{}
