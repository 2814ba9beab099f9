//! What holds of the format, whatever the program does. Each law is the contract of a function that does nothing.
ghost use Rattle.cb_cert.specs.Laws.{LinesAreOfOne, TextSpells, ReadingIsOne, WrittenIsRead, PlacesAreExact, TextIsShort, SpelledIsShort};

/// No two certificates have the same lines.
pub fn lines_are_of_one()
    ensures { LinesAreOfOne }
{}

/// The text of a certificate of the format spells it.
pub fn text_spells()
    ensures { TextSpells }
{}

/// A text has one reading: one certificate, or one first fault.
pub fn reading_is_one()
    ensures { ReadingIsOne }
{}

/// What is written is read again.
pub fn written_is_read()
    ensures { WrittenIsRead }
{}

/// Position by position exactly what some certificate begins with may come.
pub fn places_are_exact()
    ensures { PlacesAreExact }
{}

/// The text of a certificate of the format has at most 32 MiB.
pub fn text_is_short()
    ensures { TextIsShort }
{}

/// No line of a text that spells a certificate is too long for a line of a file.
pub fn spelled_is_short()
    ensures { SpelledIsShort }
{}
