//! What holds of guesses, whatever the program does. Each law is the contract of a function that does nothing.
ghost use Rattle.cb_pairs.specs.Laws.{GuessesNameGroups, SeparationIsOne, SeparationIsPositive, FitsAreOne, WithinRadiusIsListed};

/// A guess names a group, or two different ones that aren't quiet, the lesser position first; and each of these is a guess.
pub fn guesses_name_groups()
    ensures { GuessesNameGroups }
{}

/// Codes have one separation.
pub fn separation_is_one()
    ensures { SeparationIsOne }
{}

/// It is above 0, where codes have one width.
pub fn separation_is_positive()
    ensures { SeparationIsPositive }
{}

/// A word has one answer.
pub fn fits_are_one()
    ensures { FitsAreOne }
{}

/// Where a word differs from the code of a guess at no more columns than the radius, exactly the guesses with that code
/// are listed, and it is sure.
pub fn within_radius_is_listed()
    ensures { WithinRadiusIsListed }
{}
