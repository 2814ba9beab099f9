//! Laws of the definitions in `specs/`. Each function does nothing: its contract is the law.
ghost use Rattle.cb_coding.specs.Laws.{LeastIsOne, FirstCloseIsOne, AnswerIsOne, GroupsAreOne, BookIsOne, BookInUseIsOne, CodingTheorem, FewerColumnsAreCloser, ProblemIsInOneGroup, GroupsHaveDifferentCodes, OneIsGood, LeastIsPositive, BookIsGood, BookIsTight};
ghost use Rattle.cb_coding.specs.Laws.{AnswerByRadiiIsOne, OneRadiusForAll, ChoiceIsOne, RadiiAreOne, CapBookIsOne, ChoiceInUseIsOne, WithinItsRadius, CapIsMet, CapIsNoDetour, ChoiceIsGood, ChoiceIsTight, FirstShortIsOne};
ghost use Rattle.cb_coding.specs.Laws.{AnswerForIsOne, AnswersInUse, AloneInUse, LeastAndGreatestAreOne};

/// Codes have at most one closest pair: of the pairs that are as close, the first is meant.
pub fn least_is_one()
    ensures { LeastIsOne }
{}

/// Codes have at most one first pair that is closer than wanted.
pub fn first_close_is_one()
    ensures { FirstCloseIsOne }
{}

/// Codes have at most one first pair that is closer than it needs.
pub fn first_short_is_one()
    ensures { FirstShortIsOne }
{}

/// A word has at most one answer.
pub fn answer_is_one()
    ensures { AnswerIsOne }
{}

/// There is one answer also where each code has a radius of its own.
pub fn answer_by_radii_is_one()
    ensures { AnswerByRadiiIsOne }
{}

/// Where all codes have one radius, it is the same answer.
pub fn one_radius_for_all()
    ensures { OneRadiusForAll }
{}

/// A word has at most one answer by what is in use.
pub fn answer_for_is_one()
    ensures { AnswerForIsOne }
{}

/// The answer at a distance is that for the plain wish, and the answer by the radii of a cap that for the cap.
pub fn answers_in_use()
    ensures { AnswersInUse }
{}

/// The codes have at most one least radius and one greatest.
pub fn least_and_greatest_are_one()
    ensures { LeastAndGreatestAreOne }
{}

/// Problems have at most one list of groups.
pub fn groups_are_one()
    ensures { GroupsAreOne }
{}

/// For a need there is at most one choice of columns.
pub fn choice_is_one()
    ensures { ChoiceIsOne }
{}

/// For a cap there is at most one list of radii.
pub fn radii_are_one()
    ensures { RadiiAreOne }
{}

/// For a cap there is at most one book.
pub fn cap_book_is_one()
    ensures { CapBookIsOne }
{}

/// For a wish at most one choice of columns is in use, and it meets one wish.
pub fn choice_in_use_is_one()
    ensures { ChoiceInUseIsOne }
{}

/// At a distance there is at most one book.
pub fn book_is_one()
    ensures { BookIsOne }
{}

/// For a wanted distance at most one book is in use.
pub fn book_in_use_is_one()
    ensures { BookInUseIsOne }
{}

/// The coding theorem. Where every two codes are at least d apart, and so few symptoms were lost or are spurious that the
/// word is within the radius of a group's code, decoding finds that group alone, and is sure.
pub fn coding_theorem()
    ensures { CodingTheorem }
{}

/// A code within its own radius of the word is named alone, if each two codes are as far apart as over all columns, or as a cap.
pub fn within_its_radius()
    ensures { WithinItsRadius }
{}

/// The coding theorem by what is in use: for a distance and for a cap.
pub fn alone_in_use()
    ensures { AloneInUse }
{}

/// A cap can always be met: over all columns the codes are as far apart as they need.
pub fn cap_is_met()
    ensures { CapIsMet }
{}

/// Under a cap the need of two codes is at most the sum of their needs with a third.
pub fn cap_is_no_detour()
    ensures { CapIsNoDetour }
{}

/// What differs at no more than r of all columns differs at no more than r of any choice of them: over a book no more
/// symptoms count as lost or spurious than over all columns.
pub fn fewer_columns_are_closer()
    ensures { FewerColumnsAreCloser }
{}

/// Every problem is in one group, and in no other.
pub fn problem_is_in_one_group()
    ensures { ProblemIsInOneGroup }
{}

/// No two groups have one code.
pub fn groups_have_different_codes()
    ensures { GroupsHaveDifferentCodes }
{}

/// A wanted distance of 1 can always be met by groups.
pub fn one_is_good()
    ensures { OneIsGood }
{}

/// The two closest groups still differ somewhere, so the distance of a book in use is never 0.
pub fn least_is_positive()
    ensures { LeastIsPositive }
{}

/// Over a choice of columns every two codes are as far apart as they need.
pub fn choice_is_good()
    ensures { ChoiceIsGood }
{}

/// Without any one of its columns a choice is no longer good.
pub fn choice_is_tight()
    ensures { ChoiceIsTight }
{}

/// Over the columns of a book every two codes are as far apart as it says.
pub fn book_is_good()
    ensures { BookIsGood }
{}

/// Without any one of its columns a book is no longer good.
pub fn book_is_tight()
    ensures { BookIsTight }
{}
