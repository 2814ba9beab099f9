//! What holds of certificates, whatever the program does. Each law is the contract of a function that does nothing.
ghost use Rattle.cb_validity.specs.Laws.{SpanListsCaused, SpansMakeMatrix, ValidPassesAll, FirstFailIsOne, ValidIsNotRejected};
ghost use Rattle.cb_validity.specs.Laws.{BookIsOfFormat, ThinIsOfFormat, CanonicalThinIsOne, PassedGoOn, FailedStop, JudgedIsFirstFail};
ghost use Rattle.cb_validity.specs.Laws.{CanonicalCappedIsOne, CanonicalCappedIsValid, ValidCappedDecodes};
ghost use Rattle.cb_validity.specs.CodebookLaws.{CodebookIsValid, ShortfallIsValid, FormatIsCheckable};
ghost use Rattle.cb_validity.specs.Laws.{CanonicalSpanIsOne, CanonicalBookIsOne, CanonicalBookIsValid, CanonicalThinIsValid, ValidBookDecodes};
ghost use Rattle.cb_validity.specs.Laws.{TotalReachIsOne, TotalReachIsOpenCost, FewAreNotMany, EntriesAreFewOrMany};

/// A span lists exactly the nodes that its root causes.
pub fn span_lists_caused()
    ensures { SpanListsCaused }
{}

/// The groups that the codes of spans make are those of the topology.
pub fn spans_make_matrix()
    ensures { SpansMakeMatrix }
{}

/// A canonical book is valid exactly where its columns are good at its distance.
pub fn canonical_book_is_valid()
    ensures { CanonicalBookIsValid }
{}

/// A certificate is rejected for one reason.
pub fn first_fail_is_one()
    ensures { FirstFailIsOne }
{}

/// Over the same nodes a root has one canonical span.
pub fn canonical_span_is_one()
    ensures { CanonicalSpanIsOne }
{}

/// A certificate is valid exactly where it passes all its checks.
pub fn valid_passes_all()
    ensures { ValidPassesAll }
{}

/// No valid certificate is rejected.
pub fn valid_is_not_rejected()
    ensures { ValidIsNotRejected }
{}

/// Columns at a distance have one canonical book.
pub fn canonical_book_is_one()
    ensures { CanonicalBookIsOne }
{}

/// Over the columns of a valid book a word within the radius of a group's code leads to that group alone.
pub fn valid_book_decodes()
    ensures { ValidBookDecodes }
{}

/// Columns, a cap and radii have one canonical book.
pub fn canonical_capped_is_one()
    ensures { CanonicalCappedIsOne }
{}

/// A canonical book for a cap is valid exactly where its columns are good for the cap and its radii are those of the groups.
pub fn canonical_capped_is_valid()
    ensures { CanonicalCappedIsValid }
{}

/// Over the columns of a valid book for a cap a word within the radius of a group leads to that group alone.
pub fn valid_capped_decodes()
    ensures { ValidCappedDecodes }
{}

/// A canonical thin certificate is valid exactly where the codes are its distance apart, which is less than is wanted.
pub fn canonical_thin_is_valid()
    ensures { CanonicalThinIsValid }
{}

/// Two problems at a distance have one canonical thin certificate.
pub fn canonical_thin_is_one()
    ensures { CanonicalThinIsOne }
{}

/// Where the first checks are passed, what the others come to is what all come to.
pub fn passed_go_on()
    ensures { PassedGoOn }
{}

/// Where one of the first checks fails, the others don't matter.
pub fn failed_stop()
    ensures { FailedStop }
{}

/// What the first check tells that fails is why the certificate is rejected.
pub fn judged_is_first_fail()
    ensures { JudgedIsFirstFail }
{}

/// What holds of nodes, columns and spans of a topology makes a book of the format.
pub fn book_is_of_format()
    ensures { BookIsOfFormat }
{}

/// What holds of nodes and of two sides makes a thin certificate of the format.
pub fn thin_is_of_format()
    ensures { ThinIsOfFormat }
{}

/// The certificate that is written of a topology's codebook is valid.
pub fn codebook_is_valid()
    ensures { CodebookIsValid }
{}

/// So is the one that two groups are too close for a codebook.
pub fn shortfall_is_valid()
    ensures { ShortfallIsValid }
{}

/// A certificate of the format can be checked: none of its numbers is too great for a refusal to tell.
pub fn format_is_checkable()
    ensures { FormatIsCheckable }
{}

/// All that problems cause is one number.
pub fn total_reach_is_one()
    ensures { TotalReachIsOne }
{}

/// That number is what a search from every problem costs.
pub fn total_reach_is_open_cost()
    ensures { TotalReachIsOpenCost }
{}

/// Few entries are not many, whether or not it is known how many all problems cause.
pub fn few_are_not_many()
    ensures { FewAreNotMany }
{}

/// What all problems cause together tells which of both there are.
pub fn entries_are_few_or_many()
    ensures { EntriesAreFewOrMany }
{}
