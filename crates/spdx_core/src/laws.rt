//! What holds of all licence expressions. These functions do nothing: their contracts are the laws.
ghost use Rattle.spdx_terms.specs.Faults.{first_fault, licensee_fault};
ghost use Rattle.spdx_core.specs.Printing.{PrintedReadsBack, TermsAreOfCatalog, LicenseesAreOfCatalog};
ghost use Rattle.spdx_core.specs.Printing.{JoinedNamesAreRead};
ghost use Rattle.spdx_core.specs.Laws.{TreeOrFault, OneTree, ReadIsSpelled, SlashIsStrict, PlacesInOrder};
ghost use Rattle.spdx_core.specs.Laws.{TermsRise, LicenseeOrFault, FaultsLieIn};

/// A text has a tree exactly where it has no first fault.
pub fn tree_or_fault()
    ensures { TreeOrFault }
{}

/// A text has at most one tree and one list of terms: those that the plain reader finds, and it finds no
/// other.
pub fn one_tree()
    ensures spelled { OneTree }
    ensures read { ReadIsSpelled }
{}

/// A text without a slash that is read with the slash on has the same tree and terms without it.
pub fn slash_is_strict()
    ensures { SlashIsStrict }
{}

/// The places of a tree are those of its terms, from 0 in text order, all of them.
pub fn places_in_order()
    ensures { PlacesInOrder }
{}

/// The terms of an expression follow one another in its text, are not empty, and begin and end on character
/// borders.
pub fn terms_rise()
    ensures { TermsRise }
{}

/// A text is a licensee, one part without parentheses, exactly where it has no fault.
pub fn licensee_or_fault()
    ensures { LicenseeOrFault }
{}

/// The fault of a text, read as an expression or as a licensee, has a place in it, on character borders.
pub fn faults_lie_in_the_text()
    ensures expressions { FaultsLieIn first_fault }
    ensures licensees { FaultsLieIn licensee_fault }
{}

/// A printed term is read as itself in the mode with deprecated names and `+` behind names of GNU families.
/// The terms of expressions and licensees are such terms.
pub fn printed_terms_read_back()
    ensures reads { PrintedReadsBack }
    ensures terms { TermsAreOfCatalog }
    ensures licensees { LicenseesAreOfCatalog }
{}

/// Names of the catalogue with ` AND ` between are an expression of these names, from left to right, where
/// deprecated names are allowed.
pub fn joined_names_are_read()
    ensures { JoinedNamesAreRead }
{}
