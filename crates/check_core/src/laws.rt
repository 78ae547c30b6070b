//! What holds of all policies and crates. These functions do nothing: their contracts are the laws.
//! Called by no code: eight laws of verdicts and their findings, whose bodies hold nothing to change.
ghost use Rattle.check_core.specs.Hits.{TellsTheUnneeded, TermsAreTold};
ghost use Rattle.check_core.specs.Laws.{FirstExceptionCounts, FurtherExceptionIsAsGood, MoreAllowedIsAsGood};
ghost use Rattle.check_core.specs.Laws.{MoreExceptionsAreAsGood};
ghost use Rattle.check_core.specs.Own.{VerdictIsByKnownReads, VerdictIsOwn};

/// A further allowed licensee, at any place of the list, rejects no crate that was accepted, and a crate that
/// was skipped or has no expression stays what it is.
pub fn more_allowed_is_as_good()
    ensures { MoreAllowedIsAsGood }
{}

/// So does a further exception behind all others, where those that counted count still, before any other.
pub fn more_exceptions_are_as_good()
    ensures { MoreExceptionsAreAsGood }
{}

/// Under another version of a policy than 3 the first exception for a crate counts alone, whatever is read of
/// the crate.
pub fn first_exception_counts()
    ensures { FirstExceptionCounts }
{}

/// A further exception behind all others of a policy, of any version, rejects no crate that was accepted,
/// whatever is read of the crate.
pub fn further_exception_is_as_good()
    ensures { FurtherExceptionIsAsGood }
{}

/// Where the same is read of a crate's folder, of the licence files in it, and of the files that its record, a
/// clarification for it or an exception for it names, its verdict is the same, with what shows it. Files of
/// exceptions are among these where each exception that holds counts, and else none is.
pub fn verdict_is_by_known_reads()
    ensures { VerdictIsByKnownReads }
{}

/// So it is by two contents that hold the same there.
pub fn verdict_is_own()
    ensures { VerdictIsOwn }
{}

/// Each term of an expression is reported at its own place by what allows it: an entry of an exception
/// that counts for the crate, an allowed licensee, or nothing.
pub fn terms_are_told()
    ensures { TermsAreTold }
{}

/// The last pack tells just the entries of the policy that no crate needs, at their lint levels: a crate that is not
/// skipped needs what allows a term of its expression, also where it is rejected.
pub fn tells_the_unneeded()
    ensures { TellsTheUnneeded }
{}
