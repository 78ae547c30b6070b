//! What holds of all runs. These functions do nothing: their contracts are the laws.
//! Called by no code: a law of reports, whose body holds nothing to change.
ghost use Rattle.run_why.specs.Laws.{TellsVerdictsOfCheck};

/// Over equal answers `why` tells of each crate the verdict that the check reports.
pub fn tells_verdicts_of_check()
    ensures { TellsVerdictsOfCheck }
{}
