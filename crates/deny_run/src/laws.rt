//! Laws of runs.
//! Called by no code: two laws of runs at two log levels, whose bodies hold nothing to change.
ghost use Rattle.deny_run.specs.Laws.{LevelChangesNoReport, LevelKeepsStatus};

/// The log level says which findings are written, and nothing else: what is asked, read and reported at one
/// level is so at each, and so are the counts and the status.
pub fn level_changes_no_report()
    ensures { LevelChangesNoReport }
{}

/// Two runs over equal content without a failed call that differ in the log level alone and both end with a report
/// have equal statuses.
pub fn level_keeps_status()
    ensures { LevelKeepsStatus }
{}
