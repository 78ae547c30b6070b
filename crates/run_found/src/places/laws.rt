//! What holds of the places of all policies. These functions do nothing: their contracts are the laws.
//! Called by no code: two laws of a policy's places, whose bodies hold nothing to change.
ghost use Rattle.run_found.specs.places.Laws.{ClarificationsArePlaced, EntriesLieOn};

/// Where each place of a policy lies in its file, as after its load, its clarifications are placed as
/// gathering asks: the expression and the paths of each are in its own file.
pub fn clarifications_are_placed()
    ensures { ClarificationsArePlaced }
{}

/// So do the entries that the check tells of, each in its own file, also once the table of files has grown, as
/// after gathering.
pub fn entries_lie()
    ensures { EntriesLieOn }
{}
