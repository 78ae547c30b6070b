//! What holds of all files of exceptions.
ghost use Rattle.policy_parts.specs.entries.Laws.{EmptyClarifyIsNone};

/// A file of exceptions with an empty list of clarifications is read as one without the key.
pub fn empty_clarify_is_none()
    ensures { EmptyClarifyIsNone }
{}
