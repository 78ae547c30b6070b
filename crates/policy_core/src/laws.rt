//! What holds of all validations and of what comes behind them, as the contracts of functions that do nothing.
ghost use Rattle.policy_core.specs.Laws.{ExceptionsPoint, ExceptionsStand, SettingsPoint};
ghost use Rattle.policy_core.specs.Laws.{ValidationsPoint, ValidPoliciesStand};

/// Where a policy was read from the text of its file, what its validation tells points into that file, and
/// each place that its valid part keeps lies there; the expression of a clarification without escapes is the
/// text at its place.
pub fn validations_keep_places()
    ensures told { ValidationsPoint }
    ensures kept { ValidPoliciesStand }
{}

/// What is reported of an exceptions file that was read points into that file, and each place that is kept of
/// it lies there; what is reported of a policy's settings points into the policy's file. What was reported
/// and kept before keeps its places.
pub fn exceptions_and_settings_keep_places()
    ensures exceptions_told { ExceptionsPoint }
    ensures exceptions_kept { ExceptionsStand }
    ensures settings_told { SettingsPoint }
{}
