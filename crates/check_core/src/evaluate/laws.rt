//! What holds of all policies and expressions. These functions do nothing: their contracts are the laws.
//! Called by no code: two laws of larger policies, whose bodies hold nothing to change.
ghost use Rattle.check_core.specs.evaluate.Laws.{MoreAllowedNeverReject, MoreExceptionsNeverReject};

/// A further allowed licensee, at any place of the list, rejects no expression that was accepted.
pub fn more_allowed_never_reject()
    ensures { MoreAllowedNeverReject }
{}

/// A further exception behind all others rejects no expression that was accepted.
pub fn more_exceptions_never_reject()
    ensures { MoreExceptionsNeverReject }
{}
