//! What holds of all expressions, whichever of their terms have a hit. These functions do nothing: their
//! contracts are the laws.
ghost use Rattle.spdx_core.specs.certificates.Laws.{AcceptedHasNoBlocks, RejectedHasNoChoice};
ghost use Rattle.spdx_core.specs.certificates.Laws.{AcceptedBySides, MoreHitsNeverReject};

/// An accepted expression has no blocks: every list of terms without a hit leaves some choice out.
pub fn accepted_has_no_blocks()
    ensures { AcceptedHasNoBlocks }
{}

/// An expression has no first choice exactly where it is rejected.
pub fn rejected_has_no_choice()
    ensures { RejectedHasNoChoice }
{}

/// An `AND` is accepted exactly where both of its sides are, an `OR` exactly where one of them is.
pub fn accepted_by_sides()
    ensures { AcceptedBySides }
{}

/// Where terms gain hits and lose none, an accepted expression stays accepted.
pub fn more_hits_never_reject()
    ensures { MoreHitsNeverReject }
{}
