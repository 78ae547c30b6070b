//! What holds of the last packs of all policies. These functions do nothing: their contracts are the laws.
//! Called by no code: two laws of the last pack, whose bodies hold nothing to change.
ghost use Rattle.check_core.specs.unused.Laws.{TellsTheUnused, LabelsLieInThePolicy};

/// The last pack tells just the entries of the policy that allow no term: an allowed licensee exactly where no
/// hit is at its place and the policy does not allow unused ones, and then an exception exactly where no hit is
/// at any of its entries, the policy does not allow unused ones, and it is of the policy's own file.
pub fn tells_the_unused()
    ensures { TellsTheUnused }
{}

/// Where the entries of a policy have places of their files, each label of the last pack lies in its file.
pub fn labels_lie_in_the_policy()
    ensures { LabelsLieInThePolicy }
{}
