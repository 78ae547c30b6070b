//! What holds of all lists and policies that are put in order. These functions do nothing: their contracts
//! are the laws.
ghost use Rattle.policy_core.specs.validate.Laws.{OneOrder, OnePolicy};
ghost use Rattle.policy_core.specs.validate.Order.{by_path, by_printed};

/// There is one way to put licensees, files and a whole policy in order, so a policy has one valid part.
pub fn order_is_one()
    ensures licensees { OneOrder by_printed }
    ensures files { OneOrder by_path }
    ensures policies { OnePolicy }
{}
