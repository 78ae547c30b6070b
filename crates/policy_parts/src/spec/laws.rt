//! What holds of all package specs.
ghost use Rattle.std.specs.Prelude.{◌≡◌, ◌↔◌, IsTrue};
ghost use Rattle.std.specs.Cmp.{IsTotalOrder};
ghost use Rattle.policy_parts.specs.spec.Order.{spec_order};
ghost use Rattle.policy_parts.specs.spec.Same.{AreSame};

use crate::spec::extended::PackageSpecOrExtended;
use crate::spec::package_spec::PackageSpec;
use std::cmp::Ordering;

/// The order of specs is total.
#[tactic(auto, using(crate::specs::spec::OrderLaws::spec_order_total))]
pub fn order_is_total()
    ensures { IsTotalOrder spec_order }
{}

/// The equality and the order of specs: two are equal where their names and requirements are, and there alone
/// the order says Equal.
#[tactic(auto, using(crate::proofs::spec::SameLemmas::spec_decides))]
pub fn compares_specs(x: &PackageSpec, y: &PackageSpec) -> (bool, Ordering)
    ensures equality { IsTrue result.0 ↔ AreSame x.now y.now }
    ensures order { result.1 ≡ spec_order x.now y.now }
    ensures agree { IsTrue result.0 ↔ (result.1 ≡ Ordering.Equal) }
{
    (x == y, x.cmp(y))
}

/// The same of specs with further keys, which do not count.
pub fn compares_extended<T>(
    x: &PackageSpecOrExtended<T>,
    y: &PackageSpecOrExtended<T>,
) -> (bool, Ordering)
    ensures equality { IsTrue result.0 ↔ AreSame x.now.spec y.now.spec }
    ensures order { result.1 ≡ spec_order x.now.spec y.now.spec }
    ensures agree { IsTrue result.0 ↔ (result.1 ≡ Ordering.Equal) }
{
    compares_specs(&x.spec, &y.spec)
}
