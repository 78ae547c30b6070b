//! Package specs with equal names and requirements.
ghost use Rattle.std.specs.Prelude.{◌≡◌, map, option_map};
ghost use Rattle.std.specs.Cmp.{partial_equiv_from_equiv};
ghost use Rattle.semver.specs.Identifiers.{comparator_view};
ghost use Rattle.policy_parts.specs.spec.OrderLaws.{same_spec_equiv};
ghost use Rattle.policy_parts.specs.spec.Same as spec;
ghost use Rattle.policy_parts.specs.spec.Same.{same_spec};
ghost use Rattle.policy_parts.specs.spec.Spec.{comparators_of};

use crate::spec::order::operator_place;
use crate::spec::package_spec::PackageSpec;
use semver::{Comparator, VersionReq};

fn same_comparator(x: &Comparator, y: &Comparator) -> bool
    ensures { result ≡ spec.same_comparator (comparator_view x.now) (comparator_view y.now) }
{
    operator_place(x.op) == operator_place(y.op)
        && x.major == y.major
        && x.minor == y.minor
        && x.patch == y.patch
        && x.pre == y.pre
}

/// A requirement that was read has at most 32 comparators, so this goes no deeper.
fn same_comparators(x: &[Comparator], y: &[Comparator]) -> bool
    ensures { result ≡ spec.same_comparators (map comparator_view x.now) (map comparator_view y.now) }
{
    match (x.split_first(), y.split_first()) {
        (Some((first, xs)), Some((second, ys))) => {
            same_comparator(first, second) && same_comparators(xs, ys)
        }
        (None, None) => true,
        _ => false,
    }
}

fn same_requirement(x: &Option<VersionReq>, y: &Option<VersionReq>) -> bool
    ensures { let other = option_map comparators_of y.now in
        result ≡ spec.same_requirement (option_map comparators_of x.now) other }
{
    match (x, y) {
        (Some(x), Some(y)) => same_comparators(x.comparators.as_slice(), y.comparators.as_slice()),
        (None, None) => true,
        _ => false,
    }
}

impl PartialEq for PackageSpec {
    ghost eq = { same_spec };

    ghost laws = { partial_equiv_from_equiv same_spec_equiv };

    fn eq(&self, other: &PackageSpec) -> bool {
        self.name() == other.name() && same_requirement(&self.version_req, &other.version_req)
    }
}

impl Eq for PackageSpec {
    ghost laws = { same_spec_equiv };
}
