//! Package specs by name, then by requirement.
ghost use Rattle.std.specs.Prelude.{◌≡◌, Some, map, option_map, refl};
ghost use Rattle.std.specs.Cmp.Lexicographic.{slice_cmp};
ghost use Rattle.semver.specs.Identifiers.{comparator_view};
ghost use Rattle.policy_parts.specs.spec.Order as spec;
ghost use Rattle.policy_parts.specs.spec.Order.{comparator_order, comparators_order, requirement_order, spec_order};
ghost use Rattle.policy_parts.specs.spec.OrderLaws.{spec_order_total, spec_po, spec_ties};
ghost use Rattle.policy_parts.specs.spec.Spec.{comparators_of};

use crate::spec::package_spec::PackageSpec;
use semver::{Comparator, Op, VersionReq};
use std::cmp::Ordering;

/// Where an operator is among the others.
pub(crate) fn operator_place(operator: Op) -> u8
    ensures { result ≡ spec.operator_place operator }
{
    match operator {
        Op::Exact => 0,
        Op::Greater => 1,
        Op::GreaterEq => 2,
        Op::Less => 3,
        Op::LessEq => 4,
        Op::Tilde => 5,
        Op::Caret => 6,
        Op::Wildcard => 7,
    }
}

fn compare_comparators(x: &Comparator, y: &Comparator) -> Ordering
    ensures { result ≡ comparator_order (comparator_view x.now) (comparator_view y.now) }
{
    operator_place(x.op)
        .cmp(&operator_place(y.op))
        .then(x.major.cmp(&y.major))
        .then(x.minor.cmp(&y.minor))
        .then(x.patch.cmp(&y.patch))
        .then(x.pre.cmp(&y.pre))
}

/// Comparator by comparator. A requirement that was read has at most 32, so this goes no deeper.
fn compare_each(x: &[Comparator], y: &[Comparator]) -> Ordering
    ensures { result ≡ slice_cmp comparator_order (map comparator_view x.now) (map comparator_view y.now) }
{
    match (x.split_first(), y.split_first()) {
        (Some((first, xs)), Some((second, ys))) => match compare_comparators(first, second) {
            Ordering::Equal => compare_each(xs, ys),
            other => other,
        },
        (Some(_), None) => Ordering::Greater,
        (None, Some(_)) => Ordering::Less,
        (None, None) => Ordering::Equal,
    }
}

fn compare_lists(x: &[Comparator], y: &[Comparator]) -> Ordering
    ensures { result ≡ comparators_order (map comparator_view x.now) (map comparator_view y.now) }
{
    x.len().cmp(&y.len()).then(compare_each(x, y))
}

fn compare_requirements(x: &Option<VersionReq>, y: &Option<VersionReq>) -> Ordering
    ensures { result ≡ requirement_order (option_map comparators_of x.now) (option_map comparators_of y.now) }
{
    match (x, y) {
        (Some(x), Some(y)) => compare_lists(x.comparators.as_slice(), y.comparators.as_slice()),
        (Some(_), None) => Ordering::Less,
        (None, Some(_)) => Ordering::Greater,
        (None, None) => Ordering::Equal,
    }
}

impl PartialOrd for PackageSpec {
    ghost partial_cmp = { λ x y. Some (spec_order x y) };

    ghost laws = { spec_po };

    fn partial_cmp(&self, other: &PackageSpec) -> Option<Ordering> {
        Some(self.cmp(other))
    }
}

impl Ord for PackageSpec {
    ghost cmp = { spec_order };

    ghost total = { spec_order_total };

    ghost matches_partial_cmp = { λ x y. refl };

    ghost matches_eq = { spec_ties };

    fn cmp(&self, other: &PackageSpec) -> Ordering {
        self.name().cmp(other.name()).then(compare_requirements(
            &self.version_req,
            &other.version_req,
        ))
    }
}
