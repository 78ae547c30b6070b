//! The numbers that package specs and names are found by.
ghost use Rattle.std.specs.Prelude.{◌≡◌, option_copied, option_map};
ghost use Rattle.semver.specs.Identifiers.{comparator_view};
ghost use Rattle.policy_parts.specs.spec.Index as index;
ghost use Rattle.policy_parts.specs.spec.Spec.{comparators_of};

use crate::spec::package_spec::PackageSpec;
use deny_text::hash::hash;
use semver::{Comparator, Op, VersionReq};

/// One number of two, modulo 2^64.
#[tactic(auto, unfolding(crate::specs::spec::Index::mixed_number))]
pub fn mixed(number: u64, further: u64) -> u64
    ensures { result ≡ index.mixed_number number further }
{
    number.wrapping_mul(1_000_003).wrapping_add(further)
}

/// The number of a name: its XXH32.
pub fn name_number(name: &str) -> u64
    ensures { result ≡ index.name_number name.now }
{
    u64::from(hash(name.as_bytes()))
}

/// The number of a name and one version of it: its major, minor and patch number.
pub(crate) fn version_number(name: &str, version: (u64, u64, u64)) -> u64
    ensures { result ≡ index.version_number name.now version }
{
    let (major, minor, patch) = version;
    mixed(mixed(mixed(name_number(name), major), minor), patch)
}

/// The one version, up to its pre-release, that a comparator is for.
fn exact_in(comparator: &Comparator) -> Option<(u64, u64, u64)>
    ensures { result ≡ index.exact_in (comparator_view comparator.now) }
{
    match (comparator.op, comparator.minor, comparator.patch) {
        (Op::Exact, Some(minor), Some(patch)) => Some((comparator.major, minor, patch)),
        _ => None,
    }
}

/// The one version that a requirement is for, where it is a comparator of one version alone.
fn exact_of(requirement: Option<&VersionReq>) -> Option<(u64, u64, u64)>
    ensures { result ≡ index.exact_of (option_map comparators_of (option_copied requirement.entry)) }
{
    let (only, rest) = requirement?.comparators.split_first()?;
    if rest.is_empty() {
        exact_in(only)
    } else {
        None
    }
}

/// The number that a spec is found by: that of its name and version, where it is for one version alone, else
/// that of its name.
pub(crate) fn spec_number(spec: &PackageSpec) -> u64
    ensures { result ≡ index.spec_number spec.now }
{
    match exact_of(spec.version_req.as_ref()) {
        Some(version) => version_number(spec.name(), version),
        None => name_number(spec.name()),
    }
}
