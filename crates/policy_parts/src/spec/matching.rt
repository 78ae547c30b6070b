//! The crates that a package spec matches.
ghost use Rattle.std.specs.Prelude.{◌≡◌, option_copied, option_map};
ghost use Rattle.semver.specs.Identifiers.{parts_of};
ghost use Rattle.graph_core.specs.Krate.{record_of};
ghost use Rattle.policy_parts.specs.spec.Matching.{spec_matches, version_matches};
ghost use Rattle.policy_parts.specs.spec.Spec.{comparators_of};

use crate::spec::package_spec::PackageSpec;
use graph_core::Krate;
use semver::{Version, VersionReq};

/// Whether a version meets a requirement, as `semver` has it. Without one each version does.
#[tactic(auto, using(crate::proofs::spec::MatchLemmas::met))]
pub fn match_req(version: &Version, req: Option<&VersionReq>) -> bool
    ensures { let requirement = option_map comparators_of (option_copied req.entry) in
        result ≡ version_matches requirement (parts_of version.now) }
{
    match req {
        Some(req) => req.matches(version),
        None => true,
    }
}

/// Whether a spec matches a crate: their names are equal, and the version meets the requirement.
pub fn match_krate(krate: &Krate, pid: &PackageSpec) -> bool
    ensures { result ≡ spec_matches pid.now (record_of krate.now) }
{
    krate.name.as_str() == pid.name() && match_req(&krate.version, pid.version_req.as_ref())
}
