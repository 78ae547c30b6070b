//! The version of a policy.
ghost use Rattle.std.specs.Prelude.{◌≡◌};
ghost use Rattle.policy_core.specs.valid.Version as spec;

/// Whether a policy has version 3, with which each exception that holds for a crate counts, and may name
/// files.
pub fn is_version_3(version: i32) -> bool
    ensures { result ≡ spec.is_version_3 version }
{
    version == 3
}
