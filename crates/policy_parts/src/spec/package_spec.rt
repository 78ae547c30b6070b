//! A crate's name and the versions that are meant.
ghost use Rattle.std.specs.Prelude.{◌≡◌};
ghost use Rattle.policy_parts.specs.spec.Spec.{printed_spec};

use deny_text::{Spanned, Text};
use semver::VersionReq;
use std::fmt;
use std::marker::Model;

/// Which crates are meant. Specs are equal by name and requirement; the place of the name does not count.
#[derive(Drop)]
pub struct PackageSpec {
    /// The name, at the place of the whole string that it was read from, also where that has a requirement.
    pub name: Spanned<Text>,
    /// The versions that are meant. Without a requirement each is, also a pre-release.
    pub version_req: Option<VersionReq>,
}

impl Model for PackageSpec {
    ghost use Rattle.std.specs.Prelude.{option_map};
    ghost use Rattle.policy_parts.specs.spec.Spec.{Spec, comparators_of};

    ghost Value = { Spec };

    ghost view = { λ s. record {
      name = s.name.value;
      span = s.name.span;
      requirement = option_map comparators_of s.version_req;
    } };
}

impl PackageSpec {
    pub(crate) fn name(&self) -> &str
        ensures { result.now ≡ self.now.name }
    {
        self.name.value.as_str()
    }
}

/// `{name}`, or `{name} = {requirement}`.
impl fmt::Display for PackageSpec {
    ghost output = { printed_spec };

    fn fmt<W: fmt::Write>(&self, f: &mut fmt::Formatter<W>) -> fmt::Result {
        let name = &self.name.value;
        match &self.version_req {
            Some(requirement) => write!(f, "{name} = {requirement}"),
            None => write!(f, "{name}"),
        }
    }
}
