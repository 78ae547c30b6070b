//! Types that are one of a table of names.
ghost use Rattle.std.specs.Prelude.{◌≡◌};
ghost use Rattle.toml_value.specs.Taken.{left_by};
ghost use Rattle.policy_parts.specs.Names.{scope_of, scope_name, agreement_of, lint_of, severity_of_lint};

use diag_core::Severity;
use policy_toml::{DeserError, Deserialize, Value, deserialize_name};
use std::alloc::Global;

/// Which crates a rule is about.
#[derive(Clone, Copy, Debug, PartialEq, Eq)]
pub enum Scope {
    All,
    Workspace,
    Transitive,
    None,
}

/// What was once asked of licences that the OSI approves or the FSF calls free. The key that holds it was
/// removed.
#[derive(Clone, Copy, Debug, PartialEq, Eq)]
pub enum BlanketAgreement {
    Both,
    Either,
    Osi,
    Fsf,
    OsiOnly,
    FsfOnly,
    Neither,
}

/// What a policy asks for where a lint finds something.
#[derive(Clone, Copy, Debug, PartialEq, Eq)]
pub enum LintLevel {
    Allow,
    Warn,
    Deny,
}

static SCOPES: [(&str, Scope); 4] = [
    ("all", Scope::All),
    ("workspace", Scope::Workspace),
    ("transitive", Scope::Transitive),
    ("none", Scope::None),
];

static AGREEMENTS: [(&str, BlanketAgreement); 7] = [
    ("both", BlanketAgreement::Both),
    ("either", BlanketAgreement::Either),
    ("osi", BlanketAgreement::Osi),
    ("fsf", BlanketAgreement::Fsf),
    ("osi-only", BlanketAgreement::OsiOnly),
    ("fsf-only", BlanketAgreement::FsfOnly),
    ("neither", BlanketAgreement::Neither),
];

static LINTS: [(&str, LintLevel); 3] = [
    ("allow", LintLevel::Allow),
    ("warn", LintLevel::Warn),
    ("deny", LintLevel::Deny),
];

impl Scope {
    /// The name that a policy has for it.
    pub fn as_str(self) -> &'static str
        ensures { result.now ≡ scope_name self }
    {
        match self {
            Scope::All => "all",
            Scope::Workspace => "workspace",
            Scope::Transitive => "transitive",
            Scope::None => "none",
        }
    }
}

impl Default for BlanketAgreement {
    ghost use Rattle.policy_parts.specs.declared.names.BlanketAgreement.TheVariants.{Neither};

    ghost is_default = { λ agreement. agreement ≡ Neither };

    fn default() -> BlanketAgreement {
        BlanketAgreement::Neither
    }
}

impl Default for LintLevel {
    ghost use Rattle.policy_parts.specs.declared.names.LintLevel.TheVariants.{Warn};

    ghost is_default = { λ level. level ≡ Warn };

    fn default() -> LintLevel {
        LintLevel::Warn
    }
}

impl From<LintLevel> for Severity {
    ghost from_gives = { λ level severity. severity ≡ severity_of_lint level };

    fn from(level: LintLevel) -> Severity {
        match level {
            LintLevel::Allow => Severity::Note,
            LintLevel::Warn => Severity::Warning,
            LintLevel::Deny => Severity::Error,
        }
    }
}

impl<X> Deserialize<X> for Scope {
    ghost reads = { λ _ value. scope_of value };

    ghost leaves = { λ _ value. left_by (scope_of value) value };

    fn deserialize(
        alloc: Global,
        value: &mut Value<'_>,
        _context: &X,
    ) -> Result<Scope, DeserError> {
        deserialize_name(alloc, value, "Scope", &SCOPES)
    }
}

impl<X> Deserialize<X> for BlanketAgreement {
    ghost reads = { λ _ value. agreement_of value };

    ghost leaves = { λ _ value. left_by (agreement_of value) value };

    fn deserialize(
        alloc: Global,
        value: &mut Value<'_>,
        _context: &X,
    ) -> Result<BlanketAgreement, DeserError> {
        deserialize_name(alloc, value, "BlanketAgreement", &AGREEMENTS)
    }
}

impl<X> Deserialize<X> for LintLevel {
    ghost reads = { λ _ value. lint_of value };

    ghost leaves = { λ _ value. left_by (lint_of value) value };

    fn deserialize(
        alloc: Global,
        value: &mut Value<'_>,
        _context: &X,
    ) -> Result<LintLevel, DeserError> {
        deserialize_name(alloc, value, "LintLevel", &LINTS)
    }
}
