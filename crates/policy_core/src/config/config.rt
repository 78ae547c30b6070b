//! The table `licenses` of a policy, as it is written.
ghost use Rattle.std.specs.Prelude.{◌≡◌, [], unwrap_or};
ghost use Rattle.policy_toml.specs.rows.Rows.{left_of_table};
ghost use Rattle.policy_core.specs.config.Config.{config_at, config_of, no_config, no_private};

use crate::config::placed::{places_of, take_removed};
use policy_parts::entries::{Clarifications, Exceptions, Licensees};
use policy_parts::{LintLevel, Private};
use policy_toml::rows::{FromKeys, Spans, finish, or_empty, read_table};
use policy_toml::{DeserError, Deserialize, Hundredths, TableHelper, Value};
use spdx_terms::catalog::Catalog;
use std::alloc::Global;

/// What a policy says of licences.
#[derive(Drop)]
pub struct Config {
    /// Which rules the policy goes by: with version 3 each exception that holds for a crate counts, and may name
    /// files; with any other one the first that matches does.
    pub version: i32,
    pub private: Private,
    /// The least score at which a licence text is taken for a licence. It is kept as it is written, also
    /// outside of 0 to 1.
    pub confidence_threshold: Hundredths,
    /// The licensees that are allowed for all crates.
    pub allow: Licensees,
    /// What is said of an entry of `allow` that no crate needs.
    pub unused_allowed_license: LintLevel,
    pub clarify: Clarifications,
    pub exceptions: Exceptions,
    /// What is said of an exception that no crate needs.
    pub unused_license_exception: LintLevel,
    /// Whether the crates are checked that serve development alone.
    pub include_dev: bool,
    /// Whether the crates are checked that serve building alone.
    pub include_build: bool,
    /// Where keys are that were removed, in the order of the table of keys.
    pub deprecated_spans: Spans,
}

impl Config {
    /// What an empty table stands for. It takes no memory.
    pub fn default(alloc: Global) -> Config
        ensures { result ≡ no_config }
    {
        Config {
            version: 1,
            private: Private::default(alloc),
            confidence_threshold: Hundredths(80),
            allow: Licensees::new(alloc),
            unused_allowed_license: LintLevel::Warn,
            clarify: Clarifications::new(alloc),
            exceptions: Exceptions::new(alloc),
            unused_license_exception: LintLevel::Warn,
            include_dev: false,
            include_build: true,
            deprecated_spans: Spans::new(alloc),
        }
    }
}

fn or_no_private(alloc: Global, private: Option<Private>) -> Private
    ensures { result ≡ unwrap_or private no_private }
{
    match private {
        Some(private) => private,
        None => Private::default(alloc),
    }
}

impl<C: Catalog> FromKeys<C> for Config {
    ghost shape = { λ catalog. config_at (C.lists catalog) };

    fn read_keys(
        alloc: Global,
        mut table: TableHelper<'_>,
        catalog: &C,
    ) -> Result<Config, DeserError> {
        let version = table.optional(alloc, "version", &())?;
        let private = table.optional(alloc, "private", &())?;
        let unlicensed = take_removed(&mut table, "unlicensed");
        let agreement = take_removed(&mut table, "allow-osi-fsf-free");
        let copyleft = take_removed(&mut table, "copyleft");
        let default = take_removed(&mut table, "default");
        let threshold = table.optional(alloc, "confidence-threshold", &())?;
        let deny = take_removed(&mut table, "deny");
        let allow = table.optional(alloc, "allow", catalog)?;
        let unused_allowed = table.optional(alloc, "unused-allowed-license", &())?;
        let clarify = table.optional(alloc, "clarify", &())?;
        let exceptions = table.optional(alloc, "exceptions", catalog)?;
        let unused_exception = table.optional(alloc, "unused-license-exception", &())?;
        let include_dev = table.optional(alloc, "include-dev", &())?;
        let include_build = table.optional(alloc, "include-build", &())?;
        let removed = [unlicensed, agreement, copyleft, default, deny];
        let deprecated_spans = places_of(alloc, &removed)?;
        let config = Config {
            version: version.unwrap_or(1),
            private: or_no_private(alloc, private),
            confidence_threshold: threshold.unwrap_or(Hundredths(80)),
            allow: or_empty(alloc, allow),
            unused_allowed_license: unused_allowed.unwrap_or(LintLevel::Warn),
            clarify: or_empty(alloc, clarify),
            exceptions: or_empty(alloc, exceptions),
            unused_license_exception: unused_exception.unwrap_or(LintLevel::Warn),
            include_dev: include_dev.unwrap_or(false),
            include_build: include_build.unwrap_or(true),
            deprecated_spans,
        };
        finish(alloc, table, config)
    }
}

impl<C: Catalog> Deserialize<C> for Config {
    ghost reads = { λ catalog value. config_of (C.lists catalog) value };

    ghost leaves = { λ _ value. left_of_table value };

    fn deserialize(
        alloc: Global,
        value: &mut Value<'_>,
        catalog: &C,
    ) -> Result<Config, DeserError> {
        read_table(alloc, value, catalog)
    }
}
