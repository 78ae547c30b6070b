//! The crates that a policy has looked at.
ghost use Rattle.std.specs.Prelude.{◌≡◌, [], false};
ghost use Rattle.policy_toml.specs.rows.Rows.{left_of_table, shaped_by};
ghost use Rattle.policy_parts.specs.Tables.{graph_rows, graph_config_in, graph_config_of};

use crate::target::Targets;
use deny_text::Texts;
use policy_toml::rows::{FromKeys, finish, or_empty, read_table};
use policy_toml::{DeserError, Deserialize, TableHelper, Value};
use std::alloc::Global;

/// Which crates are looked at, and with which features.
#[derive(Drop)]
pub struct GraphConfig {
    pub targets: Targets,
    /// Package specs, as they are written.
    pub exclude: Texts,
    pub features: Texts,
    pub all_features: bool,
    pub no_default_features: bool,
    /// Whether dependencies that serve development alone are left out.
    pub exclude_dev: bool,
    /// Whether crates of the workspace are left out that are never published.
    pub exclude_unpublished: bool,
}

impl GraphConfig {
    /// All crates. It takes no memory.
    pub fn default(alloc: Global) -> GraphConfig
        ensures lists { (result.targets ≡ []) × (result.exclude ≡ []) × (result.features ≡ []) }
        ensures features { (result.all_features ≡ false) × (result.no_default_features ≡ false) }
        ensures crates { (result.exclude_dev ≡ false) × (result.exclude_unpublished ≡ false) }
    {
        GraphConfig {
            targets: Targets::new(alloc),
            exclude: Texts::new(alloc),
            features: Texts::new(alloc),
            all_features: false,
            no_default_features: false,
            exclude_dev: false,
            exclude_unpublished: false,
        }
    }
}

impl<X> FromKeys<X> for GraphConfig {
    ghost shape = { λ _. shaped_by [] graph_rows graph_config_in };

    fn read_keys(
        alloc: Global,
        mut table: TableHelper<'_>,
        _context: &X,
    ) -> Result<GraphConfig, DeserError> {
        let targets = table.optional(alloc, "targets", &())?;
        let exclude = table.optional(alloc, "exclude", &())?;
        let features = table.optional(alloc, "features", &())?;
        let all_features = table.optional(alloc, "all-features", &())?;
        let no_default_features = table.optional(alloc, "no-default-features", &())?;
        let exclude_dev = table.optional(alloc, "exclude-dev", &())?;
        let exclude_unpublished = table.optional(alloc, "exclude-unpublished", &())?;
        let graph = GraphConfig {
            targets: or_empty(alloc, targets),
            exclude: or_empty(alloc, exclude),
            features: or_empty(alloc, features),
            all_features: all_features.unwrap_or(false),
            no_default_features: no_default_features.unwrap_or(false),
            exclude_dev: exclude_dev.unwrap_or(false),
            exclude_unpublished: exclude_unpublished.unwrap_or(false),
        };
        finish(alloc, table, graph)
    }
}

impl<X> Deserialize<X> for GraphConfig {
    ghost reads = { λ _ value. graph_config_of value };

    ghost leaves = { λ _ value. left_of_table value };

    fn deserialize(
        alloc: Global,
        value: &mut Value<'_>,
        context: &X,
    ) -> Result<GraphConfig, DeserError> {
        read_table(alloc, value, context)
    }
}
