//! How a policy wants its findings printed.
ghost use Rattle.std.specs.Prelude.{[]};
ghost use Rattle.policy_toml.specs.rows.Rows.{left_of_table, shaped_by};
ghost use Rattle.policy_parts.specs.Tables.{output_rows, output_in, output_of};

use policy_toml::rows::{FromKeys, finish, read_table};
use policy_toml::{DeserError, Deserialize, TableHelper, Value};
use std::alloc::Global;

/// What is printed of the graph.
#[derive(Clone, Copy, Debug, PartialEq, Eq, Default)]
pub struct OutputConfig {
    /// How deep features are followed, if that is limited.
    pub feature_depth: Option<u32>,
}

impl<X> FromKeys<X> for OutputConfig {
    ghost shape = { λ _. shaped_by [] output_rows output_in };

    fn read_keys(
        alloc: Global,
        mut table: TableHelper<'_>,
        _context: &X,
    ) -> Result<OutputConfig, DeserError> {
        let feature_depth = table.optional(alloc, "feature-depth", &())?;
        finish(alloc, table, OutputConfig { feature_depth })
    }
}

impl<X> Deserialize<X> for OutputConfig {
    ghost reads = { λ _ value. output_of value };

    ghost leaves = { λ _ value. left_of_table value };

    fn deserialize(
        alloc: Global,
        value: &mut Value<'_>,
        context: &X,
    ) -> Result<OutputConfig, DeserError> {
        read_table(alloc, value, context)
    }
}
