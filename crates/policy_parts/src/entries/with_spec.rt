//! Tables that hold the keys of a package spec beside their own.
ghost use Rattle.toml_subset.specs.shapes.Shaped.{AnswersShape, OnAnswer};
ghost use Rattle.toml_value.specs.Views.{value_view};
ghost use Rattle.std.specs.Prelude.{◌≡◌};
ghost use Rattle.policy_parts.specs.entries.WithSpec.{with_spec, left_of_entry};

use crate::spec::PackageSpec;
use policy_toml::rows::{FromKeys, read_table};
use policy_toml::{DeserError, Deserialize, Value};
use std::alloc::Global;

/// Reads a spec, and then a table out of what that leaves of the value.
pub(crate) fn read_with_spec<T: FromKeys<X>, X>(
    alloc: Global,
    value: &mut Value<'_>,
    context: &X,
) -> Result<(PackageSpec, T), DeserError>
    ensures read { AnswersShape (with_spec (T.shape context.now) (value_view value.old)) result }
    ensures left { OnAnswer result (value_view value.new ≡ left_of_entry (value_view value.old)) }
{
    match <PackageSpec as Deserialize<X>>::deserialize(alloc, value, context) {
        Ok(spec) => match read_table(alloc, value, context) {
            Ok(keys) => Ok((spec, keys)),
            Err(error) => Err(error),
        },
        Err(error) => Err(error),
    }
}
