//! Targets that crates are built for.
ghost use Rattle.std.specs.Prelude.{◌≡◌, codes, is_some, None};
ghost use Rattle.toml_subset.specs.shapes.Shaped.{AnswersShape, OnAnswer};
ghost use Rattle.toml_value.specs.Taken.{as_table, left_by, string_of};
ghost use Rattle.toml_value.specs.Views.{value_view};
ghost use Rattle.policy_parts.specs.Values.{target_at, target_by, target_of, left_of_target};

use deny_text::{ListOf, Spanned, Text, Texts};
use policy_toml::rows::{FromKeys, finish, or_empty, read_table};
use policy_toml::{DeserError, Deserialize, TableHelper, Value, ValueInner};
use std::alloc::Global;

/// A platform that the graph is made for.
#[derive(Drop)]
pub struct Target {
    /// A target triple, or an expression `cfg(..)`.
    pub filter: Spanned<Text>,
    /// Features of the target that are on.
    pub features: Texts,
}

/// Targets in order.
pub type Targets = ListOf<Target>;

impl<X> FromKeys<X> for Target {
    ghost shape = { λ _. target_at };

    fn read_keys(
        alloc: Global,
        mut table: TableHelper<'_>,
        _context: &X,
    ) -> Result<Target, DeserError> {
        let filter = table.required(alloc, "triple", &())?;
        let features = table.optional(alloc, "features", &())?;
        let features = or_empty(alloc, features);
        finish(alloc, table, Target { filter, features })
    }
}

impl<X> Deserialize<X> for Target {
    ghost reads = { λ _ value. target_of value };

    ghost leaves = { λ _ value. left_of_target value };

    fn deserialize(
        alloc: Global,
        value: &mut Value<'_>,
        context: &X,
    ) -> Result<Target, DeserError> {
        if is_table(value) {
            read_table(alloc, value, context)
        } else {
            read_filter(alloc, value)
        }
    }
}

fn is_table(value: &Value<'_>) -> bool
    ensures { result ≡ is_some (as_table (value_view value.now).content) }
{
    matches!(value.inner(), ValueInner::Table(_))
}

/// A target that is written as a string.
fn read_filter(alloc: Global, value: &mut Value<'_>) -> Result<Target, DeserError>
    ensures read { AnswersShape (target_by (value_view value.old) None) result }
    ensures left { let old = value_view value.old in
        OnAnswer result (value_view value.new ≡ left_by (string_of (codes "a string or table") old) old) }
{
    let span = value.span();
    match value.take_string(alloc, "a string or table") {
        Ok(string) => {
            let value = Text::copy(alloc, string.as_str())?;
            let filter = Spanned { value, span };
            let features = Texts::new(alloc);
            Ok(Target { filter, features })
        }
        Err(error) => Err(error),
    }
}
