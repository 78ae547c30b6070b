//! Which kind a value is of, and that another was wanted.
ghost use Rattle.std.specs.Prelude.{◌≡◌, None};
ghost use Rattle.toml_subset.specs.shapes.Shaped.{AnswersShape, IsToldBy};
ghost use Rattle.toml_value.specs.Kinds.{kind_of as kind_seen};
ghost use Rattle.toml_value.specs.Taken.{or_wanted, wrong_kind};
ghost use Rattle.toml_value.specs.Views.{content_view, value_view};

use crate::value::{Value, ValueInner};
use std::alloc::Global;
use toml_subset::shapes::{DeserError, ErrorKind, ValueKind, one_fault};

fn kind_of(inner: &ValueInner<'_>) -> ValueKind
    ensures { result ≡ kind_seen (content_view inner.now) }
{
    match inner {
        ValueInner::String(_) => ValueKind::String,
        ValueInner::Integer(_) => ValueKind::Integer,
        ValueInner::Decimal(_) => ValueKind::Decimal,
        ValueInner::Boolean(_) => ValueKind::Boolean,
        ValueInner::Array(_) => ValueKind::Array,
        ValueInner::Table(_) => ValueKind::Table,
    }
}

/// A value of another kind was wanted.
pub fn kind_fault(alloc: Global, expected: &'static str, value: &Value<'_>) -> DeserError
    ensures { IsToldBy result (wrong_kind expected.now (value_view value.now)) }
{
    let found = kind_of(value.inner()).word();
    one_fault(alloc, ErrorKind::Wanted { expected, found }, value.span())
}

/// An answer that a value of another kind was wanted.
pub fn refuse_kind<T>(
    alloc: Global,
    expected: &'static str,
    value: &Value<'_>,
) -> Result<T, DeserError>
    ensures { AnswersShape (or_wanted expected.now (value_view value.now) None) result }
{
    Err(kind_fault(alloc, expected, value))
}
