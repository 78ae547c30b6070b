//! The text of an exceptions file.
ghost use Rattle.toml_value.specs.Views.{value_view};
ghost use Rattle.policy_parts.specs.entries.Exceptions.{exceptions_file_of};
ghost use Rattle.policy_core.specs.ExceptionsText.{GivesExceptions, ReadsExceptions};
ghost use Rattle.policy_core.specs.Heard.{IsFileText};

use deny_text::Span;
use policy_parts::entries::ExceptionsFile;
use policy_toml::{DeserError, Deserialize, ShapeErrors, TomlError, Value, parse};
use spdx_core::Catalog;
use std::alloc::Global;

/// Why there are no exceptions in a text.
#[derive(Drop)]
pub(crate) enum NoExceptions {
    /// It has a syntax fault at this place.
    Syntax(Span),
    /// Its value has another shape.
    Shape(ShapeErrors),
    Memory,
}

/// The exceptions that a value holds, or what is wrong with its shape.
fn read_value<C: Catalog>(
    alloc: Global,
    mut value: Value<'_>,
    catalog: &C,
) -> Result<ExceptionsFile, NoExceptions>
    ensures { GivesExceptions (exceptions_file_of (C.lists catalog.now) (value_view value.entry)) result }
{
    match <ExceptionsFile as Deserialize<C>>::deserialize(alloc, &mut value, catalog) {
        Ok(held) => Ok(held),
        Err(DeserError::Faults(faults)) => Err(NoExceptions::Shape(faults)),
        Err(DeserError::Memory) => Err(NoExceptions::Memory),
    }
}

/// The exceptions that a text holds, or what is wrong with it.
pub(crate) fn read_exceptions<C: Catalog>(
    alloc: Global,
    text: &str,
    catalog: &C,
) -> Result<ExceptionsFile, NoExceptions>
    ensures text { IsFileText text.now }
    ensures reads { ReadsExceptions (C.lists catalog.now) text.now result }
{
    match parse(alloc, text) {
        Ok(value) => read_value(alloc, value, catalog),
        Err(TomlError::Syntax(fault)) => Err(NoExceptions::Syntax(fault.span)),
        Err(TomlError::Memory) => Err(NoExceptions::Memory),
    }
}
