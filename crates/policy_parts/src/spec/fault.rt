//! What is wrong with a spec.
ghost use Rattle.std.specs.Prelude.{codes};
ghost use Rattle.toml_subset.specs.shapes.Shaped.{IsToldBy};
ghost use Rattle.toml_subset.specs.shapes.Shapes.{fault_alone, missing};
ghost use Rattle.policy_parts.specs.spec.Grammar as spec;

use deny_text::{Span, Text};
use policy_toml::{DeserError, ErrorKind};
use std::alloc::Global;
use toml_subset::shapes::one_fault;

/// A text is no requirement.
pub(crate) fn bad_requirement(alloc: Global, span: Span) -> DeserError
    ensures { IsToldBy result (spec.bad_requirement span) }
{
    match Text::copy(alloc, "invalid version requirement") {
        Ok(said) => one_fault(alloc, ErrorKind::Custom(said), span),
        Err(_) => DeserError::Memory,
    }
}

/// A table lacks the name of a crate.
pub(crate) fn missing_crate(alloc: Global, span: Span) -> DeserError
    ensures { IsToldBy result (fault_alone (missing (codes "crate")) span) }
{
    one_fault(alloc, ErrorKind::MissingField("crate"), span)
}
