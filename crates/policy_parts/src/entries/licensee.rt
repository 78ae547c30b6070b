//! Licensees that a policy names.
ghost use Rattle.std.specs.Prelude.{◌≡◌, codes};
ghost use Rattle.spdx_terms.specs.Reasons.{reason_text};
ghost use Rattle.toml_subset.specs.shapes.Shaped.{AnswersShape, IsToldBy};
ghost use Rattle.toml_subset.specs.shapes.Shapes.{fault_alone, custom};
ghost use Rattle.toml_value.specs.Taken.{left_by, string_of};
ghost use Rattle.policy_parts.specs.entries.Licensees as spec;
ghost use Rattle.policy_parts.specs.entries.Licensees.{licensee_of, licensee_in};

use deny_text::{ListOf, Span, Spanned, Text};
use policy_toml::{DeserError, Deserialize, ErrorKind, Str, Value};
use spdx_terms::catalog::Catalog;
use spdx_terms::{ExprError, ParseError, ParseMode};
use std::alloc::Global;
use toml_subset::shapes::one_fault;

/// A licensee at the place of its string. Licensees are distinguished and ordered by what they print; the
/// place does not count.
#[derive(Drop, PartialEq, Eq, PartialOrd, Ord)]
pub struct Licensee(pub Spanned<spdx_terms::Licensee>);

/// Licensees in order.
pub type Licensees = ListOf<Licensee>;

/// How a policy's licensees are read: a name that the catalogue calls deprecated is taken.
const POLICY: ParseMode = ParseMode {
    allow_deprecated: true,
    allow_imprecise_license_names: false,
    allow_postfix_plus_on_gpl: false,
    allow_slash_as_or_operator: false,
};

/// A string is read as a licensee, and keeps its place.
impl<C: Catalog> Deserialize<C> for Licensee {
    ghost reads = { λ catalog value. licensee_of (C.lists catalog) value };

    ghost leaves = { λ _ value. left_by (string_of (codes "an SPDX licensee string") value) value };

    fn deserialize(
        alloc: Global,
        value: &mut Value<'_>,
        catalog: &C,
    ) -> Result<Licensee, DeserError> {
        let span = value.span();
        match value.take_string(alloc, "an SPDX licensee string") {
            Ok(string) => read_licensee(alloc, &string, span, catalog),
            Err(error) => Err(error),
        }
    }
}

#[tactic(auto, using(crate::proofs::entries::Licensees::licensee_read, crate::proofs::entries::Licensees::licensee_refused))]
fn read_licensee<C: Catalog>(
    alloc: Global,
    string: &Str<'_>,
    span: Span,
    catalog: &C,
) -> Result<Licensee, DeserError>
    ensures { AnswersShape (licensee_in (C.lists catalog.now) string.now span) result }
{
    match spdx_terms::Licensee::parse_mode(alloc, string.as_str(), POLICY, catalog) {
        Ok(value) => Ok(Licensee(Spanned { value, span })),
        Err(ExprError::Parse(fault)) => Err(told(alloc, string, span, fault)),
        Err(ExprError::Memory) => Err(DeserError::Memory),
    }
}

/// A place in a string, as a place of the text in which the string is at `whole`. With escapes the two do
/// not go together, and it is the whole string.
fn place_in(string: &Str<'_>, whole: Span, span: Span) -> Span
    ensures { result ≡ spec.place_in string.now whole span }
{
    if string.has_escapes() {
        whole
    } else {
        Span {
            start: whole.start.saturating_add(span.start),
            end: whole.start.saturating_add(span.end),
        }
    }
}

/// What is wrong with the text of a string.
fn told(alloc: Global, string: &Str<'_>, whole: Span, fault: ParseError) -> DeserError
    ensures { let place = spec.place_in string.now whole fault.span in
        IsToldBy result (fault_alone (custom (reason_text fault.reason)) place) }
{
    match Text::copy(alloc, fault.reason.as_str()) {
        Ok(said) => one_fault(
            alloc,
            ErrorKind::Custom(said),
            place_in(string, whole, fault.span),
        ),
        Err(_) => DeserError::Memory,
    }
}
