//! Specs read from strings.
ghost use Rattle.std.specs.Prelude.{◌≡◌, option_map, Some, Ok};
ghost use Rattle.semver.specs.Parse.{req_of};
ghost use Rattle.toml_subset.specs.shapes.Shaped.{AnswersShape, GivesBy};
ghost use Rattle.policy_parts.specs.spec.Grammar as spec;
ghost use Rattle.policy_parts.specs.spec.Grammar.{exact_first, exact_first_where};
ghost use Rattle.policy_parts.specs.spec.Grammar.{requirement_at, spec_of_string};
ghost use Rattle.policy_parts.specs.spec.Spec.{comparators_of};
ghost use Rattle.policy_parts.specs.spec.Views.{split_view};

use crate::spec::fault::bad_requirement;
use crate::spec::package_spec::PackageSpec;
use deny_text::cut::{cut_at_colon, cut_at_sign};
use deny_text::{Span, Spanned, Text};
use policy_toml::{DeserError, Str};
use semver::{Op, VersionReq};
use std::alloc::{AllocError, Global};

/// A name, the text of its requirement, and whether that is to have an exact first comparator.
#[derive(Clone, Copy)]
struct Split<'t> {
    name: &'t str,
    rest: &'t str,
    exact: bool,
}

fn split_of(text: &str) -> Option<Split<'_>>
    ensures { option_map split_view result ≡ spec.split_of text.now }
{
    match cut_at_sign(text) {
        Some((name, rest)) => Some(Split {
            name,
            rest,
            exact: true,
        }),
        None => match cut_at_colon(text) {
            Some((name, rest)) => Some(Split {
                name,
                rest,
                exact: false,
            }),
            None => None,
        },
    }
}

/// As many bytes at the end of a place as a text has.
fn end_of(span: Span, rest: &str) -> Span
    ensures { result ≡ spec.end_of span rest.now }
{
    Span {
        start: span.end.saturating_sub(rest.len()),
        end: span.end,
    }
}

fn rest_span(string: &Str<'_>, span: Span, rest: &str) -> Span
    ensures { result ≡ spec.rest_span string.now span rest.now }
{
    if string.has_escapes() {
        span
    } else {
        end_of(span, rest)
    }
}

/// Reads a requirement. What is wrong with it is reported at the place.
pub(crate) fn read_requirement(
    alloc: Global,
    text: &str,
    span: Span,
) -> Result<VersionReq, DeserError>
    ensures { GivesBy comparators_of (requirement_at span (req_of text.now)) result }
{
    match VersionReq::parse(alloc, text) {
        Ok(requirement) => Ok(requirement),
        Err(error) if error == semver::Error::from(AllocError) => Err(DeserError::Memory),
        Err(_) => Err(bad_requirement(alloc, span)),
    }
}

/// Makes the first comparator exact.
fn make_exact(requirement: &mut VersionReq)
    ensures { comparators_of requirement.new ≡ exact_first (comparators_of requirement.old) }
{
    if let Some(first) = requirement.comparators.first_mut() {
        first.op = Op::Exact;
    }
}

fn exact_where(exact: bool, mut requirement: VersionReq) -> VersionReq
    ensures { comparators_of result ≡ exact_first_where exact (comparators_of requirement) }
{
    if exact {
        make_exact(&mut requirement);
    }
    requirement
}

fn named(
    alloc: Global,
    name: &str,
    span: Span,
    version_req: Option<VersionReq>,
) -> Result<PackageSpec, DeserError>
    ensures { let requirement = option_map comparators_of version_req in
        AnswersShape (Ok (record { name = name.now; span = span; requirement = requirement })) result }
{
    match Text::copy(alloc, name) {
        Ok(value) => Ok(PackageSpec {
            name: Spanned { value, span },
            version_req,
        }),
        Err(_) => Err(DeserError::Memory),
    }
}

/// Reads the spec of a string at a place.
pub(crate) fn read_string(
    alloc: Global,
    string: &Str<'_>,
    span: Span,
) -> Result<PackageSpec, DeserError>
    ensures { AnswersShape (spec_of_string string.now span) result }
{
    let text = string.as_str();
    match split_of(text) {
        Some(split) => read_split(alloc, string, span, split),
        None => named(alloc, text, span, None),
    }
}

fn read_split(
    alloc: Global,
    string: &Str<'_>,
    span: Span,
    split: Split<'_>,
) -> Result<PackageSpec, DeserError>
    ensures { AnswersShape (spec.spec_of_split string.now span (Some (split_view split.entry))) result }
{
    let place = rest_span(string, span, split.rest);
    match read_requirement(alloc, split.rest, place) {
        Ok(requirement) => {
            let requirement = exact_where(split.exact, requirement);
            named(alloc, split.name, span, Some(requirement))
        }
        Err(error) => Err(error),
    }
}
