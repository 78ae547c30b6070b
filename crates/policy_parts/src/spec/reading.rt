//! Specs read from values.
ghost use Rattle.std.specs.Prelude.{◌≡◌, codes, false, option_map};
ghost use Rattle.policy_toml.specs.Readings.{spanned_of, text_of};
ghost use Rattle.toml_subset.specs.shapes.Shaped.{AnswersShape, GivesBy, OnAnswer, shaped_then};
ghost use Rattle.toml_value.specs.Lookup.{value_at};
ghost use Rattle.toml_value.specs.Taken.{given_back, left_by, string_of};
ghost use Rattle.toml_value.specs.Views.{value_view, entries_view};
ghost use Rattle.policy_parts.specs.spec.Reading.{string_spec, requirement_of, with_version, named_spec};
ghost use Rattle.policy_parts.specs.spec.Reading.{table_spec, entries_left, entries_left_by, spec_of, rest_of_spec};
ghost use Rattle.policy_parts.specs.spec.Spec.{comparators_of};

use crate::spec::fault::missing_crate;
use crate::spec::package_spec::PackageSpec;
use crate::spec::text::{read_requirement, read_string};
use deny_text::{Spanned, Text};
use policy_toml::rows::take_value;
use policy_toml::{DeserError, Deserialize, Entries, Value};
use semver::VersionReq;
use std::alloc::Global;

impl<X> Deserialize<X> for PackageSpec {
    ghost reads = { λ _ value. spec_of value };

    ghost leaves = { λ _ value. rest_of_spec value };

    fn deserialize(
        alloc: Global,
        value: &mut Value<'_>,
        _context: &X,
    ) -> Result<PackageSpec, DeserError> {
        read_spec(alloc, value)
    }
}

/// Reads a spec from a string or a table. The other keys of a table go back into the value.
pub(crate) fn read_spec(alloc: Global, value: &mut Value<'_>) -> Result<PackageSpec, DeserError>
    ensures read { AnswersShape (spec_of (value_view value.old)) result }
    ensures left { OnAnswer result (value_view value.new ≡ rest_of_spec (value_view value.old)) }
{
    match value.take_table() {
        Some(entries) => read_table(alloc, entries, value),
        None => read_taken(alloc, value, "a string or table"),
    }
}

/// Takes a string out and reads its spec, where a thing of that name is wanted. Another value stays.
fn read_taken(
    alloc: Global,
    value: &mut Value<'_>,
    wanted: &'static str,
) -> Result<PackageSpec, DeserError>
    ensures read { AnswersShape (string_spec wanted.now (value_view value.old)) result }
    ensures left { let old = value_view value.old in
        value_view value.new ≡ left_by (string_of wanted.now old) old }
{
    let span = value.span();
    match value.take_string(alloc, wanted) {
        Ok(string) => read_string(alloc, &string, span),
        Err(error) => Err(error),
    }
}

/// Reads a spec from a table that was taken out of its value.
#[tactic(auto, using(policy_toml::proofs::rows::Keys::without_absent))]
fn read_table<'de>(
    alloc: Global,
    mut entries: Entries<'de>,
    value: &mut Value<'de>,
) -> Result<PackageSpec, DeserError>
    ensures read { AnswersShape (table_spec (entries_view entries.entry) (value_view value.old).span) result }
    ensures left { let left = entries_left (entries_view entries.entry) in
        value_view value.new ≡ given_back left (value_view value.old) }
{
    match take_value(&mut entries, "crate") {
        Some(mut string) => {
            value.give_back(entries);
            read_taken(alloc, &mut string, "a crate spec")
        }
        None => read_named_table(alloc, entries, value),
    }
}

/// Reads a spec from a table without `crate`.
#[tactic(auto, using(policy_toml::proofs::rows::Keys::value_at_without))]
fn read_named_table<'de>(
    alloc: Global,
    mut entries: Entries<'de>,
    value: &mut Value<'de>,
) -> Result<PackageSpec, DeserError>
    ensures read { let all = entries_view entries.entry in
        let name = value_at (codes "name") all in
        AnswersShape (named_spec (value_view value.old).span name (value_at (codes "version") all)) result }
    ensures left { let left = entries_left_by false (entries_view entries.entry) in
        value_view value.new ≡ given_back left (value_view value.old) }
{
    let name = take_value(&mut entries, "name");
    let version = take_value(&mut entries, "version");
    let span = value.span();
    value.give_back(entries);
    match name {
        Some(name) => read_named(alloc, name, version),
        None => Err(missing_crate(alloc, span)),
    }
}

/// Reads a spec from a name, which is not split, and from a version where there is one.
fn read_named(
    alloc: Global,
    mut name: Value<'_>,
    version: Option<Value<'_>>,
) -> Result<PackageSpec, DeserError>
    ensures { let reading = spanned_of text_of (value_view name.entry) in
        let version = option_map value_view version.entry in
        AnswersShape (shaped_then (λ text. with_version text version) reading) result }
{
    match <Spanned<Text> as Deserialize<()>>::deserialize(alloc, &mut name, &()) {
        Ok(name) => read_version(alloc, name, version),
        Err(error) => Err(error),
    }
}

/// The spec of a name, and of a version where there is one.
fn read_version(
    alloc: Global,
    name: Spanned<Text>,
    version: Option<Value<'_>>,
) -> Result<PackageSpec, DeserError>
    ensures { AnswersShape (with_version name (option_map value_view version.entry)) result }
{
    match version {
        Some(version) => match requirement_in(alloc, version) {
            Ok(requirement) => Ok(PackageSpec {
                name,
                version_req: Some(requirement),
            }),
            Err(error) => Err(error),
        },
        None => Ok(PackageSpec {
            name,
            version_req: None,
        }),
    }
}

fn requirement_in(alloc: Global, mut version: Value<'_>) -> Result<VersionReq, DeserError>
    ensures { GivesBy comparators_of (requirement_of (value_view version.entry)) result }
{
    let span = version.span();
    match <Text as Deserialize<()>>::deserialize(alloc, &mut version, &()) {
        Ok(text) => read_requirement(alloc, text.as_str(), span),
        Err(error) => Err(error),
    }
}
