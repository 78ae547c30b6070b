//! Clarifications: what a policy says of the licence of some crates.
ghost use Rattle.toml_value.specs.Taken.{left_by};
ghost use Rattle.policy_parts.specs.entries.Clarifications.{written_of, clarified_at, clarification_of};
ghost use Rattle.policy_parts.specs.entries.WithSpec.{left_of_entry};

use crate::FileSources;
use crate::entries::with_spec::read_with_spec;
use crate::spec::PackageSpec;
use deny_text::{ListOf, Spanned, Text};
use policy_toml::rows::{FromKeys, finish};
use policy_toml::{DeserError, Deserialize, TableHelper, Value};
use std::alloc::Global;

/// The expression of the crates of a spec, as long as their files are those that it was read from.
#[derive(Drop)]
pub struct Clarification {
    pub spec: PackageSpec,
    /// A licence expression as it is written, read by the policy's validation.
    pub expression: Spanned<Text>,
    /// Whether the expression's string has escapes. Without them the text is at the expression's place.
    pub escapes: bool,
    pub license_files: FileSources,
}

/// Clarifications in order.
pub type Clarifications = ListOf<Clarification>;

/// A string with its place, and whether it has escapes.
#[derive(Drop)]
struct WrittenText {
    text: Spanned<Text>,
    escapes: bool,
}

/// The keys of a clarification beside those of its spec.
#[derive(Drop)]
struct ClarificationKeys {
    expression: WrittenText,
    license_files: FileSources,
}

impl<X> Deserialize<X> for WrittenText {
    ghost reads = { λ _ value. written_of value };

    ghost leaves = { λ _ value. left_by (written_of value) value };

    fn deserialize(
        alloc: Global,
        value: &mut Value<'_>,
        _context: &X,
    ) -> Result<WrittenText, DeserError> {
        let span = value.span();
        match value.take_string(alloc, "a string") {
            Ok(string) => {
                let escapes = string.has_escapes();
                let value = Text::copy(alloc, string.as_str())?;
                let text = Spanned { value, span };
                Ok(WrittenText { text, escapes })
            }
            Err(error) => Err(error),
        }
    }
}

impl<X> FromKeys<X> for ClarificationKeys {
    ghost shape = { λ _. clarified_at };

    fn read_keys(
        alloc: Global,
        mut table: TableHelper<'_>,
        _context: &X,
    ) -> Result<ClarificationKeys, DeserError> {
        let expression = match table.required(alloc, "expression", &()) {
            Ok(expression) => expression,
            Err(error) => return Err(error),
        };
        match table.required(alloc, "license-files", &()) {
            Ok(license_files) => {
                let keys = ClarificationKeys {
                    expression,
                    license_files,
                };
                finish(alloc, table, keys)
            }
            Err(error) => Err(error),
        }
    }
}

/// The keys of a spec, and then the others of the same table.
impl<X> Deserialize<X> for Clarification {
    ghost reads = { λ _ value. clarification_of value };

    ghost leaves = { λ _ value. left_of_entry value };

    fn deserialize(
        alloc: Global,
        value: &mut Value<'_>,
        context: &X,
    ) -> Result<Clarification, DeserError> {
        match read_with_spec::<ClarificationKeys, X>(alloc, value, context) {
            Ok((spec, keys)) => {
                let ClarificationKeys {
                    expression,
                    license_files,
                } = keys;
                let WrittenText { text, escapes } = expression;
                Ok(Clarification {
                    spec,
                    expression: text,
                    escapes,
                    license_files,
                })
            }
            Err(error) => Err(error),
        }
    }
}
