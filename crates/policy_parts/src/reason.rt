//! Reasons that a policy gives.
ghost use Rattle.std.specs.Prelude.{◌≡◌, option_map};
ghost use Rattle.toml_subset.specs.shapes.Shaped.{AnswersShape};
ghost use Rattle.toml_value.specs.Views.{value_view};
ghost use Rattle.policy_parts.specs.Values.{reason_by, reason_of, left_of_reason};

use deny_text::{Span, Spanned, Text};
use policy_toml::rows::take_value;
use policy_toml::{DeserError, Deserialize, ErrorKind, Value};
use std::alloc::Global;
use toml_subset::shapes::{ValueKind, refuse};
use toml_value::refuse_kind;

/// Why an entry of a policy is there.
#[derive(Drop)]
pub struct Reason(pub Spanned<Text>);

impl From<Spanned<Text>> for Reason {
    ghost from_gives = { λ text reason. reason ≡ record { 0 = text } };

    fn from(text: Spanned<Text>) -> Reason {
        Reason(text)
    }
}

/// The other keys of the table go back, also where the reason is refused.
impl<X> Deserialize<X> for Reason {
    ghost reads = { λ _ value. reason_of value };

    ghost leaves = { λ _ value. left_of_reason value };

    fn deserialize(
        alloc: Global,
        value: &mut Value<'_>,
        _context: &X,
    ) -> Result<Reason, DeserError> {
        match value.take_table() {
            Some(mut entries) => {
                let text = take_value(&mut entries, "reason");
                let span = value.span();
                value.give_back(entries);
                read_reason(alloc, text, span)
            }
            None => refuse_kind(alloc, ValueKind::Table.word(), value),
        }
    }
}

/// The reason at the key `reason` of a table at a place.
fn read_reason(alloc: Global, text: Option<Value<'_>>, span: Span) -> Result<Reason, DeserError>
    ensures { AnswersShape (reason_by span (option_map value_view text.entry)) result }
{
    match text {
        Some(mut text) => {
            match <Spanned<Text> as Deserialize<()>>::deserialize(alloc, &mut text, &()) {
                Ok(text) => Ok(Reason(text)),
                Err(error) => Err(error),
            }
        }
        None => refuse(alloc, ErrorKind::MissingField("reason"), span),
    }
}
