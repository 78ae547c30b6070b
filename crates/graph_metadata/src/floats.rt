//! Floats, which no part of metadata that is read may hold.
ghost use Rattle.std.specs.Prelude.{◌≡◌, IfOk, string_bytes};
ghost use Rattle.serde_json.specs.View.{view, items_view, members_view};
ghost use Rattle.serde_json.specs.Written.{has_float, items_have_float, members_have_float};
ghost use Rattle.graph_metadata.specs.Floats as spec;
ghost use Rattle.graph_metadata.specs.Floats.{FloatsAreFound};
ghost use Rattle.graph_metadata.specs.Told as told;
ghost use Rattle.graph_metadata.specs.Told.{AnswersMeta};

use crate::fault::{MetaError, MetaFault, MetaReason};
use deny_text::Text;
use serde_json::{Map, Value};
use std::alloc::{AllocError, Global};

#[cycle(has_float)]
fn holds_float(value: &Value) -> bool
    ensures { result ≡ has_float (view value.now) }
{
    match value {
        Value::Number(number) => number.is_f64(),
        Value::Array(items) => items_hold_float(items),
        Value::Object(members) => members_hold_float(members),
        _ => false,
    }
}

#[cycle(has_float)]
fn items_hold_float(items: &[Value]) -> bool
    ensures { result ≡ items_have_float (items_view items.now) }
{
    'items: for item in items {
        if holds_float(item) {
            return true;
        }
    }
    false
}

#[cycle(has_float)]
fn members_hold_float(members: &Map<String, Value>) -> bool
    ensures { result ≡ members_have_float (members_view members.now.entries) }
{
    'members: for (_, value) in members {
        if holds_float(value) {
            return true;
        }
    }
    false
}

/// A place with a key behind it.
fn with_key(alloc: Global, place: &str, key: &str) -> Result<String, AllocError>
    ensures { IfOk result (λ text. string_bytes text ≡ told.with_key place.now key.now) }
{
    let text = format!(in alloc; "{place}/{key}")?;
    Ok(text)
}

/// A place with a place in a list behind it.
fn with_index(alloc: Global, place: &str, index: usize) -> Result<String, AllocError>
    ensures { IfOk result (λ text. string_bytes text ≡ told.with_index place.now index) }
{
    let text = format!(in alloc; "{place}/{index}")?;
    Ok(text)
}

/// Where the first float of a value is, which itself is at a place.
#[cycle(float_in)]
fn float_in(alloc: Global, place: &str, value: &Value) -> Result<Option<Text>, AllocError>
    ensures { IfOk result (λ found. found ≡ spec.float_in place.now (view value.now)) }
{
    match value {
        Value::Number(number) if number.is_f64() => Ok(Some(Text::copy(alloc, place)?)),
        Value::Array(items) => float_in_items(alloc, place, items),
        Value::Object(members) => float_in_members(alloc, place, members),
        _ => Ok(None),
    }
}

#[cycle(float_in)]
fn float_in_items(alloc: Global, place: &str, items: &[Value]) -> Result<Option<Text>, AllocError>
    ensures { IfOk result (λ found. found ≡ spec.float_in_items place.now 0 (items_view items.now)) }
{
    'items: for (index, item) in items.iter().enumerate() {
        if holds_float(item) {
            let place = with_index(alloc, place, index)?;
            return float_in(alloc, place.as_str(), item);
        }
    }
    Ok(None)
}

#[cycle(float_in)]
fn float_in_members(
    alloc: Global,
    place: &str,
    members: &Map<String, Value>,
) -> Result<Option<Text>, AllocError>
    ensures { IfOk result (λ found. found
        ≡ spec.float_in_members place.now (members_view members.now.entries)) }
{
    'members: for (key, value) in members {
        if holds_float(value) {
            let place = with_key(alloc, place, key.as_str())?;
            return float_in(alloc, place.as_str(), value);
        }
    }
    Ok(None)
}

/// Refuses a value that holds a float, with the place of the first.
pub(crate) fn unless_float(alloc: Global, value: &Value) -> Result<(), MetaError>
    ensures { AnswersMeta (λ _. view value.now) result (spec.unless_float (view value.now)) }
{
    if !holds_float(value) {
        return Ok(());
    }
    match float_in(alloc, "", value)? {
        Some(place) => Err(MetaError::Shape(MetaFault {
            place,
            fault: MetaReason::Float,
        })),
        None => Ok(()),
    }
}

/// A first float is found exactly where a value holds one.
pub fn floats_are_found()
    ensures { FloatsAreFound }
{}
