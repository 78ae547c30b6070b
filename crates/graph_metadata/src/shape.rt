//! The shapes of single values, and the ids of packages.
ghost use Rattle.std.specs.Prelude.{◌≡◌, codes, option_map, option_copied, IfOk, OnOk};
ghost use Rattle.std.specs.FinMap as finmap;
ghost use Rattle.serde_json.specs.View.{view, items_view};
ghost use Rattle.graph_metadata.specs.Known.{given_back};
ghost use Rattle.graph_metadata.specs.Shape as spec;
ghost use Rattle.graph_metadata.specs.Told.{AnswersMeta, object_place_text, key_place, item_place};

use crate::fault::{MetaError, MetaReason, ObjectPlace, fault_at, fault_in, fault_of};
use deny_text::{Text, TextMap, Texts};
use serde_json::Value;
use std::alloc::{AllocError, Global};

/// From each id to the place of the first package that has it.
pub(crate) type IdPlaces = TextMap<usize>;

pub(crate) fn object_here<'v>(
    alloc: Global,
    place: ObjectPlace,
    value: &'v Value,
) -> Result<&'v Value, MetaError>
    ensures { AnswersMeta (λ found. view found.now) result (spec.object_here (object_place_text place) (view value.now)) }
{
    match value {
        Value::Object(_) => Ok(value),
        _ => Err(fault_of(alloc, place, MetaReason::WrongKind)),
    }
}

/// A string that has to be there.
pub(crate) fn text_at<'v>(
    alloc: Global,
    place: ObjectPlace,
    key: &str,
    value: &'v Value,
) -> Result<&'v str, MetaError>
    ensures { AnswersMeta (λ text. text.now) result (spec.text_at place key.now (view value.now)) }
{
    match value.get(key) {
        Some(Value::String(text)) => Ok(text.as_str()),
        Some(_) => Err(fault_at(alloc, place, key, MetaReason::WrongKind)),
        None => Err(fault_at(alloc, place, key, MetaReason::Missing)),
    }
}

/// A string, or null or nothing.
pub(crate) fn optional_text_at<'v>(
    alloc: Global,
    place: ObjectPlace,
    key: &str,
    value: &'v Value,
) -> Result<Option<&'v str>, MetaError>
    ensures { AnswersMeta (λ text. option_copied text) result
        (spec.optional_text_at place key.now (view value.now)) }
{
    match value.get(key) {
        None | Some(Value::Null) => Ok(None),
        Some(Value::String(text)) => Ok(Some(text.as_str())),
        Some(_) => Err(fault_at(alloc, place, key, MetaReason::WrongKind)),
    }
}

/// A list that has to be there.
pub(crate) fn list_at<'v>(
    alloc: Global,
    place: ObjectPlace,
    key: &str,
    value: &'v Value,
) -> Result<&'v [Value], MetaError>
    ensures { AnswersMeta (λ items. items_view items.now) result (spec.list_at place key.now (view value.now)) }
{
    match value.get(key) {
        Some(Value::Array(items)) => Ok(items),
        Some(_) => Err(fault_at(alloc, place, key, MetaReason::WrongKind)),
        None => Err(fault_at(alloc, place, key, MetaReason::Missing)),
    }
}

/// A list; where nothing is it is empty.
pub(crate) fn list_or_empty_at<'v>(
    alloc: Global,
    place: ObjectPlace,
    key: &str,
    value: &'v Value,
) -> Result<&'v [Value], MetaError>
    ensures { AnswersMeta (λ items. items_view items.now) result
        (spec.list_or_empty_at place key.now (view value.now)) }
{
    match value.get(key) {
        Some(Value::Array(items)) => Ok(items),
        Some(_) => Err(fault_at(alloc, place, key, MetaReason::WrongKind)),
        None => Ok(&[]),
    }
}

/// A list, or null or nothing.
pub(crate) fn optional_list_at<'v>(
    alloc: Global,
    place: ObjectPlace,
    key: &str,
    value: &'v Value,
) -> Result<Option<&'v [Value]>, MetaError>
    ensures { AnswersMeta (λ items. option_map (λ list. items_view list.now) items) result
        (spec.optional_list_at place key.now (view value.now)) }
{
    match value.get(key) {
        None | Some(Value::Null) => Ok(None),
        Some(Value::Array(items)) => Ok(Some(items)),
        Some(_) => Err(fault_at(alloc, place, key, MetaReason::WrongKind)),
    }
}

/// An item that has to be a string.
pub(crate) fn text_here<'v>(
    alloc: Global,
    place: ObjectPlace,
    key: &str,
    index: usize,
    value: &'v Value,
) -> Result<&'v str, MetaError>
    ensures { AnswersMeta (λ text. text.now) result
        (spec.text_here (item_place place key.now index) (view value.now)) }
{
    match value {
        Value::String(text) => Ok(text.as_str()),
        _ => Err(fault_in(alloc, place, key, index, MetaReason::WrongKind)),
    }
}

/// The items, each a string.
pub(crate) fn texts_in(
    alloc: Global,
    place: ObjectPlace,
    key: &str,
    items: &[Value],
) -> Result<Texts, MetaError>
    ensures { AnswersMeta (λ texts. texts) result (spec.texts_in place key.now (items_view items.now)) }
{
    let mut texts = Texts::from(Vec::with_capacity(alloc, items.len())?);
    'items: for (index, item) in items.iter().enumerate() {
        let text = text_here(alloc, place, key, index, item)?;
        texts.push(Text::copy(alloc, text)?)?;
    }
    Ok(texts)
}

/// A list of strings; where nothing is it is empty.
#[tactic(auto, unfolding(crate::specs::Shape::texts_or_empty_at))]
pub(crate) fn texts_or_empty_at(
    alloc: Global,
    place: ObjectPlace,
    key: &str,
    value: &Value,
) -> Result<Texts, MetaError>
    ensures { AnswersMeta (λ texts. texts) result (spec.texts_or_empty_at place key.now (view value.now)) }
{
    let items = list_or_empty_at(alloc, place, key, value)?;
    texts_in(alloc, place, key, items)
}

/// A list of strings, or null or nothing.
#[tactic(auto, unfolding(crate::specs::Shape::optional_texts_at))]
pub(crate) fn optional_texts_at(
    alloc: Global,
    place: ObjectPlace,
    key: &str,
    value: &Value,
) -> Result<Option<Texts>, MetaError>
    ensures { AnswersMeta (λ texts. texts) result (spec.optional_texts_at place key.now (view value.now)) }
{
    match optional_list_at(alloc, place, key, value)? {
        Some(items) => Ok(Some(texts_in(alloc, place, key, items)?)),
        None => Ok(None),
    }
}

/// The string `id` of an object.
fn id_of_item(value: &Value) -> Option<&str>
    ensures { option_copied result ≡ spec.id_of_item (view value.now) }
{
    match value.get("id") {
        Some(Value::String(text)) => Some(text.as_str()),
        _ => None,
    }
}

/// Gives an id the place again that it had before another was set, where it had one.
fn give_back(
    alloc: Global,
    known: &mut IdPlaces,
    id: &str,
    first: Option<usize>,
) -> Result<(), AllocError>
    ensures { OnOk result (known.new ≡ given_back known.old id.now first) }
{
    if let Some(first) = first {
        known.insert(Text::copy(alloc, id)?, first)?;
    }
    Ok(())
}

/// Notes the id of a package, unless an earlier one has it. A new id is looked up once.
fn note_place(
    alloc: Global,
    known: &mut IdPlaces,
    index: usize,
    id: Option<&str>,
) -> Result<(), AllocError>
    ensures { OnOk result (known.new ≡ spec.with_place known.old index (option_copied id.entry)) }
{
    let Some(id) = id else {
        return Ok(());
    };
    let first = known.insert(Text::copy(alloc, id)?, index)?;
    give_back(alloc, known, id, first)
}

/// The ids of packages, with the place of the first that has each.
pub(crate) fn known_of(alloc: Global, packages: &[Value]) -> Result<IdPlaces, AllocError>
    ensures { IfOk result (λ known. known ≡ spec.known_of (items_view packages.now)) }
{
    let mut known = IdPlaces::new(alloc);
    'packages: for (index, item) in packages.iter().enumerate() {
        note_place(alloc, &mut known, index, id_of_item(item))?;
    }
    Ok(known)
}

/// The place of the package with the id at a key.
pub(crate) fn known_at(
    alloc: Global,
    known: &IdPlaces,
    place: ObjectPlace,
    key: &str,
    id: &str,
) -> Result<usize, MetaError>
    ensures { AnswersMeta (λ found. found) result (spec.known_place known.now (key_place place key.now) id.now) }
{
    match known.get(id) {
        Some(found) => Ok(*found),
        None => Err(fault_at(alloc, place, key, MetaReason::UnknownId)),
    }
}

/// The place of the package with the id that is an item of the list at a key.
pub(crate) fn known_in(
    alloc: Global,
    known: &IdPlaces,
    place: ObjectPlace,
    key: &str,
    index: usize,
    id: &str,
) -> Result<usize, MetaError>
    ensures { AnswersMeta (λ found. found) result
        (spec.known_place known.now (item_place place key.now index) id.now) }
{
    match known.get(id) {
        Some(found) => Ok(*found),
        None => Err(fault_in(alloc, place, key, index, MetaReason::UnknownId)),
    }
}

/// An id, where the first that has it is the one at this index.
pub(crate) fn new_at<'v>(
    alloc: Global,
    firsts: &IdPlaces,
    place: ObjectPlace,
    index: usize,
    id: &'v str,
) -> Result<&'v str, MetaError>
    ensures { AnswersMeta (λ id. id.now) result
        (spec.new_from index (key_place place (codes "id")) id.now (finmap.get firsts.now id.now)) }
{
    match firsts.get(id) {
        Some(first) if *first == index => Ok(id),
        _ => Err(fault_at(alloc, place, "id", MetaReason::RepeatedId)),
    }
}
