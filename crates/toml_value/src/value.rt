//! Values with their places.
ghost use Rattle.std.specs.Prelude.{◌≡◌, ◌==◌, ◌++◌, [], ◌∷◌, map, option_map, true, false, IfOk, OnOk, OnErr};
ghost use Rattle.std.specs.List.{slice_split};
ghost use Rattle.std.specs.Option.{option_copied};
ghost use Rattle.toml_subset.specs.Data.{boolean};
ghost use Rattle.toml_value.specs.Lookup.{as_text, has_entries, value_at, item_at, index_of_digits, step_to};
ghost use Rattle.toml_value.specs.Lookup.{steps_to, pointed_at, with_item, with_entry};
ghost use Rattle.toml_value.specs.Views.{value_view, content_view, values_view, entries_view};
ghost use Rattle.toml_value.specs.Views.{items_from_list, entries_from_list};

mod removal;

use deny_text::Span;
use std::alloc::{AllocError, Global};
use std::mem;
use toml_subset::{Key, Str, are_digits, count, is_whole};

/// A value and its place, which no caller can set.
#[derive(Drop)]
#[cycle(value)]
pub struct Value<'de> {
    inner: ValueInner<'de>,
    span: Span,
}

/// What a value is.
#[derive(Drop)]
#[cycle(value)]
pub enum ValueInner<'de> {
    String(Str<'de>),
    Integer(i64),
    /// Whole hundredths.
    Decimal(i64),
    Boolean(bool),
    Array(Values<'de>),
    Table(Entries<'de>),
}

/// The items of an array, in order.
#[derive(Drop)]
#[cycle(value)]
pub struct Values<'de> {
    items: Vec<Value<'de>>,
}

/// The entries of a table, in the order in which their keys first appear.
#[derive(Drop)]
#[cycle(value)]
pub struct Entries<'de> {
    items: Vec<(Key<'de>, Value<'de>)>,
}

impl<'de> Value<'de> {
    pub(crate) fn new(inner: ValueInner<'de>, span: Span) -> Value<'de>
        ensures { value_view result ≡ record { content = content_view inner.entry; span = span } }
    {
        Value { inner, span }
    }

    /// Lets the value go.
    pub(crate) fn let_go(self) {}

    /// Where the value is in the text.
    pub fn span(&self) -> Span
        ensures { result ≡ (value_view self.now).span }
    {
        self.span
    }

    /// The text of a string.
    pub fn as_str(&self) -> Option<&str>
        ensures { option_copied result ≡ as_text (value_view self.now).content }
    {
        match &self.inner {
            ValueInner::String(string) => Some(string.as_str()),
            _ => None,
        }
    }

    /// Hands the inner out, and leaves the boolean false at the same place.
    pub fn take(&mut self) -> ValueInner<'de>
        ensures taken { content_view result ≡ (value_view self.old).content }
        ensures left { value_view self.new
            ≡ record { content = boolean false; span = (value_view self.old).span } }
    {
        mem::replace(&mut self.inner, ValueInner::Boolean(false))
    }

    /// Whether it is a table with a key left.
    pub fn has_keys(&self) -> bool
        ensures { result ≡ has_entries (value_view self.now).content }
    {
        match &self.inner {
            ValueInner::Table(entries) => !entries.items.is_empty(),
            _ => false,
        }
    }

    /// The value at the end of a path of keys and places: `/a/0/b`. The empty path leads to the value itself.
    pub fn pointer(&self, path: &str) -> Option<&Value<'de>>
        ensures { option_map (λ v. value_view v.now) result ≡ pointed_at path.now (value_view self.now) }
    {
        if path.is_empty() {
            return Some(self);
        }
        walk(self, path.strip_prefix('/')?)
    }
}

/// The value at the end of the parts between slashes.
fn walk<'v, 'de>(target: &'v Value<'de>, rest: &str) -> Option<&'v Value<'de>>
    ensures { option_map (λ v. value_view v.now) result
        ≡ steps_to (slice_split (λ b. b == 47) rest.now) (value_view target.now) }
{
    match rest.split_once('/') {
        Some((part, more)) => walk(step(target, part)?, more),
        None => step(target, rest),
    }
}

/// What one part of a path leads to.
fn step<'v, 'de>(target: &'v Value<'de>, part: &str) -> Option<&'v Value<'de>>
    ensures { option_map (λ v. value_view v.now) result ≡ step_to part.now (value_view target.now).content }
{
    match &target.inner {
        ValueInner::Array(values) => values.get(place_of_part(part.as_bytes())?),
        ValueInner::Table(entries) => entries.get(part),
        _ => None,
    }
}

/// The place that decimal digits name.
fn place_of_part(part: &[u8]) -> Option<usize>
    ensures { result ≡ index_of_digits part.now }
{
    if are_digits(part) && is_whole(part) {
        let place = count(10, part)?;
        Some(place as usize)
    } else {
        None
    }
}

/// Appends an item to others. One that finds no room is dropped.
fn push_item<'de>(items: &mut Vec<Value<'de>>, item: Value<'de>) -> Result<(), AllocError>
    ensures ok { OnOk result (items.new.items ≡ items.old.items ++ item.entry ∷ []) }
    ensures err { OnErr result (items.new.items ≡ items.old.items) }
{
    items.push(item)?;
    Ok(())
}

/// Appends an entry to others. One that finds no room is dropped.
fn push_pair<'de>(
    items: &mut Vec<(Key<'de>, Value<'de>)>,
    key: Key<'de>,
    value: Value<'de>,
) -> Result<(), AllocError>
    ensures ok { OnOk result (items.new.items ≡ items.old.items ++ (key.entry, value.entry) ∷ []) }
    ensures err { OnErr result (items.new.items ≡ items.old.items) }
{
    items.push((key, value))?;
    Ok(())
}

impl<'de> Values<'de> {
    /// The item at a place.
    pub(crate) fn get(&self, place: usize) -> Option<&Value<'de>>
        ensures { option_map (λ v. value_view v.now) result ≡ item_at place (values_view self.now) }
    {
        if place < self.items.len() {
            Some(&self.items[place])
        } else {
            None
        }
    }

    /// The empty list, which takes no memory.
    pub fn new(alloc: Global) -> Values<'de>
        ensures { values_view result ≡ items_from_list [] }
    {
        Values {
            items: Vec::new(alloc),
        }
    }

    /// The items in order.
    pub fn items(&self) -> &[Value<'de>]
        ensures { items_from_list (map (λ v. value_view v) result.now) ≡ values_view self.now }
    {
        &self.items
    }

    /// Lets the items go.
    pub(crate) fn let_go(self) {}

    /// The items and a further one. Where memory ends, nothing is left.
    pub(crate) fn with(self, item: Value<'de>) -> Result<Values<'de>, AllocError>
        ensures { IfOk result (λ new. values_view new
            ≡ with_item (values_view self.entry) (value_view item.entry)) }
    {
        let mut values = self;
        values.push(item)?;
        Ok(values)
    }

    /// Appends an item. An item that finds no room is dropped.
    pub fn push(&mut self, item: Value<'de>) -> Result<(), AllocError>
        ensures ok { OnOk result (values_view self.new
            ≡ with_item (values_view self.old) (value_view item.entry)) }
        ensures err { OnErr result (values_view self.new ≡ values_view self.old) }
    {
        push_item(&mut self.items, item)?;
        Ok(())
    }
}

impl<'de> Entries<'de> {
    pub(crate) fn new(alloc: Global) -> Entries<'de>
        ensures { entries_view result ≡ entries_from_list [] }
    {
        Entries {
            items: Vec::new(alloc),
        }
    }

    /// Appends an entry. One that finds no room is dropped.
    pub(crate) fn push(&mut self, key: Key<'de>, value: Value<'de>) -> Result<(), AllocError>
        ensures ok { OnOk result (entries_view self.new
            ≡ with_entry (entries_view self.old) key.entry (value_view value.entry)) }
        ensures err { OnErr result (entries_view self.new ≡ entries_view self.old) }
    {
        push_pair(&mut self.items, key, value)?;
        Ok(())
    }

    /// The value at a key, by the text that the key stands for.
    pub(crate) fn get(&self, name: &str) -> Option<&Value<'de>>
        ensures { option_map (λ v. value_view v.now) result ≡ value_at name.now (entries_view self.now) }
    {
        find(&self.items, name)
    }
}

fn find<'v, 'de>(entries: &'v [(Key<'de>, Value<'de>)], name: &str) -> Option<&'v Value<'de>>
    ensures { option_map (λ v. value_view v.now) result
        ≡ value_at name.now (entries_from_list (map (λ p. (p.0, value_view p.1)) entries.now)) }
{
    let mut place = 0;
    'entries: while place < entries.len() {
        let (key, value) = &entries[place];
        if key.name.as_str() == name {
            return Some(value);
        }
        place += 1;
    }
    None
}
