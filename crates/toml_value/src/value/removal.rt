//! What is taken out of a value, and put back.
ghost use Rattle.std.specs.Prelude.{◌≡◌, List, map, option_map, is_some, IfOk};
ghost use Rattle.std.specs.List.{position};
ghost use Rattle.std.specs.Str.{bytes_eq};
ghost use Rattle.toml_value.specs.Taken.{given_back};
ghost use Rattle.toml_value.specs.Taken.{as_array, as_table, string_of, values_of, left_by, left_where};
ghost use Rattle.toml_value.specs.Removal.{entry_at, entries_without, names_in};
ghost use Rattle.toml_subset.specs.shapes.Shaped.{AnswersShape};
ghost use Rattle.toml_value.specs.Views.{value_view, content_view, values_view, entries_view};

use crate::kind::refuse_kind;
use crate::value::{Entries, Value, ValueInner, Values};
use deny_text::{Text, Texts};
use std::alloc::{AllocError, Global};
use std::mem;
use toml_subset::shapes::DeserError;
use toml_subset::{Key, Str};

impl<'de> Value<'de> {
    /// What the value is.
    pub fn inner(&self) -> &ValueInner<'de>
        ensures { content_view result.now ≡ (value_view self.now).content }
    {
        &self.inner
    }

    /// Takes a string out. Another value stays as it was, and a thing of that name is wanted at its place.
    pub fn take_string(
        &mut self,
        alloc: Global,
        wanted: &'static str,
    ) -> Result<Str<'de>, DeserError>
        ensures read { AnswersShape (string_of wanted.now (value_view self.old)) result }
        ensures left { let old = value_view self.old in
            value_view self.new ≡ left_by (string_of wanted.now old) old }
    {
        match mem::replace(&mut self.inner, ValueInner::Boolean(false)) {
            ValueInner::String(string) => Ok(string),
            other => {
                self.inner = other;
                refuse_kind(alloc, wanted, self)
            }
        }
    }

    /// Takes the items of an array out. Another value stays as it was.
    pub fn take_array(&mut self) -> Option<Values<'de>>
        ensures taken { option_map values_view result ≡ as_array (value_view self.old).content }
        ensures left { value_view self.new ≡ left_where (is_some result) (value_view self.old) }
    {
        match mem::replace(&mut self.inner, ValueInner::Boolean(false)) {
            ValueInner::Array(values) => Some(values),
            other => {
                self.inner = other;
                None
            }
        }
    }

    /// Takes the entries of a table out. Another value stays as it was.
    pub fn take_table(&mut self) -> Option<Entries<'de>>
        ensures taken { option_map entries_view result ≡ as_table (value_view self.old).content }
        ensures left { value_view self.new ≡ left_where (is_some result) (value_view self.old) }
    {
        match mem::replace(&mut self.inner, ValueInner::Boolean(false)) {
            ValueInner::Table(entries) => Some(entries),
            other => {
                self.inner = other;
                None
            }
        }
    }

    /// Makes the value a table of these entries, at its place.
    pub fn give_back(&mut self, entries: Entries<'de>)
        ensures { value_view self.new ≡ given_back (entries_view entries.entry) (value_view self.old) }
    {
        self.inner = ValueInner::Table(entries);
    }
}

impl<'de> Values<'de> {
    /// The items in order, to be taken one after another.
    pub fn into_items(self) -> Vec<Value<'de>>
        ensures { map (λ v. value_view v) result.items ≡ values_of (values_view self.entry) }
    {
        self.items
    }
}

impl<'de> Entries<'de> {
    /// Takes the first entry of a name out. The others stay in order.
    pub fn remove(&mut self, name: &str) -> Option<(Key<'de>, Value<'de>)>
        ensures taken { let old = entries_view self.old in
            option_map (λ p. (p.0, value_view p.1)) result ≡ entry_at name.now old }
        ensures left { entries_view self.new ≡ entries_without name.now (entries_view self.old) }
    {
        let place = place_of_key(&self.items, name)?;
        Some(self.items.remove(place))
    }

    /// The names of the keys in order.
    pub fn names(&self, alloc: Global) -> Result<Texts, AllocError>
        ensures { IfOk result (λ names. names ≡ names_in (entries_view self.now)) }
    {
        names_of(alloc, &self.items)
    }
}

/// The place of the first entry of a name.
fn place_of_key(entries: &[(Key<'_>, Value<'_>)], name: &str) -> Option<usize>
    ensures { result ≡ position (λ p. bytes_eq p.0.name.text name.now) entries.now }
{
    entries
        .iter()
        .position(|(key, _)| key.name.as_str() == name)
}

fn names_of(alloc: Global, entries: &[(Key<'_>, Value<'_>)]) -> Result<Texts, AllocError>
    ensures { IfOk result (λ names. names ≡ map (λ p. p.0.name.text) entries.now) }
{
    let mut names = Texts::new(alloc);
    'entries: for (key, _) in entries {
        let name = Text::copy(alloc, key.name.as_str())?;
        names.push(name)?;
    }
    Ok(names)
}
