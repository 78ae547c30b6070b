//! Values of TOML and faults as rows show them: each value with its place behind an `@`.
use crate::Toml;
use deny_text::Texts;
use std::alloc::Global;
use std::fmt::Debug;
use tests_files::{AnswerText, Shown, let_go};
use toml_subset::shapes::{DeserError, ShapeError};
use toml_subset::{Key, Str, SyntaxError, TomlError};
use toml_value::{Entries, Value, ValueInner};

/// How deep the values of most rows are put.
pub const DEPTH: u32 = 50;

impl Shown<Toml> for SyntaxError {
    fn put(&self, out: &mut AnswerText) {
        let reason = self.reason;
        write!(out, "{reason:?}");
        out.put_span(" ", self.span);
    }
}

impl Shown<Toml> for TomlError {
    fn put(&self, out: &mut AnswerText) {
        match self {
            TomlError::Syntax(fault) => fault.put(out),
            TomlError::Memory => out.want_memory(),
        }
    }
}

impl Shown<Toml> for ShapeError {
    fn put(&self, out: &mut AnswerText) {
        out.put_span("", self.span);
        write!(out, " {self}");
    }
}

/// The faults of a shape in order, each behind its place.
impl Shown<Toml> for DeserError {
    fn put(&self, out: &mut AnswerText) {
        match self {
            DeserError::Faults(faults) => out.each::<Toml, _>("; ", faults.items()),
            DeserError::Memory => out.want_memory(),
        }
    }
}

/// What was seen, as it is told where code is searched for faults, or why nothing was.
pub fn put_seen<T: Debug + Drop, E: Shown<Toml> + Drop>(out: &mut AnswerText, seen: Result<T, E>) {
    match &seen {
        Ok(seen) => write!(out, "{seen:?}"),
        Err(error) => error.put(out),
    }
}

/// A string between these, behind a mark where it was written with escapes.
fn put_string(out: &mut AnswerText, string: &Str<'_>, quote: &str) {
    if string.has_escapes() {
        out.put("!");
    }
    out.put(quote);
    out.put(string.as_str());
    out.put(quote);
}

impl Shown<Toml> for Str<'_> {
    fn put(&self, out: &mut AnswerText) {
        put_string(out, self, "'");
    }
}

impl Shown<Toml> for Key<'_> {
    fn put(&self, out: &mut AnswerText) {
        put_string(out, &self.name, "");
        out.put_span("@", self.span);
        out.put(": ");
    }
}

/// A scalar, or which other kind a value is of.
impl Shown<Toml> for ValueInner<'_> {
    fn put(&self, out: &mut AnswerText) {
        match self {
            ValueInner::String(string) => string.put(out),
            ValueInner::Integer(number) => write!(out, "{number}"),
            ValueInner::Decimal(number) => write!(out, "{number}/100"),
            ValueInner::Boolean(value) => write!(out, "{value}"),
            ValueInner::Array(_) => out.put("an array"),
            ValueInner::Table(_) => out.put("a table"),
        }
    }
}

/// A value with what is in it down to a depth, and with its place. What is in it is taken out.
#[cycle(value)]
pub fn put_value(alloc: Global, out: &mut AnswerText, depth: u32, value: &mut Value<'_>) {
    if depth > 0 {
        match value.take() {
            ValueInner::Array(values) => put_items(alloc, out, depth - 1, values.into_items()),
            ValueInner::Table(entries) => put_entries(alloc, out, depth - 1, entries),
            inner => {
                inner.put(out);
                let_go(inner);
            }
        }
    }
    out.put_span("@", value.span());
}

#[cycle(value)]
fn put_items(alloc: Global, out: &mut AnswerText, depth: u32, mut items: Vec<Value<'_>>) {
    out.put("[");
    for item in items.iter_mut() {
        out.between(", ");
        put_value(alloc, out, depth, item);
    }
    out.put("]");
    let_go(items);
}

#[cycle(value)]
fn put_entries(alloc: Global, out: &mut AnswerText, depth: u32, mut entries: Entries<'_>) {
    let names = names_of(alloc, out, &entries);
    out.put("{");
    for name in names.items() {
        if let Some((key, mut value)) = entries.remove(name.as_str()) {
            out.between(", ");
            key.put(out);
            put_value(alloc, out, depth, &mut value);
            let_go(value);
        }
    }
    out.put("}");
    let_go(names);
    let_go(entries);
}

/// The names of the keys of a table, in order.
pub fn names_of(alloc: Global, out: &mut AnswerText, table: &Entries<'_>) -> Texts {
    match table.names(alloc) {
        Ok(names) => names,
        Err(_) => {
            out.want_memory();
            Texts::new(alloc)
        }
    }
}
