//! Types that are read from values, key by key.
use crate::Toml;
use crate::printed::put_seen;
use deny_text::{Spanned, Text, Texts};
use policy_toml::{DeserError, Deserialize, Hundredths, TableHelper, Value, deserialize_name};
use std::alloc::Global;
use std::fmt::Display;
use tests_files::{AnswerText, Asked, Shown, let_go};

/// The type that most groups read.
pub const FIVE: [&str; 9] = [
    "name", ", ", "count", ", ", "level", ", ", "part", ", tags", "tags",
];

static LEVELS: [(&str, u32); 3] = [("allow", 0), ("warn", 1), ("deny", 2)];

/// Puts what a group reads of the value at the key `a`, and returns whether there is such a group.
pub fn put_at_a(asked: &Asked<'_>, out: &mut AnswerText, kind: &str, root: &mut Value<'_>) -> bool {
    let mut taken = root
        .take_table()
        .and_then(|mut entries| entries.remove("a"));
    let is_group = match &mut taken {
        Some((_, value)) => put_of_a(asked, out, kind, value),
        None => false,
    };
    let_go(taken);
    is_group
}

fn put_of_a(asked: &Asked<'_>, out: &mut AnswerText, kind: &str, value: &mut Value<'_>) -> bool {
    let alloc = asked.alloc;
    match asked.group {
        "kinds at `a`" => put_kind(alloc, out, kind, value),
        "five keys at `a`" => put_table(alloc, out, value, &FIVE),
        "a list at `a`" => put_list(alloc, out, value),
        "a string at `a`, twice" => put_string_twice(alloc, out, value),
        "a name of a table at `a`" => {
            put_seen(out, deserialize_name(alloc, value, "LintLevel", &LEVELS))
        }
        _ => return false,
    }
    true
}

/// A value as one of a kind, or its faults.
fn put_kind(alloc: Global, out: &mut AnswerText, kind: &str, value: &mut Value<'_>) {
    match kind {
        "bool" => put_as::<bool>(alloc, out, value),
        "Text" => put_as::<Text>(alloc, out, value),
        "i64" => put_as::<i64>(alloc, out, value),
        "u32" => put_as::<u32>(alloc, out, value),
        "Hundredths" => put_as::<Hundredths>(alloc, out, value),
        "Texts" => put_as::<Texts>(alloc, out, value),
        _ => out.cant_be_tried(),
    }
}

fn put_as<T: Deserialize<()> + Drop>(alloc: Global, out: &mut AnswerText, value: &mut Value<'_>) {
    match T::deserialize(alloc, value, &()) {
        Ok(_) => out.put("read"),
        Err(error) => error.put(out),
    }
}

/// What the keys of a table are, which are read in this order, or what is wrong with it. A last `..` gives others back.
pub fn put_table(alloc: Global, out: &mut AnswerText, value: &mut Value<'_>, keys: &[&str]) {
    let mut read = AnswerText::new(alloc);
    match read_table(alloc, &mut read, value, keys) {
        Ok(()) => out.put_whole(&read),
        Err(error) => {
            error.put(out);
            let_go(error);
        }
    }
}

type TypedRead = Result<(), DeserError>;

fn read_table(
    alloc: Global,
    out: &mut AnswerText,
    value: &mut Value<'_>,
    keys: &[&str],
) -> TypedRead {
    match TableHelper::new(alloc, value) {
        Ok(mut table) => {
            let mut left = keys.iter();
            match left.try_for_each(|key| put_key(alloc, out, &mut table, key)) {
                Ok(()) if keys.contains(&"..") => table.finalize(alloc, Some(value)),
                Ok(()) => table.finalize(alloc, None),
                Err(error) => {
                    let_go(table);
                    Err(error)
                }
            }
        }
        Err(error) => Err(error),
    }
}

/// What a key is. A word that is none stands for itself.
fn put_key(
    alloc: Global,
    out: &mut AnswerText,
    table: &mut TableHelper<'_>,
    key: &str,
) -> TypedRead {
    match key {
        "count" => put_seen(out, table.optional::<u32, ()>(alloc, "count", &())),
        "level" => put_seen(out, table.optional::<i32, ()>(alloc, "level", &())),
        "part" => put_seen(out, table.optional::<Hundredths, ()>(alloc, "part", &())),
        "zz" => put_seen(out, table.optional::<i64, ()>(alloc, "zz", &())),
        "ignore" => put_seen(out, table.optional::<bool, ()>(alloc, "ignore", &())),
        "registries" => {
            out.made_or::<Toml, Texts, _>(table.optional(alloc, "registries", &()), "")
        }
        "tags" => { out.made_or::<Toml, Spanned<Texts>, _>(table.optional(alloc, "tags", &()), "") }
        "name, if any" => {
            out.made_or::<Toml, Spanned<Text>, _>(table.optional(alloc, "name", &()), "none")
        }
        "name" => return put_required::<Text>(out, table.required(alloc, "name", &())),
        "on" => return put_required::<bool>(out, table.required(alloc, "on", &())),
        ".." => {}
        _ => out.put(key),
    }
    Ok(())
}

fn put_required<T: Display + Drop>(out: &mut AnswerText, read: Result<T, DeserError>) -> TypedRead {
    read.map(|read| out.write_fmt(read))
}

impl Shown<Toml> for Text {
    fn put(&self, out: &mut AnswerText) {
        out.put(self.as_str());
    }
}

/// Each text behind a blank.
impl Shown<Toml> for Texts {
    fn put(&self, out: &mut AnswerText) {
        for text in self.items() {
            write!(out, " {text}");
        }
    }
}

impl<T: Shown<Toml>> Shown<Toml> for Spanned<T> {
    fn put(&self, out: &mut AnswerText) {
        self.value.put(out);
        out.put_span("@", self.span);
    }
}

/// What is read of each item of a list.
fn put_list(alloc: Global, out: &mut AnswerText, value: &mut Value<'_>) {
    if let Some(values) = value.take_array() {
        let mut items = values.into_items();
        for item in items.iter_mut() {
            out.put("[");
            put_table(alloc, out, item, &FIVE);
            out.put("]");
        }
        let_go(items);
    }
}

/// A string, what is reported where it is taken again, and where it is to be a table.
fn put_string_twice(alloc: Global, out: &mut AnswerText, value: &mut Value<'_>) {
    out.put("[");
    out.made::<Toml, _, _>(value.take_string(alloc, "a crate spec"));
    out.put("][");
    out.made::<Toml, _, _>(value.take_string(alloc, "a crate spec"));
    out.put("][");
    put_table(alloc, out, value, &["a table"]);
    out.put("]");
}
