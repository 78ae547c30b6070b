//! Whole texts of TOML: their values, what is at a path, and the types that are read from them.
use crate::printed::{DEPTH, names_of, put_value};
use crate::typed::{FIVE, put_at_a, put_table};
use std::alloc::Global;
use tests_files::{AnswerText, Asked, Shown, let_go};
use toml_value::{Value, ValueInner, parse};

/// Puts what a group makes of a text, and of the words behind its bar, and returns whether there is such a group.
pub fn put(asked: &Asked<'_>, out: &mut AnswerText) -> bool {
    let (text, words) = asked.text.split_once(" | ").unwrap_or((asked.text, ""));
    match parse(asked.alloc, text) {
        Ok(mut root) => {
            let is_group = put_root(asked, out, words, &mut root);
            let_go(root);
            is_group
        }
        Err(error) => {
            error.put(out);
            true
        }
    }
}

fn put_root(asked: &Asked<'_>, out: &mut AnswerText, words: &str, root: &mut Value<'_>) -> bool {
    let alloc = asked.alloc;
    match asked.group {
        "texts" | "texts with faults" | "examples" | "examples with faults" | "refused keys" => {
            put_value(alloc, out, DEPTH, root)
        }
        "deep texts" => put_value(alloc, out, 0, root),
        "at paths" => put_paths(out, root, words),
        "names" => put_names(alloc, out, root),
        "taken twice" => {
            put_taken(out, root);
            put_taken(out, root);
        }
        "a type of two keys" => {
            let keys = ["ignore ", "ignore", ", registries", "registries"];
            put_table(alloc, out, root, &keys)
        }
        "a type of five keys" => put_table(alloc, out, root, &FIVE),
        "a name behind a count" => put_table(alloc, out, root, &["count", ", ", "name"]),
        "a name, and then what is left" => {
            put_table(alloc, out, root, &["name, if any", ".."]);
            out.put_span(", left@", root.span());
            put_table(alloc, out, root, &[", ", "name, if any", ".."]);
            put_table(alloc, out, root, &[", ", "on", ", ", "zz"]);
        }
        _ => return put_at_a(asked, out, words, root),
    }
    true
}

/// What is at each path: the text of a string, and the place.
fn put_paths(out: &mut AnswerText, root: &Value<'_>, paths: &str) {
    let mut is_behind = false;
    for path in paths.split_whitespace() {
        out.put(if is_behind { " " } else { "" });
        match root.pointer(path) {
            Some(value) => put_found(out, value),
            None => out.put("none"),
        }
        is_behind = true;
    }
}

fn put_found(out: &mut AnswerText, value: &Value<'_>) {
    if let Some(text) = value.as_str() {
        write!(out, "'{text}'");
    }
    out.put_span("@", value.span());
}

fn put_names(alloc: Global, out: &mut AnswerText, root: &Value<'_>) {
    if let ValueInner::Table(entries) = root.inner() {
        let names = names_of(alloc, out, entries);
        for name in names.items() {
            write!(out, "{name};");
        }
        let_go(names);
    }
}

/// Takes a value out, and puts what it was and whether it had keys.
fn put_taken(out: &mut AnswerText, value: &mut Value<'_>) {
    let keys = if value.has_keys() { "keys" } else { "no keys" };
    let taken = value.take();
    taken.put(out);
    let_go(taken);
    write!(out, " with {keys};");
}
