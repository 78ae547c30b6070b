//! What is said of values that are refused.
//! Called by `refused` of read; every text here may change, no clause names one.

use crate::options::{OptionRow, OptionUse, OptionValues};
use std::alloc::{AllocError, Global};

/// That a value is outside its table, and which values are possible.
pub(crate) fn bad_value(
    alloc: Global,
    rows: &[OptionRow],
    option: &str,
    value: &str,
) -> Result<String, AllocError> {
    let mut text = format!(in alloc; "invalid value '{value}' for '")?;
    match rows.iter().find(|row| row.name == option) {
        Some(row) => {
            push_label(&mut text, row)?;
            push_possible(&mut text, row.values)?;
        }
        None => write!(text, "{option}'")?,
    }
    Ok(text)
}

/// That a depth for graphs is beside hidden graphs.
pub(crate) fn depth_with_hide(alloc: Global) -> Result<String, AllocError> {
    String::from_str(
        alloc,
        "the argument '--feature-depth <DEPTH>' cannot be used with '--hide-inclusion-graph'",
    )
}

/// How usage writes the option, and the quote behind it.
fn push_label(text: &mut String, row: &OptionRow) -> Result<(), AllocError> {
    let (name, value) = (row.name, row.value);
    match row.kind {
        OptionUse::One | OptionUse::Once | OptionUse::Many => write!(text, "--{name} <{value}>'"),
        OptionUse::Flag => write!(text, "--{name}'"),
        OptionUse::Words => write!(text, "[{value}]...'"),
        OptionUse::Word => write!(text, "<{value}>'"),
    }
}

/// The names that are possible, or the form.
fn push_possible(text: &mut String, values: OptionValues) -> Result<(), AllocError> {
    match values {
        OptionValues::Names(names) => push_names(text, names),
        OptionValues::Form(form) => write!(text, "\n  [form: {form}]"),
        OptionValues::Any | OptionValues::File | OptionValues::Folder => Ok(()),
    }
}

fn push_names(text: &mut String, names: &[&str]) -> Result<(), AllocError> {
    let mut before = "\n  [possible values: ";
    for name in names {
        write!(text, "{before}{name}")?;
        before = ", ";
    }
    text.push_str("]")
}
