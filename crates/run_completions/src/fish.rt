//! The completion for fish.
//! Called by `print_text` of `main`; no clause is here, quoting and order show in the stored output alone.

use crate::commands::{has_value, is_word, names_of, push_commands, push_names, top};
use run_request::options::{OptionRow, OptionValues, SubcommandRow, subcommand_rows};
use std::alloc::AllocError;

static HEAD: &str = "\
# Completes the words of cargo-deny in fish.
complete -c cargo-deny -f
";

/// A text between quotes.
fn push_quoted(text: &mut String, quoted: &str) -> Result<(), AllocError> {
    text.push_str("'")?;
    for character in quoted.chars() {
        match character {
            '\'' => text.push_str("\\'")?,
            '\\' => text.push_str("\\\\")?,
            _ => text.push(character)?,
        }
    }
    text.push_str("'")
}

/// When something is offered: behind a command, or in front of any.
fn push_condition(text: &mut String, command: &str) -> Result<(), AllocError> {
    if command.is_empty() {
        text.push_str("complete -c cargo-deny -n 'not __fish_seen_subcommand_from ")?;
        push_commands(text)?;
    } else {
        write!(
            text,
            "complete -c cargo-deny -n '__fish_seen_subcommand_from {command}"
        )?;
    }
    text.push_str("'")
}

/// What may stand for a value.
fn push_values(text: &mut String, values: OptionValues) -> Result<(), AllocError> {
    match values {
        OptionValues::Any | OptionValues::Form(_) => text.push_str(" -x"),
        OptionValues::File => text.push_str(" -r -F"),
        OptionValues::Folder => text.push_str(" -x -a '(__fish_complete_directories)'"),
        OptionValues::Names(names) => {
            text.push_str(" -x -a '")?;
            push_names(text, names)?;
            text.push_str("'")
        }
    }
}

fn push_letter(text: &mut String, letter: Option<char>) -> Result<(), AllocError> {
    match letter {
        Some(letter) => write!(text, " -s {letter}"),
        None => Ok(()),
    }
}

fn push_option(text: &mut String, row: &OptionRow) -> Result<(), AllocError> {
    let name = row.name;
    push_letter(text, row.letter)?;
    write!(text, " -l {name}")?;
    if has_value(row) {
        push_values(text, row.values)?;
    }
    text.push_str(" -d ")?;
    push_quoted(text, row.help)
}

/// What a word without a name may be.
fn push_named(text: &mut String, row: &OptionRow) -> Result<(), AllocError> {
    if matches!(row.values, OptionValues::File) {
        return text.push_str(" -F");
    }
    text.push_str(" -a '")?;
    push_names(text, names_of(row.values))?;
    text.push_str("'")
}

fn push_row(text: &mut String, command: &str, row: &OptionRow) -> Result<(), AllocError> {
    if is_word(row) && matches!(row.values, OptionValues::Any) {
        return Ok(());
    }
    push_condition(text, command)?;
    if is_word(row) {
        push_named(text, row)?;
    } else {
        push_option(text, row)?;
    }
    text.push_str("\n")
}

fn push_rows(text: &mut String, command: &SubcommandRow) -> Result<(), AllocError> {
    for row in command.rows {
        push_row(text, command.name, row)?;
    }
    push_condition(text, command.name)?;
    text.push_str(" -s h -l help -d 'Print help'\n")
}

/// A command is offered where none is yet.
fn push_command(text: &mut String, name: &str, help: &str) -> Result<(), AllocError> {
    push_condition(text, "")?;
    write!(text, " -a {name} -d ")?;
    push_quoted(text, help)?;
    text.push_str("\n")
}

pub fn push_fish(text: &mut String) -> Result<(), AllocError> {
    text.push_str(HEAD)?;
    push_rows(text, &top())?;
    push_condition(text, "")?;
    text.push_str(" -s V -l version -d 'Print version'\n")?;
    for command in subcommand_rows() {
        push_command(text, command.name, command.about)?;
    }
    push_command(text, "help", "Print help")?;
    for command in subcommand_rows() {
        push_rows(text, command)?;
    }
    Ok(())
}
