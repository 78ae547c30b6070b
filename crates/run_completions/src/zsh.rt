//! The completion for zsh.
//! Called by `print_text` of `main`; no clause is here, the split of the texts into statics may change.

use crate::commands::{has_value, is_word, push_commands, push_names, top};
use run_request::options::{OptionRow, OptionUse, OptionValues, SubcommandRow, subcommand_rows};
use std::alloc::AllocError;

static HEAD: &str = "\
#compdef cargo-deny
# Completes the words of cargo-deny in zsh.
";

static MIDDLE: &str = "
_cargo-deny() {
    local curcontext=\"$curcontext\" state line
    typeset -A opt_args
    _arguments -s -S -C -A '-*' \\
";

static REST: &str = "        '*::word:->rest'
    [[ $state == rest ]] || return
    case $words[1] in
";

static TAIL: &str = "    esac
}
if [[ $funcstack[1] == _cargo-deny ]]; then
    _cargo-deny \"$@\"
else
    compdef _cargo-deny cargo-deny
fi
";

/// A character of help in a specification between quotes.
fn push_character(text: &mut String, character: char) -> Result<(), AllocError> {
    match character {
        '\'' => text.push_str("'\\''"),
        '[' => text.push_str("\\["),
        ']' => text.push_str("\\]"),
        ':' => text.push_str("\\:"),
        '`' => text.push_str("\\`"),
        _ => text.push(character),
    }
}

fn push_help(text: &mut String, help: &str) -> Result<(), AllocError> {
    for character in help.chars() {
        push_character(text, character)?;
    }
    Ok(())
}

/// What may stand for a value.
fn push_values(text: &mut String, values: OptionValues) -> Result<(), AllocError> {
    match values {
        OptionValues::Any | OptionValues::Form(_) => text.push_str(" "),
        OptionValues::File => text.push_str("_files"),
        OptionValues::Folder => text.push_str("_directories"),
        OptionValues::Names(names) => {
            text.push_str("(")?;
            push_names(text, names)?;
            text.push_str(")")
        }
    }
}

/// The spellings of an option; one that is used once excludes itself.
fn push_spellings(text: &mut String, row: &OptionRow) -> Result<(), AllocError> {
    let name = row.name;
    let (short, long) = if has_value(row) { ("+", "=") } else { ("", "") };
    match (row.letter, row.kind) {
        (Some(letter), OptionUse::Many) => {
            write!(text, "'*'{{-{letter}{short},--{name}{long}}}'")
        }
        (Some(letter), _) => {
            write!(
                text,
                "'(-{letter} --{name})'{{-{letter}{short},--{name}{long}}}'"
            )
        }
        (None, OptionUse::Many) => write!(text, "'*--{name}{long}"),
        (None, _) => write!(text, "'--{name}{long}"),
    }
}

fn push_row(text: &mut String, row: &OptionRow) -> Result<(), AllocError> {
    let value = row.value;
    text.push_str("        ")?;
    if is_word(row) {
        let place = if matches!(row.kind, OptionUse::Word) {
            "1"
        } else {
            "*"
        };
        write!(text, "'{place}:{value}:")?;
        push_values(text, row.values)?;
    } else {
        push_spellings(text, row)?;
        text.push_str("[")?;
        push_help(text, row.help)?;
        text.push_str("]")?;
        if has_value(row) {
            write!(text, ":{value}:")?;
            push_values(text, row.values)?;
        }
    }
    text.push_str("' \\\n")
}

fn push_rows(text: &mut String, rows: &[OptionRow]) -> Result<(), AllocError> {
    for row in rows {
        push_row(text, row)?;
    }
    text.push_str("        '(-h --help)'{-h,--help}'[Print help]'")
}

/// The function of a command.
fn push_command(text: &mut String, command: &SubcommandRow) -> Result<(), AllocError> {
    let name = command.name;
    write!(text, "\n_cargo-deny-{name}() {{\n    _arguments -s -S \\\n")?;
    push_rows(text, command.rows)?;
    text.push_str("\n}\n")
}

/// What stands for the command, each with its help.
fn push_choice(text: &mut String) -> Result<(), AllocError> {
    text.push_str("        '1:command:((")?;
    for command in subcommand_rows() {
        let name = command.name;
        write!(text, "{name}\\:\"")?;
        push_help(text, command.about)?;
        text.push_str("\" ")?;
    }
    text.push_str("help\\:\"Print help\"))' \\\n")
}

/// A command's words are those of its function.
fn push_cases(text: &mut String) -> Result<(), AllocError> {
    for command in subcommand_rows() {
        let name = command.name;
        write!(text, "        {name}) _cargo-deny-{name} ;;\n")?;
    }
    text.push_str("        help) _arguments '1:command:(")?;
    push_commands(text)?;
    text.push_str(")' ;;\n")
}

pub fn push_zsh(text: &mut String) -> Result<(), AllocError> {
    text.push_str(HEAD)?;
    for command in subcommand_rows() {
        push_command(text, command)?;
    }
    text.push_str(MIDDLE)?;
    push_rows(text, top().rows)?;
    text.push_str(" \\\n        '(-V --version)'{-V,--version}'[Print version]' \\\n")?;
    push_choice(text)?;
    text.push_str(REST)?;
    push_cases(text)?;
    text.push_str(TAIL)
}
