//! The completion for bash.
//! Called by `print_text` of `main`; no function has a clause, the stored output pins what is printed.

use crate::commands::{has_file, has_value, is_word, names_of, push_commands, push_names, top};
use run_request::options::{OptionRow, OptionValues, SubcommandRow, subcommand_rows};
use std::alloc::AllocError;

static HEAD: &str = "\
# Completes the words of cargo-deny in bash 4 and later.
_cargo_deny_names() {
    mapfile -t COMPREPLY < <(compgen -W \"$1\" -- \"$2\")
}
_cargo_deny_paths() {
    compopt -o filenames
    mapfile -t COMPREPLY < <(compgen \"$1\" -- \"$2\")
}
_cargo_deny_paths_or_names() {
    if [[ $2 == -* ]]; then _cargo_deny_names \"$1\" \"$2\"; else _cargo_deny_paths -f \"$2\"; fi
}
_cargo_deny() {
    local current=${COMP_WORDS[COMP_CWORD]} previous=${COMP_WORDS[COMP_CWORD-1]} command= value= word
    if [[ $current == = ]]; then
        current=
    elif [[ $previous == = ]]; then
        previous=${COMP_WORDS[COMP_CWORD-2]}
    fi
    COMPREPLY=()
    for word in \"${COMP_WORDS[@]:1:COMP_CWORD-1}\"; do
        [[ $word == = ]] && continue
        if [[ $value ]]; then
            value=
            continue
        fi
        case $command,$word in
";

static MIDDLE: &str = "        esac
    done
    case $command,$previous in
";

static TAIL: &str = "    esac
}
complete -F _cargo_deny cargo-deny
";

/// The patterns of an option of a command: its long name, and its letter if it has one.
fn push_patterns(text: &mut String, command: &str, row: &OptionRow) -> Result<(), AllocError> {
    let name = row.name;
    write!(text, "{command},--{name}")?;
    match row.letter {
        Some(letter) => write!(text, " | {command},-{letter}"),
        None => Ok(()),
    }
}

/// The options of a command whose next word is their value.
fn push_valued(text: &mut String, command: &SubcommandRow) -> Result<(), AllocError> {
    for row in command.rows {
        if has_value(row) {
            text.push_str("            ")?;
            push_patterns(text, command.name, row)?;
            text.push_str(") value=next ;;\n")?;
        }
    }
    Ok(())
}

/// The words that a value may be.
fn push_values(text: &mut String, values: OptionValues) -> Result<(), AllocError> {
    match values {
        OptionValues::Any | OptionValues::Form(_) => text.push_str(""),
        OptionValues::File => text.push_str("_cargo_deny_paths -f \"$current\""),
        OptionValues::Folder => text.push_str("_cargo_deny_paths -d \"$current\""),
        OptionValues::Names(names) => {
            text.push_str("_cargo_deny_names '")?;
            push_names(text, names)?;
            text.push_str("' \"$current\"")
        }
    }
}

/// The values of the options of a command.
fn push_option_values(text: &mut String, command: &SubcommandRow) -> Result<(), AllocError> {
    for row in command.rows {
        if has_value(row) {
            text.push_str("        ")?;
            push_patterns(text, command.name, row)?;
            text.push_str(") ")?;
            push_values(text, row.values)?;
            text.push_str(" ;;\n")?;
        }
    }
    Ok(())
}

/// What a row adds to the words that may be there: the option, or the words without a name.
fn push_word(text: &mut String, row: &OptionRow) -> Result<(), AllocError> {
    if is_word(row) {
        push_names(text, names_of(row.values))?;
    } else {
        let name = row.name;
        write!(text, "--{name}")?;
    }
    text.push_str(" ")
}

/// The options and words that may be behind a command.
fn push_words(text: &mut String, command: &SubcommandRow) -> Result<(), AllocError> {
    let name = command.name;
    let paths = if has_file(command.rows) {
        "paths_or_"
    } else {
        ""
    };
    write!(text, "        {name},*) _cargo_deny_{paths}names '")?;
    for row in command.rows {
        push_word(text, row)?;
    }
    if name.is_empty() {
        text.push_str("--help --version ")?;
        push_commands(text)?;
    } else {
        text.push_str("--help")?;
    }
    text.push_str("' \"$current\" ;;\n")
}

/// The commands, as words that are found.
fn push_found(text: &mut String) -> Result<(), AllocError> {
    for command in subcommand_rows() {
        let name = command.name;
        write!(text, "            ,{name}) command={name} ;;\n")?;
    }
    text.push_str("            ,help) command=help ;;\n")
}

pub fn push_bash(text: &mut String) -> Result<(), AllocError> {
    text.push_str(HEAD)?;
    push_valued(text, &top())?;
    for command in subcommand_rows() {
        push_valued(text, command)?;
    }
    push_found(text)?;
    text.push_str(MIDDLE)?;
    push_option_values(text, &top())?;
    for command in subcommand_rows() {
        push_option_values(text, command)?;
    }
    push_words(text, &top())?;
    for command in subcommand_rows() {
        push_words(text, command)?;
    }
    text.push_str("        help,*) _cargo_deny_names '")?;
    push_commands(text)?;
    text.push_str("' \"$current\" ;;\n")?;
    text.push_str(TAIL)
}
