//! The commands that are completed, and what all texts say of an option.
//! Called by `bash`, `zsh`, `fish` and `manual`; no clause is here, each helper may change with its callers.

use run_request::options::{
    OptionRow, OptionUse, OptionValues, SubcommandRow, main_rows, subcommand_rows,
};
use std::alloc::AllocError;

/// The options before the command, as a command without a name.
pub fn top() -> SubcommandRow {
    SubcommandRow {
        name: "",
        about: "Checks the licences of a project's crates against a policy",
        rows: main_rows(),
    }
}

pub fn has_value(row: &OptionRow) -> bool {
    matches!(row.kind, OptionUse::One | OptionUse::Once | OptionUse::Many)
}

/// Whether it is a word without a name.
pub fn is_word(row: &OptionRow) -> bool {
    matches!(row.kind, OptionUse::Words | OptionUse::Word)
}

/// Names with blanks between.
pub fn push_names(text: &mut String, names: &[&str]) -> Result<(), AllocError> {
    let mut before = "";
    for name in names {
        write!(text, "{before}{name}")?;
        before = " ";
    }
    Ok(())
}

/// The names of the commands and `help`, with blanks between.
pub fn push_commands(text: &mut String) -> Result<(), AllocError> {
    for command in subcommand_rows() {
        let name = command.name;
        write!(text, "{name} ")?;
    }
    text.push_str("help")
}

/// Whether a word without a name is the path of a file.
pub fn has_file(rows: &[OptionRow]) -> bool {
    rows.iter().any(|row| is_word(row) && matches!(row.values, OptionValues::File))
}

/// The names that a value may be, if these are reported.
pub fn names_of(values: OptionValues) -> &'static [&'static str] {
    match values {
        OptionValues::Names(names) => names,
        OptionValues::Any | OptionValues::File | OptionValues::Folder | OptionValues::Form(_) =>
            &[],
    }
}
