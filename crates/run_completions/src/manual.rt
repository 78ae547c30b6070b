//! The manual page.
//! Called by `print_text` of `main`; all prose may change with the stored output, no clause has it.

use crate::commands::{has_value, is_word, top};
use run_request::options::{OptionRow, SubcommandRow, subcommand_rows};
use std::alloc::AllocError;

static HEAD: &str = "\
.\\\" The manual page of cargo-deny, made from the table of its options.
.TH CARGO\\-DENY 1
.nh
.SH NAME
cargo\\-deny \\- checks the licences of a project\\(aqs crates against a policy
.SH SYNOPSIS
.nf
\\fBcargo deny\\fR [\\fIoptions\\fR] \\fBcheck\\fR [\\fIoptions\\fR] \\fBlicenses\\fR
\\fBcargo deny\\fR [\\fIoptions\\fR] \\fBlist\\fR [\\fIoptions\\fR]
\\fBcargo deny\\fR [\\fIoptions\\fR] \\fBrecord\\fR
\\fBcargo deny\\fR [\\fIoptions\\fR] \\fBverify\\fR \\fIfile\\fR
\\fBcargo deny\\fR [\\fIoptions\\fR] \\fBbill\\fR \\fIoptions\\fR
\\fBcargo deny\\fR [\\fIoptions\\fR] \\fBnotice\\fR
\\fBcargo deny\\fR [\\fIoptions\\fR] \\fBwhy\\fR [\\fIcrate\\fR]..
\\fBcargo deny\\fR [\\fIoptions\\fR] \\fBsample\\fR \\fInumber\\fR
.fi
.SH DESCRIPTION
Reads the output of
.BR \\(dqcargo\\ metadata\\ \\-\\-format\\-version\\ 1\\(dq ,
which
.B \\-\\-metadata\\-path
names, and a policy,
.IR deny.toml ,
with an exceptions file. Settles the licence of each crate by the policy\\(aqs clarifications, the
.B license
field or the licence files.
.PP
.B check
judges each crate by the policy, and writes what it found to standard error, and to standard output whether the licences are ok.
.B list
writes the licences to standard output.
.B record
writes the verdicts, with what shows them, to standard output, and
.B verify
says whether the verdicts of such a file are right.
.B bill
writes an SPDX 2.3 document of the crates to standard output, or says whether one has changed.
.B notice
writes to standard output which licence each accepted crate is used under, and each licence text once.
.B why
writes to standard output what the verdicts on crates rest on, without a name of those that are rejected or have no licence.
.B sample
reads no file. No command uses the network, starts a program or writes a file.
.PP
What is not carried is read, and the run refuses it.
";

static STATUS: &str = "\
.SH EXIT STATUS
.TP
.B 0
No finding is an error, so no crate is rejected or unlicensed, or the verdicts of a file are right, also those on rejected crates, or what was asked for was written; also behind help and the version.
.TP
.B 1
The run was refused. Standard error says why.
.TP
.B 2
The words could not be read.
.TP
.B 4
A finding is an error, a verdict that
.B verify
read is not right, or something else than the moment of a bill has changed.
.SH FILES
.TP
.I deny.toml
The policy: this name, or
.I .deny.toml
or
.IR .cargo/deny.toml ,
in the manifest\\(aqs folder or in the nearest folder above that has one.
.TP
.I deny.exceptions.toml
The exceptions file, which is looked for in the same way.
.SH EXAMPLES
.EX
cargo metadata \\-\\-format\\-version 1 > metadata.json
cargo deny \\-\\-metadata\\-path metadata.json check licenses
cargo metadata \\-\\-format\\-version 1 | cargo deny \\-\\-metadata\\-path /dev/stdin check licenses
.EE
";

/// A character as it is printed.
fn push_character(text: &mut String, character: char) -> Result<(), AllocError> {
    match character {
        '\\' => text.push_str("\\e"),
        '-' => text.push_str("\\-"),
        '\'' => text.push_str("\\(aq"),
        '`' => text.push_str("\\(ga"),
        _ => text.push(character),
    }
}

fn push_printed(text: &mut String, printed: &str) -> Result<(), AllocError> {
    for character in printed.chars() {
        push_character(text, character)?;
    }
    Ok(())
}

/// A word in bold type, behind so many hyphens.
fn push_bold(text: &mut String, hyphens: &str, word: &str) -> Result<(), AllocError> {
    text.push_str("\\fB")?;
    push_printed(text, hyphens)?;
    push_printed(text, word)?;
    text.push_str("\\fR")
}

fn push_letter(text: &mut String, letter: Option<char>) -> Result<(), AllocError> {
    match letter {
        Some(letter) => write!(text, "\\fB\\-{letter}\\fR, "),
        None => Ok(()),
    }
}

/// The value of an option as help calls it.
fn push_value(text: &mut String, row: &OptionRow) -> Result<(), AllocError> {
    let value = row.value;
    if has_value(row) {
        write!(text, " \\fI{value}\\fR")
    } else {
        Ok(())
    }
}

/// The value that an option has where it is not used.
fn push_default(text: &mut String, default: Option<&'static str>) -> Result<(), AllocError> {
    match default {
        Some(default) => write!(text, " [default: {default}]"),
        None => Ok(()),
    }
}

fn push_row(text: &mut String, row: &OptionRow) -> Result<(), AllocError> {
    text.push_str(".TP\n")?;
    if is_word(row) {
        let value = row.value;
        write!(text, "\\fI{value}\\fR")?;
    } else {
        push_letter(text, row.letter)?;
        push_bold(text, "--", row.name)?;
        push_value(text, row)?;
    }
    text.push_str("\n")?;
    push_printed(text, row.help)?;
    push_default(text, row.default)?;
    text.push_str("\n")
}

fn push_rows(text: &mut String, rows: &[OptionRow]) -> Result<(), AllocError> {
    for row in rows {
        push_row(text, row)?;
    }
    text.push_str(".TP\n\\fB\\-h\\fR, \\fB\\-\\-help\\fR\nPrint help\n")
}

fn push_command(text: &mut String, command: &SubcommandRow) -> Result<(), AllocError> {
    text.push_str(".SS ")?;
    push_printed(text, command.name)?;
    text.push_str("\n")?;
    push_printed(text, command.about)?;
    text.push_str(".\n")?;
    push_rows(text, command.rows)
}

pub fn push_manual(text: &mut String) -> Result<(), AllocError> {
    text.push_str(HEAD)?;
    text.push_str(".SH OPTIONS\nThese stand before the command.\n")?;
    push_rows(text, top().rows)?;
    text.push_str(".TP\n\\fB\\-V\\fR, \\fB\\-\\-version\\fR\nPrint version\n.SH COMMANDS\n")?;
    for command in subcommand_rows() {
        push_command(text, command)?;
    }
    text.push_str(STATUS)
}
