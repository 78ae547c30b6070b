//! The lines of a finding for a person.
ghost use Rattle.std.specs.Prelude.{◌≡◌, ◌++◌, IfOk, OnOk, All, codes, string_bytes};
ghost use Rattle.std.specs.List.{flat_map};
ghost use Rattle.diag_print.specs.Human.{severity_word, pointer_of, in_brackets, behind_colon, headline_of};
ghost use Rattle.diag_print.specs.Human.{place_text, label_line, note_line, human_lines};
ghost use Rattle.diag_print.specs.Places.{LabelIsInside, LabelsAreInside};

use crate::flat::push_flat;
use crate::place::{file_name, start};
use deny_text::Text;
use diag_core::{Diagnostic, Files, Label, LabelStyle, Severity};
use std::alloc::{AllocError, Global};

/// The severity in a word.
pub(crate) fn severity_word(severity: Severity) -> &'static str
    ensures { result.now ≡ severity_word severity }
{
    match severity {
        Severity::Help => "help",
        Severity::Note => "note",
        Severity::Warning => "warning",
        Severity::Error => "error",
        Severity::Bug => "bug",
    }
}

/// What points to the place of a label.
fn pointer(style: LabelStyle) -> &'static str
    ensures { result.now ≡ pointer_of style }
{
    match style {
        LabelStyle::Primary => "-->",
        LabelStyle::Secondary => ":::",
    }
}

/// Appends the code in brackets, where there is one.
fn push_code(out: &mut String, code: &Option<Text>) -> Result<(), AllocError>
    ensures { OnOk result (string_bytes out.new ≡ string_bytes out.old ++ in_brackets code.now) }
{
    if let Some(code) = code {
        out.push_str("[")?;
        push_flat(out, code.as_str())?;
        out.push_str("]")?;
    }
    Ok(())
}

/// Appends the message behind a colon, where it is not empty.
fn push_message(out: &mut String, message: &str) -> Result<(), AllocError>
    ensures { OnOk result (string_bytes out.new ≡ string_bytes out.old ++ behind_colon message.now) }
{
    if message.is_empty() {
        return Ok(());
    }
    out.push_str(": ")?;
    push_flat(out, message)
}

/// Appends the first line: severity, code and message.
fn push_headline(out: &mut String, diag: &Diagnostic) -> Result<(), AllocError>
    ensures { OnOk result (string_bytes out.new ≡ string_bytes out.old ++ headline_of diag.now) }
{
    out.push_str(severity_word(diag.severity))?;
    push_code(out, &diag.code)?;
    push_message(out, diag.message.as_str())?;
    out.push_str("\n")
}

/// Appends the file, the line and the column of a label.
fn push_place(out: &mut String, files: &Files, label: &Label) -> Result<(), AllocError>
    requires { LabelIsInside files.now label.now }
    ensures { OnOk result (string_bytes out.new ≡ string_bytes out.old ++ place_text files.now label.now) }
{
    let place = start(files, label);
    let line = place.line;
    let column = place.column;
    push_flat(out, file_name(files, label))?;
    write!(out, ":{line}:{column}")
}

/// Where a label begins: the name of its file, the line and the column, both from 1.
pub fn place_of(alloc: Global, files: &Files, label: &Label) -> Result<Text, AllocError>
    requires { LabelIsInside files.now label.now }
    ensures { IfOk result (λ text. text ≡ place_text files.now label.now) }
{
    let mut text = String::new(alloc);
    push_place(&mut text, files, label)?;
    Ok(Text::from(text))
}

/// Appends the line of a label.
fn push_label(out: &mut String, files: &Files, label: &Label) -> Result<(), AllocError>
    requires { LabelIsInside files.now label.now }
    ensures { OnOk result (string_bytes out.new ≡ string_bytes out.old ++ label_line files.now label.now) }
{
    out.push_str("  ")?;
    out.push_str(pointer(label.style))?;
    out.push_str(" ")?;
    push_place(out, files, label)?;
    push_message(out, label.message.as_str())?;
    out.push_str("\n")
}

/// Appends the line of a note.
fn push_note(out: &mut String, note: &str) -> Result<(), AllocError>
    ensures { OnOk result (string_bytes out.new ≡ string_bytes out.old ++ note_line note.now) }
{
    out.push_str("  = ")?;
    push_flat(out, note)?;
    out.push_str("\n")
}

fn push_labels(out: &mut String, files: &Files, labels: &[Label]) -> Result<(), AllocError>
    requires { All (LabelIsInside files.now) labels.now }
    ensures { OnOk result (string_bytes out.new
        ≡ string_bytes out.old ++ flat_map (label_line files.now) labels.now) }
{
    'labels: for label in labels {
        push_label(out, files, label)?;
    }
    Ok(())
}

fn push_notes(out: &mut String, notes: &[Text]) -> Result<(), AllocError>
    ensures { OnOk result (string_bytes out.new ≡ string_bytes out.old ++ flat_map note_line notes.now) }
{
    'notes: for note in notes {
        push_note(out, note.as_str())?;
    }
    Ok(())
}

/// Appends the first line, a line for each label, and a line for each note.
pub(crate) fn push_lines(
    out: &mut String,
    files: &Files,
    diag: &Diagnostic,
) -> Result<(), AllocError>
    requires { LabelsAreInside files.now diag.now }
    ensures { OnOk result (string_bytes out.new ≡ string_bytes out.old ++ human_lines files.now diag.now) }
{
    push_headline(out, diag)?;
    push_labels(out, files, diag.labels.items())?;
    push_notes(out, diag.notes.items())
}
