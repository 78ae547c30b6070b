//! The line of a finding for a program.
ghost use Rattle.std.specs.Prelude.{◌≡◌, ◌++◌, ◌∷◌, [], OnErr, OnOk, All, codes, decimal, map, string_bytes};
ghost use Rattle.json.specs.Token.{key, string, number};
ghost use Rattle.serde_json.specs.Data.{array, string as string_data};
ghost use Rattle.serde_json.specs.View.{items_of};
ghost use Rattle.diag_print.specs.Json.{code_data, label_data, fields_data, finding_data, json_line};
ghost use Rattle.diag_print.specs.JsonTokens.{Adds, data_tokens};
ghost use Rattle.diag_print.specs.Places.{LabelIsInside, LabelsAreInside};

use crate::human::severity_word;
use crate::place::{cut, start};
use deny_text::Text;
use diag_core::{Diagnostic, Files, Label};
use json::Writer;
use std::alloc::{AllocError, Global};

/// The code as a string, or null.
fn write_code(out: &mut Writer, code: &Option<Text>) -> Result<(), AllocError>
    ensures { OnOk result (Adds out.old out.new (data_tokens (code_data code.now))) }
{
    match code {
        None => out.null(),
        Some(code) => out.string(code.as_str()),
    }
}

/// A member that is a text.
fn write_text(out: &mut Writer, name: &str, text: &str) -> Result<(), AllocError>
    ensures { OnOk result (Adds out.old out.new (key name.now ∷ string text.now ∷ [])) }
{
    out.key(name)?;
    out.string(text)
}

/// A member that is a number.
fn write_number(out: &mut Writer, name: &str, value: usize) -> Result<(), AllocError>
    ensures { OnOk result (Adds out.old out.new (key name.now ∷ number (decimal value) ∷ [])) }
{
    out.key(name)?;
    out.u64(value as u64)
}

/// A label: its place, its message, and the text that it cuts out.
fn write_label(out: &mut Writer, files: &Files, label: &Label) -> Result<(), AllocError>
    requires { LabelIsInside files.now label.now }
    ensures { OnOk result (Adds out.old out.new (data_tokens (label_data files.now label.now))) }
{
    let place = start(files, label);
    out.begin_object()?;
    write_number(out, "column", place.column)?;
    write_number(out, "line", place.line)?;
    write_text(out, "message", label.message.as_str())?;
    write_text(out, "span", cut(files, label))?;
    out.end_object()
}

/// The labels in order.
fn write_labels(out: &mut Writer, files: &Files, labels: &[Label]) -> Result<(), AllocError>
    requires { All (LabelIsInside files.now) labels.now }
    ensures { let labels = items_of (map (label_data files.now) labels.now) in
        OnOk result (Adds out.old out.new (data_tokens (array labels))) }
{
    out.begin_array()?;
    'labels: for label in labels {
        write_label(out, files, label)?;
    }
    out.end_array()
}

/// The notes in order.
fn write_notes(out: &mut Writer, notes: &[Text]) -> Result<(), AllocError>
    ensures { let notes = items_of (map string_data notes.now) in
        OnOk result (Adds out.old out.new (data_tokens (array notes))) }
{
    out.begin_array()?;
    'notes: for note in notes {
        out.string(note.as_str())?;
    }
    out.end_array()
}

/// What is found.
fn write_fields(out: &mut Writer, files: &Files, diag: &Diagnostic) -> Result<(), AllocError>
    requires { LabelsAreInside files.now diag.now }
    ensures { OnOk result (Adds out.old out.new (data_tokens (fields_data files.now diag.now))) }
{
    out.begin_object()?;
    out.key("code")?;
    write_code(out, &diag.code)?;
    out.key("labels")?;
    write_labels(out, files, diag.labels.items())?;
    write_text(out, "message", diag.message.as_str())?;
    out.key("notes")?;
    write_notes(out, diag.notes.items())?;
    write_text(out, "severity", severity_word(diag.severity))?;
    out.end_object()
}

/// The whole object.
fn write_finding(out: &mut Writer, files: &Files, diag: &Diagnostic) -> Result<(), AllocError>
    requires { LabelsAreInside files.now diag.now }
    ensures { OnOk result (Adds out.old out.new (data_tokens (finding_data files.now diag.now))) }
{
    out.begin_object()?;
    out.key("fields")?;
    write_fields(out, files, diag)?;
    write_text(out, "type", "diagnostic")?;
    out.end_object()
}

/// The bytes that a line has room for from the start.
const LINE_ROOM: usize = 512;

/// Appends the text of the object, and a line feed. The line is made apart, since a writer that begins behind
/// a long text clears much room ahead, and so that all of it is appended or nothing.
pub(crate) fn push_json_line(
    out: &mut String,
    alloc: Global,
    files: &Files,
    diag: &Diagnostic,
) -> Result<(), AllocError>
    requires { LabelsAreInside files.now diag.now }
    ensures ok { OnOk result (string_bytes out.new ≡ string_bytes out.old ++ json_line files.now diag.now) }
    ensures err { OnErr result (string_bytes out.new ≡ string_bytes out.old) }
{
    let mut writer = Writer::new(Vec::with_capacity(alloc, LINE_ROOM)?);
    write_finding(&mut writer, files, diag)?;
    let mut line = unsafe { String::from_utf8_unchecked(writer.into_inner()) };
    line.push_str("\n")?;
    out.push_str(line.as_str())
}
