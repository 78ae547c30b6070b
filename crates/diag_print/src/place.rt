//! Where a label points.
ghost use Rattle.std.specs.Prelude.{◌≡◌, ◌↔◌, IsTrue};
ghost use Rattle.diag_print.specs.Places.{LabelIsInside, LabelsAreInside, AllLabelsAreInside, source_under};
ghost use Rattle.diag_print.specs.Places.{file_under, text_under, line_number, column_number};

use diag_core::{Diagnostic, Files, Label, Pack};

/// A line and a column, both from 1. The column counts characters.
#[derive(Clone, Copy)]
pub(crate) struct LineColumn {
    pub(crate) line: usize,
    pub(crate) column: usize,
}

/// Whether the label's file is there, and the label's range lies in its text, between characters.
fn label_is_inside(files: &Files, label: &Label) -> bool
    ensures { IsTrue result ↔ LabelIsInside files.now label.now }
{
    match files.source(label.file_id) {
        Ok(text) => {
            label.range.start <= label.range.end
                && text.is_char_boundary(label.range.start)
                && text.is_char_boundary(label.range.end)
        }
        Err(_) => false,
    }
}

/// Whether each label of a finding is inside its file, as the calls that print require.
pub fn labels_are_inside(diag: &Diagnostic, files: &Files) -> bool
    ensures { IsTrue result ↔ LabelsAreInside files.now diag.now }
{
    diag.labels
        .items()
        .iter()
        .all(|label| label_is_inside(files, label))
}

/// Whether each label of each finding of a pack is inside its file.
pub fn pack_labels_are_inside(pack: &Pack, files: &Files) -> bool
    ensures { IsTrue result ↔ AllLabelsAreInside files.now pack.now.findings }
{
    pack.iter()
        .all(|finding| labels_are_inside(&finding.diag, files))
}

/// The text of the label's file; empty where there is no such file.
fn source<'f>(files: &'f Files, label: &Label) -> &'f str
    ensures { result.now ≡ source_under files.now label.now }
{
    files.source(label.file_id).unwrap_or("")
}

/// The name of the label's file; empty where there is no such file.
pub(crate) fn file_name<'f>(files: &'f Files, label: &Label) -> &'f str
    ensures { result.now ≡ file_under files.now label.now }
{
    files.name(label.file_id).unwrap_or("")
}

/// The text that the label cuts out.
pub(crate) fn cut<'f>(files: &'f Files, label: &Label) -> &'f str
    requires { LabelIsInside files.now label.now }
    ensures { result.now ≡ text_under files.now label.now }
{
    let text = source(files, label);
    &text[label.range.start..label.range.end]
}

/// Where the label starts.
pub(crate) fn start(files: &Files, label: &Label) -> LineColumn
    requires { LabelIsInside files.now label.now }
    ensures line { result.line ≡ line_number files.now label.now }
    ensures column { result.column ≡ column_number files.now label.now }
{
    match files.location(label.file_id, label.range.start) {
        Ok(place) => LineColumn {
            line: place.line + 1,
            column: place.column + 1,
        },
        Err(_) => unreachable!(),
    }
}
