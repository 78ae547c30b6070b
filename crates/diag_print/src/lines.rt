//! The lines of a finding.
ghost use Rattle.std.specs.Prelude.{◌≡◌, ◌++◌, OnOk, OnErr, IsOk, string_bytes};
ghost use Rattle.diag_print.specs.Human.{human_lines};
ghost use Rattle.diag_print.specs.Places.{LabelsAreInside};
ghost use Rattle.diag_print.specs.Printed.{printed_of};

use crate::context::Format;
use crate::human::push_lines;
use crate::json_line::push_json_line;
use diag_core::{Diagnostic, Files};
use std::alloc::{AllocError, Global};

/// The bytes that the lines of a finding have room for from the start.
const LINES_ROOM: usize = 512;

/// Appends the lines for a person. They are made apart, so that all are appended or none.
fn push_human(
    out: &mut String,
    alloc: Global,
    files: &Files,
    diag: &Diagnostic,
) -> Result<(), AllocError>
    requires { LabelsAreInside files.now diag.now }
    ensures ok { OnOk result (string_bytes out.new ≡ string_bytes out.old ++ human_lines files.now diag.now) }
    ensures err { OnErr result (string_bytes out.new ≡ string_bytes out.old) }
{
    let mut lines = String::with_capacity(alloc, LINES_ROOM)?;
    push_lines(&mut lines, files, diag)?;
    out.push_str(lines.as_str())
}

/// Appends the lines of a finding. Each ends with a line feed. Where memory is wanted none is appended.
pub fn push_printed(
    out: &mut String,
    alloc: Global,
    format: Format,
    diag: &Diagnostic,
    files: &Files,
) -> Result<(), AllocError>
    requires { LabelsAreInside files.now diag.now }
    ensures ok { OnOk result (string_bytes out.new
        ≡ string_bytes out.old ++ printed_of format files.now diag.now) }
    ensures err { OnErr result (string_bytes out.new ≡ string_bytes out.old) }
    ensures sarif { format ≡ Format.Sarif → IsOk result }
{
    match format {
        Format::Human => push_human(out, alloc, files, diag),
        Format::Json => push_json_line(out, alloc, files, diag),
        Format::Sarif => Ok(()),
    }
}
