//! The printer of findings.
ghost use Rattle.std.specs.Prelude.{◌≡◌, ◌≢◌, ◌↔◌, ◌≤◌, ◌++◌, false, [], string_bytes, IsNone, IfSome, IsOk};
ghost use Rattle.std.specs.Prelude.{IfOk, IfErr, OnOk, OnErr, Err};
ghost use Rattle.tree_core.specs.Faults.{Gained, GainedPrefix};
ghost use Rattle.diag_print.specs.Places.{LabelsAreInside, AllLabelsAreInside};
ghost use Rattle.diag_print.specs.Printed.{is_printed, printed_at, AllBelow, all_printed_at};
ghost use Rattle.diag_print.specs.Refusal.{HasReason};

use crate::context::{Format, LogContext};
use crate::lines::push_printed;
use diag_core::{Diagnostic, Files, Label, LevelFilter, Pack, Severity, log_level_to_severity};
use std::alloc::{AllocError, Global};
use std::marker::Model;
use tree_core::sink::write_all;
use tree_core::{Sink, SinkFailed};

/// Why findings were not printed.
#[derive(Clone, Copy, Debug, PartialEq, Eq)]
pub enum PrintError {
    /// The sink refused a write. The numbers are its counts of faults, at the start of the call and once the
    /// write had failed.
    WriteFault { before: u64, after: u64 },
    Memory,
}

impl From<AllocError> for PrintError {
    ghost use Rattle.diag_print.specs.declared.printer.PrintError.TheVariants.{Memory};

    ghost from_gives = { λ _ error. error ≡ Memory };

    fn from(_error: AllocError) -> PrintError {
        PrintError::Memory
    }
}

/// Prints the findings at or above a level. It is seen as its context.
#[derive(Drop)]
pub struct DiagPrinter {
    context: LogContext,
    /// The least severity that is printed.
    least: Severity,
}

impl Model for DiagPrinter {
    ghost use Rattle.std.specs.Prelude.{◌≡◌, Some};
    ghost use Rattle.diag_core.specs.Severity.{severity_of_filter};
    ghost use Rattle.diag_print.specs.declared.context.LogContext.{LogContext};

    ghost Value = { LogContext };

    ghost view = { λ printer. printer.context };

    ghost invariant = { λ printer. severity_of_filter printer.context.log_level ≡ Some printer.least };
}

/// Counts labels at the files that they point into.
fn count_labels(labels: &[Label], files: &mut Files)
    ensures { files.new ≡ files.old }
{
    'labels: for label in labels {
        files.count_label(label.file_id);
    }
}

/// A printer and the sink that it writes to.
#[derive(Drop)]
pub struct OutputLock<'p, S: Sink> {
    pub printer: &'p DiagPrinter,
    pub sink: &'p mut S,
}

impl DiagPrinter {
    /// A printer for the context; none at level off.
    pub fn new(context: LogContext) -> Option<DiagPrinter>
        ensures none { IsNone result ↔ (context.log_level ≡ LevelFilter.Off) }
        ensures some { IfSome result (λ printer. printer ≡ context) }
    {
        let least = log_level_to_severity(context.log_level)?;
        Some(DiagPrinter { context, least })
    }

    /// The printer over a sink.
    pub fn lock<'p, S: Sink>(&'p self, sink: &'p mut S) -> OutputLock<'p, S>
        ensures printer { result.printer.now ≡ self.now }
        ensures sink { result.sink.ghost_name ≡ sink.entry.ghost_name }
        ensures held { result.sink.now ≡ sink.old }
    {
        OutputLock {
            printer: self,
            sink,
        }
    }

    /// Whether a finding of the severity is at or above the level.
    fn hears(&self, severity: Severity) -> bool
        ensures { result ≡ is_printed self.now.log_level severity }
    {
        severity >= self.least
    }

    /// Counts the labels of a finding at the files that they point into, where it is at or above the level: a
    /// file gets its index once these are many. The files are seen as they were.
    pub fn index(&self, diag: &Diagnostic, files: &mut Files)
        ensures { files.new ≡ files.old }
    {
        if self.hears(diag.severity) {
            count_labels(diag.labels.items(), files);
        }
    }

    /// Appends the lines of a finding, where it is at or above the level.
    pub(crate) fn push_text(
        &self,
        out: &mut String,
        alloc: Global,
        diag: &Diagnostic,
        files: &Files,
    ) -> Result<(), AllocError>
        requires { LabelsAreInside files.now diag.now }
        ensures ok { OnOk result (string_bytes out.new
            ≡ string_bytes out.old ++ printed_at self.now files.now diag.now) }
        ensures below { is_printed self.now.log_level diag.now.severity ≡ false → IsOk result }
        ensures sarif { self.now.format ≡ Format.Sarif → IsOk result }
    {
        if self.hears(diag.severity) {
            push_printed(out, alloc, self.context.format, diag, files)
        } else {
            Ok(())
        }
    }

    /// Appends the lines of the findings of a pack that are at or above the level, in order.
    pub(crate) fn push_pack_text(
        &self,
        out: &mut String,
        alloc: Global,
        pack: &Pack,
        files: &Files,
    ) -> Result<(), AllocError>
        requires { AllLabelsAreInside files.now pack.now.findings }
        ensures ok { OnOk result (string_bytes out.new
            ≡ string_bytes out.old ++ all_printed_at self.now files.now pack.now.findings) }
        ensures below { AllBelow self.now.log_level pack.now.findings → IsOk result }
        ensures sarif { self.now.format ≡ Format.Sarif → IsOk result }
    {
        'findings: for finding in pack.iter() {
            self.push_text(out, alloc, &finding.diag, files)?;
        }
        Ok(())
    }
}

impl<'p, S: Sink> OutputLock<'p, S> {
    /// Writes the lines of a finding, where it is at or above the level.
    pub fn print(
        &mut self,
        alloc: Global,
        diag: &Diagnostic,
        files: &Files,
    ) -> Result<(), PrintError>
        requires { LabelsAreInside files.now diag.now }
        ensures ok { OnOk result (Gained (S.written self.old.sink.now) (S.written self.new.sink.now)
            (printed_at self.old.printer.now files.now diag.now)) }
        ensures err { OnErr result (GainedPrefix (S.written self.old.sink.now) (S.written self.new.sink.now)
            (printed_at self.old.printer.now files.now diag.now)) }
        ensures memory { result ≡ Err PrintError.Memory
            → S.written self.new.sink.now ≡ S.written self.old.sink.now }
        ensures reason { IfErr result
            (HasReason (S.fault_count self.old.sink.now) (S.fault_count self.new.sink.now)) }
        ensures later { S.fault_count self.old.sink.now ≤ S.fault_count self.new.sink.now }

        // A finding that is not written needs no memory.
        ensures below { is_printed self.old.printer.now.log_level diag.now.severity ≡ false → IsOk result }
        ensures sarif { self.old.printer.now.format ≡ Format.Sarif → IsOk result }

        ensures same_printer { self.new.printer.now ≡ self.old.printer.now }
        ensures same_sink { self.new.sink.ghost_name ≡ self.old.sink.ghost_name }
    {
        let mut text = String::new(alloc);
        self.printer.push_text(&mut text, alloc, diag, files)?;
        self.write(text.as_str())
    }

    /// Writes the lines of the findings of a pack that are at or above the level, in order.
    pub fn print_krate_pack(
        &mut self,
        alloc: Global,
        pack: &Pack,
        files: &Files,
    ) -> Result<(), PrintError>
        requires { AllLabelsAreInside files.now pack.now.findings }
        ensures ok { OnOk result (Gained (S.written self.old.sink.now) (S.written self.new.sink.now)
            (all_printed_at self.old.printer.now files.now pack.now.findings)) }
        ensures err { OnErr result (GainedPrefix (S.written self.old.sink.now) (S.written self.new.sink.now)
            (all_printed_at self.old.printer.now files.now pack.now.findings)) }
        ensures memory { result ≡ Err PrintError.Memory
            → S.written self.new.sink.now ≡ S.written self.old.sink.now }
        ensures reason { IfErr result
            (HasReason (S.fault_count self.old.sink.now) (S.fault_count self.new.sink.now)) }
        ensures later { S.fault_count self.old.sink.now ≤ S.fault_count self.new.sink.now }

        // Findings that are not written need no memory.
        ensures below { AllBelow self.old.printer.now.log_level pack.now.findings → IsOk result }
        ensures sarif { self.old.printer.now.format ≡ Format.Sarif → IsOk result }

        ensures same_printer { self.new.printer.now ≡ self.old.printer.now }
        ensures same_sink { self.new.sink.ghost_name ≡ self.old.sink.ghost_name }
    {
        let mut text = String::new(alloc);
        self.printer.push_pack_text(&mut text, alloc, pack, files)?;
        self.write(text.as_str())
    }

    /// Writes a text at once. An empty text is always written.
    fn write(&mut self, text: &str) -> Result<(), PrintError>
        ensures ok { OnOk result
            (Gained (S.written self.old.sink.now) (S.written self.new.sink.now) text.now) }
        ensures err { OnErr result
            (GainedPrefix (S.written self.old.sink.now) (S.written self.new.sink.now) text.now) }
        ensures refused { result ≢ Err PrintError.Memory }
        ensures reason { IfErr result
            (HasReason (S.fault_count self.old.sink.now) (S.fault_count self.new.sink.now)) }
        ensures later { S.fault_count self.old.sink.now ≤ S.fault_count self.new.sink.now }
        ensures nothing { text.now ≡ [] → IsOk result }
        ensures same_printer { self.new.printer.now ≡ self.old.printer.now }
        ensures same_sink { self.new.sink.ghost_name ≡ self.old.sink.ghost_name }
    {
        if text.is_empty() {
            return Ok(());
        }
        let before = self.sink.faults();
        match write_all(self.sink, text.as_bytes()) {
            Ok(()) => Ok(()),
            Err(SinkFailed) => {
                let after = self.sink.faults();
                Err(PrintError::WriteFault { before, after })
            }
        }
    }
}
