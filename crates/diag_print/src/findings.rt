//! Findings that are printed.
ghost use Rattle.std.specs.Prelude.{◌≡◌, ◌≤◌, ◌++◌, [], string_bytes, IfErr, OnOk, OnErr};
ghost use Rattle.std.specs.List.{list_any};
ghost use Rattle.tree_core.specs.Faults.{Gained, GainedPrefix};
ghost use Rattle.diag_print.specs.Places.{AllLabelsAreInside, LabelsAreInside};
ghost use Rattle.diag_print.specs.Printed.{all_printed_at, printed_at};
ghost use Rattle.diag_print.specs.Findings.{AreInside, HasReasonSince, LeavesPending, PacksAreInside, is_error};
ghost use Rattle.diag_print.specs.Findings.{printed_findings, printed_packs};

use crate::context::LogContext;
use crate::printer::{DiagPrinter, PrintError};
use diag_core::lists::Diagnostics;
use diag_core::{Diagnostic, Files, Pack, Severity};
use std::alloc::Global;
use tree_core::{Sink, SinkFailed, write_all};

/// Whether one of the findings is an error.
pub fn has_error(findings: &Diagnostics) -> bool
    ensures { result ≡ list_any is_error findings.now }
{
    findings
        .items()
        .iter()
        .any(|finding| finding.severity == Severity::Error)
}

/// How many bytes are gathered before they are written.
const ROOM: usize = 65_536;

/// Writes what is pending. `begun` is the sink's count of faults when the printing of all began.
fn flush<S: Sink>(pending: &mut String, sink: &mut S, begun: u64) -> Result<(), PrintError>
    requires { begun ≤ S.fault_count sink.old }
    ensures ok { OnOk result (Gained (S.written sink.old) (S.written sink.new) (string_bytes pending.old)) }
    ensures empty { OnOk result (string_bytes pending.new ≡ []) }
    ensures err { OnErr result
        (GainedPrefix (S.written sink.old) (S.written sink.new) (string_bytes pending.old)) }
    ensures reason { IfErr result (HasReasonSince begun (S.fault_count sink.new)) }
    ensures later { S.fault_count sink.old ≤ S.fault_count sink.new }
{
    match write_all(sink, pending.as_str().as_bytes()) {
        Ok(()) => {
            pending.clear();
            Ok(())
        }
        Err(SinkFailed) => Err(PrintError::WriteFault {
            before: begun,
            after: sink.faults(),
        }),
    }
}

/// The same, once much is pending.
fn flush_much<S: Sink>(pending: &mut String, sink: &mut S, begun: u64) -> Result<(), PrintError>
    requires { begun ≤ S.fault_count sink.old }
    ensures ok { OnOk result (LeavesPending (S.written sink.old) (S.written sink.new)
        (string_bytes pending.new) (string_bytes pending.old)) }
    ensures err { OnErr result
        (GainedPrefix (S.written sink.old) (S.written sink.new) (string_bytes pending.old)) }
    ensures reason { IfErr result (HasReasonSince begun (S.fault_count sink.new)) }
    ensures later { S.fault_count sink.old ≤ S.fault_count sink.new }
{
    if pending.len() < ROOM {
        return Ok(());
    }
    flush(pending, sink, begun)
}

/// Puts the lines of a finding behind what is pending.
fn add_one<S: Sink>(
    alloc: Global,
    printer: &DiagPrinter,
    finding: &Diagnostic,
    files: &Files,
    pending: &mut String,
    sink: &mut S,
    begun: u64,
) -> Result<(), PrintError>
    requires inside { LabelsAreInside files.now finding.now }
    requires begun { begun ≤ S.fault_count sink.old }
    ensures ok { OnOk result (LeavesPending (S.written sink.old) (S.written sink.new) (string_bytes pending.new)
        (string_bytes pending.old ++ printed_at printer.now files.now finding.now)) }
    ensures err { OnErr result (GainedPrefix (S.written sink.old) (S.written sink.new)
        (string_bytes pending.old ++ printed_at printer.now files.now finding.now)) }
    ensures reason { IfErr result (HasReasonSince begun (S.fault_count sink.new)) }
    ensures later { S.fault_count sink.old ≤ S.fault_count sink.new }
{
    printer.push_text(pending, alloc, finding, files)?;
    flush_much(pending, sink, begun)
}

/// Prints findings, one after another.
fn print_all<S: Sink>(
    alloc: Global,
    printer: &DiagPrinter,
    findings: &[Diagnostic],
    files: &Files,
    sink: &mut S,
    begun: u64,
) -> Result<(), PrintError>
    requires inside { AreInside files.now findings.now }
    requires begun { begun ≤ S.fault_count sink.old }
    ensures ok { OnOk result (Gained (S.written sink.old) (S.written sink.new)
        (printed_findings printer.now files.now findings.now)) }
    ensures err { OnErr result (GainedPrefix (S.written sink.old) (S.written sink.new)
        (printed_findings printer.now files.now findings.now)) }
    ensures reason { IfErr result (HasReasonSince begun (S.fault_count sink.new)) }
    ensures later { S.fault_count sink.old ≤ S.fault_count sink.new }
{
    let mut pending = String::new(alloc);
    'findings: for finding in findings {
        add_one(alloc, printer, finding, files, &mut pending, sink, begun)?;
    }
    flush(&mut pending, sink, begun)
}

/// Prints the findings at or above the context's level, in order. A refused write tells the sink's counts of
/// faults at the start of the call and after that.
pub fn print_findings<S: Sink>(
    alloc: Global,
    context: LogContext,
    findings: &Diagnostics,
    files: &Files,
    sink: &mut S,
) -> Result<(), PrintError>
    requires { AreInside files.now findings.now }
    ensures ok { OnOk result (Gained (S.written sink.old) (S.written sink.new)
        (printed_findings context files.now findings.now)) }
    ensures err { OnErr result (GainedPrefix (S.written sink.old) (S.written sink.new)
        (printed_findings context files.now findings.now)) }
    ensures reason { IfErr result (HasReasonSince (S.fault_count sink.old) (S.fault_count sink.new)) }
    ensures later { S.fault_count sink.old ≤ S.fault_count sink.new }
{
    let begun = sink.faults();
    match DiagPrinter::new(context) {
        Some(printer) => print_all(alloc, &printer, findings.items(), files, sink, begun),
        None => Ok(()),
    }
}

/// Puts the lines of the findings of a pack behind what is pending.
fn add_pack<S: Sink>(
    alloc: Global,
    printer: &DiagPrinter,
    pack: &Pack,
    files: &Files,
    pending: &mut String,
    sink: &mut S,
    begun: u64,
) -> Result<(), PrintError>
    requires inside { AllLabelsAreInside files.now pack.now.findings }
    requires begun { begun ≤ S.fault_count sink.old }
    ensures ok { OnOk result (LeavesPending (S.written sink.old) (S.written sink.new) (string_bytes pending.new)
        (string_bytes pending.old ++ all_printed_at printer.now files.now pack.now.findings)) }
    ensures err { OnErr result (GainedPrefix (S.written sink.old) (S.written sink.new)
        (string_bytes pending.old ++ all_printed_at printer.now files.now pack.now.findings)) }
    ensures reason { IfErr result (HasReasonSince begun (S.fault_count sink.new)) }
    ensures later { S.fault_count sink.old ≤ S.fault_count sink.new }
{
    printer.push_pack_text(pending, alloc, pack, files)?;
    flush_much(pending, sink, begun)
}

/// Prints the findings of packs, one pack after another.
fn print_each<S: Sink>(
    alloc: Global,
    printer: &DiagPrinter,
    packs: &[Pack],
    files: &Files,
    sink: &mut S,
    begun: u64,
) -> Result<(), PrintError>
    requires inside { PacksAreInside files.now packs.now }
    requires begun { begun ≤ S.fault_count sink.old }
    ensures ok { OnOk result (Gained (S.written sink.old) (S.written sink.new)
        (printed_packs printer.now files.now packs.now)) }
    ensures err { OnErr result (GainedPrefix (S.written sink.old) (S.written sink.new)
        (printed_packs printer.now files.now packs.now)) }
    ensures reason { IfErr result (HasReasonSince begun (S.fault_count sink.new)) }
    ensures later { S.fault_count sink.old ≤ S.fault_count sink.new }
{
    let mut pending = String::new(alloc);
    'packs: for pack in packs {
        add_pack(alloc, printer, pack, files, &mut pending, sink, begun)?;
    }
    flush(&mut pending, sink, begun)
}

/// Makes the indexes of the files that many labels of the findings of a pack point into.
fn index_pack(printer: &DiagPrinter, pack: &Pack, files: &mut Files)
    ensures { files.new ≡ files.old }
{
    'findings: for finding in pack.iter() {
        printer.index(&finding.diag, files);
    }
}

/// The same for packs.
fn index_each(printer: &DiagPrinter, packs: &[Pack], files: &mut Files)
    ensures { files.new ≡ files.old }
{
    'packs: for pack in packs {
        index_pack(printer, pack, files);
    }
}

/// Makes the indexes of the files that many labels of findings of packs point into, of those at or above the
/// context's level. The files are seen as they were, and `print_packs` finds the places in them fast.
pub fn index_packs(context: LogContext, packs: &[Pack], files: &mut Files)
    ensures { files.new ≡ files.old }
{
    if let Some(printer) = DiagPrinter::new(context) {
        index_each(&printer, packs, files);
    }
}

/// Prints the findings of packs at or above the context's level, in order. A refused write tells `begun`, which
/// is a count of the sink's faults at an earlier moment, and the count after that write.
pub fn print_packs<S: Sink>(
    alloc: Global,
    context: LogContext,
    packs: &[Pack],
    files: &Files,
    sink: &mut S,
    begun: u64,
) -> Result<(), PrintError>
    requires inside { PacksAreInside files.now packs.now }
    requires begun { begun ≤ S.fault_count sink.old }
    ensures ok { OnOk result (Gained (S.written sink.old) (S.written sink.new)
        (printed_packs context files.now packs.now)) }
    ensures err { OnErr result (GainedPrefix (S.written sink.old) (S.written sink.new)
        (printed_packs context files.now packs.now)) }
    ensures reason { IfErr result (HasReasonSince begun (S.fault_count sink.new)) }
    ensures later { S.fault_count sink.old ≤ S.fault_count sink.new }
{
    match DiagPrinter::new(context) {
        Some(printer) => print_each(alloc, &printer, packs, files, sink, begun),
        None => Ok(()),
    }
}
