//! Which licences the crates of a summary have.
//! Called by `write_crates` of `run_list`, `list` by tests; `unlicensed_line` may be made first.
ghost use Rattle.std.specs.Prelude.{◌≤◌, All, IfErr, OnErr, OnOk, map};
ghost use Rattle.tree_core.specs.Faults.{Gained, GainedPrefix};
ghost use Rattle.graph_core.specs.Metadata.{AreRising};
ghost use Rattle.run_list_text.specs.Listed.{listed_of};
ghost use Rattle.run_list_text.specs.Listing.{data_of, human_by_crate, human_by_license, json_text, listing_of, table_of};
ghost use Rattle.run_list_text.specs.Written.{HasReasonSince};

use crate::grouped::names_by_license;
use crate::human::{CrateLines, LicenseLines, unlicensed_line};
use crate::json_text::json_text;
use crate::lines::{ListError, write_lines, write_text};
use crate::listed::{ListedCrate, all_licenses, listed_crates};
use crate::table::{CrateRows, head_row};
use gather_core::Summary;
use run_request::{Layout, OutputFormat};
use std::alloc::Global;
use tree_core::Sink;

/// Writes each crate with its licences.
fn write_crates<S: Sink>(
    alloc: Global,
    crates: &[ListedCrate],
    sink: &mut S,
    begun: u64,
) -> Result<(), ListError>
    requires { begun ≤ S.fault_count sink.old }
    ensures ok { OnOk result
        (Gained (S.written sink.old) (S.written sink.new) (human_by_crate crates.now)) }
    ensures err { OnErr result
        (GainedPrefix (S.written sink.old) (S.written sink.new) (human_by_crate crates.now)) }
    ensures reason { IfErr result (HasReasonSince begun (S.fault_count sink.new)) }
    ensures later { S.fault_count sink.old ≤ S.fault_count sink.new }
{
    let mut pending = Vec::new(alloc);
    write_lines(alloc, &mut pending, &CrateLines, crates, &[], sink, begun)
}

/// Writes each licence with its crates, and the crates without one.
fn write_licenses<S: Sink>(
    alloc: Global,
    crates: &[ListedCrate],
    sink: &mut S,
    begun: u64,
) -> Result<(), ListError>
    requires ordered { All (λ listed. AreRising listed.licenses) crates.now }
    requires begun { begun ≤ S.fault_count sink.old }
    ensures ok { OnOk result
        (Gained (S.written sink.old) (S.written sink.new) (human_by_license crates.now)) }
    ensures err { OnErr result
        (GainedPrefix (S.written sink.old) (S.written sink.new) (human_by_license crates.now)) }
    ensures reason { IfErr result (HasReasonSince begun (S.fault_count sink.new)) }
    ensures later { S.fault_count sink.old ≤ S.fault_count sink.new }
{
    let groups = names_by_license(alloc, crates)?;
    let last = unlicensed_line(alloc, crates)?;
    let mut pending = Vec::new(alloc);
    write_lines(
        alloc,
        &mut pending,
        &LicenseLines,
        groups.items(),
        last.as_slice(),
        sink,
        begun,
    )
}

/// Writes a table of crates and licences.
fn write_table<S: Sink>(
    alloc: Global,
    crates: &[ListedCrate],
    sink: &mut S,
    begun: u64,
) -> Result<(), ListError>
    requires ordered { All (λ listed. AreRising listed.licenses) crates.now }
    requires begun { begun ≤ S.fault_count sink.old }
    ensures ok { OnOk result (Gained (S.written sink.old) (S.written sink.new) (table_of crates.now)) }
    ensures err { OnErr result
        (GainedPrefix (S.written sink.old) (S.written sink.new) (table_of crates.now)) }
    ensures reason { IfErr result (HasReasonSince begun (S.fault_count sink.new)) }
    ensures later { S.fault_count sink.old ≤ S.fault_count sink.new }
{
    let columns = all_licenses(alloc, crates)?;
    let mut pending = head_row(alloc, columns.items())?;
    let rows = CrateRows {
        columns: columns.items(),
    };
    write_lines(alloc, &mut pending, &rows, crates, &[], sink, begun)
}

/// Writes one value.
fn write_json<S: Sink>(
    alloc: Global,
    crates: &[ListedCrate],
    layout: Layout,
    sink: &mut S,
    begun: u64,
) -> Result<(), ListError>
    requires ordered { All (λ listed. AreRising listed.licenses) crates.now }
    requires begun { begun ≤ S.fault_count sink.old }
    ensures ok { OnOk result (Gained (S.written sink.old) (S.written sink.new)
        (json_text (data_of layout crates.now))) }
    ensures err { OnErr result (GainedPrefix (S.written sink.old) (S.written sink.new)
        (json_text (data_of layout crates.now))) }
    ensures reason { IfErr result (HasReasonSince begun (S.fault_count sink.new)) }
    ensures later { S.fault_count sink.old ≤ S.fault_count sink.new }
{
    let mut text = json_text(alloc, crates, layout)?;
    write_text(&mut text, sink, begun)
}

/// Writes a listing of crates, of each of which the licences are in byte order, each once. `begun` is the
/// sink's count of faults when the command began.
pub fn write_listing<S: Sink>(
    alloc: Global,
    crates: &[ListedCrate],
    format: OutputFormat,
    layout: Layout,
    sink: &mut S,
    begun: u64,
) -> Result<(), ListError>
    requires ordered { All (λ listed. AreRising listed.licenses) crates.now }
    requires begun { begun ≤ S.fault_count sink.old }
    ensures ok { OnOk result (Gained (S.written sink.old) (S.written sink.new)
        (listing_of format layout crates.now)) }
    ensures err { OnErr result (GainedPrefix (S.written sink.old) (S.written sink.new)
        (listing_of format layout crates.now)) }
    ensures reason { IfErr result (HasReasonSince begun (S.fault_count sink.new)) }
    ensures later { S.fault_count sink.old ≤ S.fault_count sink.new }
{
    match (format, layout) {
        (OutputFormat::Human, Layout::Crate) => write_crates(alloc, crates, sink, begun),
        (OutputFormat::Human, Layout::License) => write_licenses(alloc, crates, sink, begun),
        (OutputFormat::Json, layout) => write_json(alloc, crates, layout, sink, begun),
        (OutputFormat::Tsv, _) => write_table(alloc, crates, sink, begun),
    }
}

/// Lists the crates of a summary: which licences they have, whatever a policy allows. A refused write tells the
/// sink's counts of faults at the start of the call and after that write.
pub fn list<S: Sink>(
    alloc: Global,
    sink: &mut S,
    summary: &Summary<'_>,
    format: OutputFormat,
    layout: Layout,
) -> Result<(), ListError>
    ensures ok { OnOk result (Gained (S.written sink.old) (S.written sink.new)
        (listing_of format layout (map listed_of summary.now.nfos))) }
    ensures err { OnErr result (GainedPrefix (S.written sink.old) (S.written sink.new)
        (listing_of format layout (map listed_of summary.now.nfos))) }
    ensures reason { IfErr result (HasReasonSince (S.fault_count sink.old) (S.fault_count sink.new)) }
    ensures later { S.fault_count sink.old ≤ S.fault_count sink.new }
{
    let begun = sink.faults();
    let crates = listed_crates(alloc, summary.nfos.items())?;
    write_listing(alloc, crates.items(), format, layout, sink, begun)
}
