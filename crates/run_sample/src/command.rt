//! The command `sample`.
//! Called by `answer_request` of `deny_run`; tree, context and words of the check may be made in any order.
ghost use Rattle.std.specs.Prelude.{◌≢◌, ◌≤◌, Err, IfErr, IfOk, OnOk};
ghost use Rattle.tree_core.specs.Faults.{Gained};
ghost use Rattle.tree_core.specs.declared.texts.fault.ReadFault.{ReadFault};
ghost use Rattle.run_found.specs.Error.{cause_of};
ghost use Rattle.run_sample.specs.Lines.{sample_lines as lines_of};
ghost use Rattle.run_sample.specs.Sample.{IsSampleComplete, IsSampled, IsUnfailed, IsUnwritten, IsWholeSample, LinesCut, WritesLines};

use crate::lines::sample_lines;
use crate::request::{sample_args, sample_context, sample_log};
use crate::steady::{Nowhere, SteadyTree};
use crate::tree::sample_tree;
use run_check::{CrateReport, Report, cmd};
use run_found::Error;
use spdx_core::{Catalog, Identifier};
use std::alloc::Global;
use tree_core::{Sink, SinkFailed, write_all};

/// The report on a sample of so many crates.
fn report_on<C: Catalog, I: Identifier>(
    alloc: Global,
    count: u32,
    catalog: &C,
    identifier: &I,
) -> Result<Report, Error>
    ensures sampled { IfOk result (IsSampled count (C.lists catalog.now) (I.match_of identifier.now)) }
    ensures policy { result ≢ Err (Error.ConfigRead ReadFault.Absent) }
    ensures unfailed { IfErr result (λ error. IsUnfailed (cause_of error)) }
    ensures unwritten { IfErr result (λ error. IsUnwritten (cause_of error)) }
    ensures complete { IsSampleComplete count (C.lists catalog.now) (I.match_of identifier.now) result }
    ensures built_in { IsWholeSample count (C.lists catalog.now) result }
{
    let tree = sample_tree(alloc, count)?;
    let context = sample_context(alloc)?;
    let args = sample_args(alloc)?;
    let mut tree = SteadyTree::new(tree);
    let mut sink = Nowhere;
    cmd(
        alloc,
        &mut tree,
        &mut sink,
        catalog,
        identifier,
        sample_log(),
        args,
        context,
    )
}

/// Writes the four lines of crates.
fn write_lines<O: Sink>(alloc: Global, out: &mut O, crates: &[CrateReport]) -> Result<(), Error>
    ensures ok { OnOk result (Gained (O.written out.old) (O.written out.new) (lines_of crates.now)) }
    ensures err { IfErr result (λ error. LinesCut crates.now (O.written out.old) (O.written out.new)
        (O.fault_count out.old) (O.fault_count out.new) (cause_of error)) }
    ensures later { O.fault_count out.old ≤ O.fault_count out.new }
{
    let begun = out.faults();
    let lines = sample_lines(alloc, crates)?;
    match write_all(out, lines.as_bytes()) {
        Ok(()) => Ok(()),
        Err(SinkFailed) => Err(Error::WriteFault {
            before: begun,
            after: out.faults(),
        }),
    }
}

/// The command `sample`: a workspace of so many crates is made in memory, and its licences are checked, as `check
/// licenses` has it, at level off. Four lines tell how many crates there are, and how many of each verdict. No other
/// file is looked at, and nothing else is written.
pub fn sample<O: Sink, C: Catalog, I: Identifier>(
    alloc: Global,
    out: &mut O,
    catalog: &C,
    identifier: &I,
    count: u32,
) -> Result<Report, Error>
    // The report is that of a check of the sample, and none of its reads failed.
    ensures sampled { IfOk result (IsSampled count (C.lists catalog.now) (I.match_of identifier.now)) }

    // The four lines were written; a refusal says what of them was.
    ensures written { WritesLines count (C.lists catalog.now) (I.match_of identifier.now)
        (O.written out.old) (O.written out.new) (O.fault_count out.old) (O.fault_count out.new) result }
    ensures later { O.fault_count out.old ≤ O.fault_count out.new }

    ensures policy { result ≢ Err (Error.ConfigRead ReadFault.Absent) }

    // No refusal comes of a failed read; and where the sample's files ask for a check, none but want of memory and a
    // refused write.
    ensures unfailed { IfErr result (λ error. IsUnfailed (cause_of error)) }
    ensures complete { IsSampleComplete count (C.lists catalog.now) (I.match_of identifier.now) result }

    // With the built-in catalogue the sample's files ask for a check, whatever the number of crates, so that there is
    // no refusal but want of memory and a refused write.
    ensures built_in { IsWholeSample count (C.lists catalog.now) result }
{
    match report_on(alloc, count, catalog, identifier) {
        Ok(report) => match write_lines(alloc, out, report.crates.items()) {
            Ok(()) => Ok(report),
            Err(refused) => Err(refused),
        },
        Err(refused) => Err(refused),
    }
}
